//! What holds of every signed request, and of every spelling.
ghost use Rattle.std.specs.Prelude.{◌≡◌, ℕ, ◌<◌, List, All, IsTrue, Option};
ghost use Rattle.http_uri.specs.declared.uri.Uri.{Uri as Target};
ghost use Rattle.http_uri.specs.Uri.{Spells, uri_query, uri_text};
ghost use Rattle.smithy_types.specs.declared.http.HttpRequest.{HttpRequest};
ghost use Rattle.auth_endpoint.specs.declared.scheme.Signed.{Signed};
ghost use Rattle.auth_endpoint.specs.declared.scheme.Signed.TheVariants.{Request, Failed};
ghost use Rattle.http_schemes.specs.declared.api_key.ApiKeyLocation.{ApiKeyLocation};
ghost use Rattle.http_schemes.specs.Encoding.{is_unreserved, encoded};
ghost use Rattle.http_schemes.specs.Query.{HasOtherQuery, IsTargetSigned, query_with};
ghost use Rattle.http_schemes.specs.Signing.{SignsByHeader, SignsByKey, SignsByQuery};

/// Letters and digits of ASCII, `-`, `.`, `_` and `~` are spelled as they are.
pub fn unreserved_bytes_are_kept()
    ensures { (bytes : List ℕ) → All (λ b. IsTrue (is_unreserved b)) bytes
        → encoded bytes ≡ bytes }
{}

/// No two texts of bytes are spelled in one way.
pub fn a_spelling_is_of_one_text()
    ensures { (bytes other : List ℕ) → All (λ b. b < 256) bytes → All (λ b. b < 256) other
        → encoded bytes ≡ encoded other → bytes ≡ other }
{}

/// A request that was signed by a header comes to itself where it is signed so again.
pub fn a_signed_request_stays_signed()
    ensures { (name value : List ℕ) (request new : HttpRequest) (again : Signed)
        → SignsByHeader name value request (Request new) → SignsByHeader name value new again
        → again ≡ Request new }
{}

/// A request that was signed by an API key comes to itself where it is signed so again.
pub fn a_request_with_its_key_stays_signed()
    ensures { (location : ApiKeyLocation) (name : List ℕ) (prefix : Option (List ℕ))
        (key : List ℕ) (request new : HttpRequest) (again : Signed)
        → SignsByKey location name prefix key request (Request new)
        → SignsByKey location name prefix key new again → again ≡ Request new }
{}

/// A request that is signed by its query isn't refused.
pub fn a_signed_target_is_not_refused()
    ensures { (name key : List ℕ) (request new : HttpRequest) (text : List ℕ)
        → SignsByQuery name key request (Request new)
        → ¬ (SignsByQuery name key request (Failed text)) }
{}

/// Where a target gets a key, the scheme, the authority and the path stay, and the query is that
/// with the key.
pub fn a_key_changes_the_query_alone()
    ensures { (name key old new : List ℕ) (uri signed : Target)
        → IsTargetSigned name key old new → Spells old uri → Spells new signed
        → HasOtherQuery uri signed (query_with (uri_query uri) (encoded name) (encoded key)) }
{}

/// A target with a key is printed as it stands.
pub fn a_signed_target_is_printed_as_it_is()
    ensures { (name key old new : List ℕ) (signed : Target)
        → IsTargetSigned name key old new → Spells new signed → uri_text signed ≡ new }
{}

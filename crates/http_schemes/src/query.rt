//! Signing by the query of a request's target.
ghost use Rattle.std.specs.Prelude.{◌≡◌, ◌++◌, [], None, Some, IfOk, OnOk, flat_map, string_bytes};
ghost use Rattle.std.specs.Prelude.{option_copied, unwrap_or};
ghost use Rattle.http_uri.specs.Uri.{uri_scheme, uri_authority};
ghost use Rattle.http_schemes.specs.Query.{pieces, piece_name, kept_text, query_with, scheme_text};
ghost use Rattle.http_schemes.specs.Query.{signed_text, IsReadAs, IsChecked, SignsTarget};
ghost use Rattle.http_schemes.specs.Signing.{SignsByQuery};

use crate::encoding::encode;
use auth_endpoint::Signed;
use http_uri::{Uri, UriError};
use smithy_types::{HttpRequest, OutOfMemory, Text};
use std::alloc::Global;

// The URI that the text spells, if it spells one.
fn read_uri(alloc: Global, text: &str) -> Result<Option<Uri>, OutOfMemory>
    ensures { IfOk result (IsReadAs text.now) }
{
    match Uri::from_str(alloc, text) {
        Ok(uri) => Ok(Some(uri)),
        Err(UriError::Invalid(_)) => Ok(None),
        Err(UriError::OutOfMemory) => Err(OutOfMemory),
    }
}

// Adds the scheme with its mark, if there is one.
fn push_scheme(text: &mut String, uri: &Uri) -> Result<(), OutOfMemory>
    ensures { OnOk result
        (string_bytes text.new ≡ string_bytes text.old ++ scheme_text (uri_scheme uri.now)) }
{
    if let Some(scheme) = uri.scheme_str() {
        text.push_str(scheme)?;
        text.push_str("://")?;
    }
    Ok(())
}

// Adds the authority, if there is one.
fn push_authority(text: &mut String, uri: &Uri) -> Result<(), OutOfMemory>
    ensures { OnOk result
        (string_bytes text.new ≡ string_bytes text.old ++ unwrap_or (uri_authority uri.now) []) }
{
    if let Some(authority) = uri.authority() {
        text.push_str(authority.as_str())?;
    }
    Ok(())
}

// The piece's text before its first `=`, or all of it.
fn piece_name(piece: &str) -> &str
    ensures { result.now ≡ piece_name piece.now }
{
    match piece.split_once('=') {
        Some((name, _)) => name,
        None => piece,
    }
}

// Adds the piece and an `&`, unless the piece has the name.
fn push_other(text: &mut String, piece: &str, name: &str) -> Result<(), OutOfMemory>
    ensures { OnOk result
        (string_bytes text.new ≡ string_bytes text.old ++ kept_text name.now piece.now) }
{
    if piece_name(piece) != name {
        text.push_str(piece)?;
        text.push_str("&")?;
    }
    Ok(())
}

// Adds each piece of another name, and an `&` behind it.
fn push_pieces(text: &mut String, query: &str, name: &str) -> Result<(), OutOfMemory>
    ensures { OnOk result
        (string_bytes text.new
        ≡ string_bytes text.old ++ flat_map (kept_text name.now) (pieces (Some query.now))) }
{
    if query.is_empty() {
        return Ok(());
    }
    for piece in query.split('&') {
        push_other(text, piece, name)?;
    }
    Ok(())
}

// The same, if there is a query.
fn push_others(text: &mut String, query: Option<&str>, name: &str) -> Result<(), OutOfMemory>
    ensures { OnOk result
        (string_bytes text.new
        ≡ string_bytes text.old
        ++ flat_map (kept_text name.now) (pieces (option_copied query.entry))) }
{
    if let Some(query) = query {
        push_pieces(text, query, name)?;
    }
    Ok(())
}

// Adds the query with the value under the name.
fn push_query(
    text: &mut String,
    query: Option<&str>,
    name: &str,
    value: &str,
) -> Result<(), OutOfMemory>
    ensures { OnOk result
        (string_bytes text.new
        ≡ string_bytes text.old ++ query_with (option_copied query.entry) name.now value.now) }
{
    push_others(text, query, name)?;
    text.push_str(name)?;
    text.push_str("=")?;
    text.push_str(value)?;
    Ok(())
}

// The URI's text with the key in its query.
fn signed_text(alloc: Global, uri: &Uri, name: &[u8], key: &[u8]) -> Result<String, OutOfMemory>
    ensures { IfOk result (λ text. string_bytes text ≡ signed_text name.now key.now uri.now) }
{
    let name = encode(alloc, name)?;
    let key = encode(alloc, key)?;
    let mut text = String::new(alloc);
    push_scheme(&mut text, uri)?;
    push_authority(&mut text, uri)?;
    text.push_str(uri.path())?;
    text.push_str("?")?;
    push_query(&mut text, uri.query(), name.as_str(), key.as_str())?;
    Ok(text)
}

// The text, if it is a URI.
fn checked(alloc: Global, text: String) -> Result<Option<Text>, OutOfMemory>
    ensures { IfOk result (IsChecked (string_bytes text)) }
{
    match read_uri(alloc, text.as_str())? {
        Some(_) => Ok(Some(Text::from_string(text)?)),
        None => Ok(None),
    }
}

// The target with the key in its query, if both are URIs.
fn signed_target(
    alloc: Global,
    target: &Text,
    name: &[u8],
    key: &[u8],
) -> Result<Option<Text>, OutOfMemory>
    ensures { IfOk result (SignsTarget name.now key.now target.now) }
{
    let Some(uri) = read_uri(alloc, target.as_str())? else {
        return Ok(None);
    };
    let text = signed_text(alloc, &uri, name, key)?;
    checked(alloc, text)
}

/// The request whose target has the key under the name in its query: the pieces of that name are
/// left out, the others stay in order, and the name with the key comes last, both encoded. The
/// refusal is `BadUrl`: the request's target is no URI, or it would be none with the key.
pub fn sign_by_query(
    alloc: Global,
    mut request: HttpRequest,
    name: &[u8],
    key: &[u8],
) -> Result<Signed, OutOfMemory>
    ensures { IfOk result (SignsByQuery name.now key.now request) }
{
    match signed_target(alloc, &request.uri, name, key)? {
        Some(target) => {
            request.uri = target;
            Ok(Signed::Request(request))
        }
        None => Ok(Signed::Failed(Text::from_static("BadUrl"))),
    }
}

//! What requests are signed with.
ghost use Rattle.std.specs.Prelude.{◌≡◌, [], ◌∷◌, None, IfOk, codes};
ghost use Rattle.client_auth.specs.declared.sources.IdentitySource.TheVariants.{Resolver};

use client_auth::IdentitySource;
use http_schemes::{HTTP_BEARER_AUTH_SCHEME_ID, HttpIdentityResolver};
use smithy_types::{Blob, Identity, List, OutOfMemory, Text};
use std::alloc::Global;

/// What requests are signed with.
#[derive(Drop)]
pub struct Signing {
    /// The one auth option.
    pub options: List<Text>,
    /// Where the identity comes from: the program.
    pub source: IdentitySource<HttpIdentityResolver>,
}

/// The id of the scheme that signs by a bearer token.
pub fn bearer_id() -> Text
    ensures { result ≡ codes "http-bearer-auth" }
{
    Text::from_static(HTTP_BEARER_AUTH_SCHEME_ID)
}

/// What requests are signed with by this token.
pub fn signing_by(alloc: Global, token: &str) -> Result<Signing, OutOfMemory>
    ensures options { IfOk result (λ s. s.options ≡ codes "http-bearer-auth" ∷ []) }
    ensures source { IfOk result (λ s. s.source ≡ Resolver (record {
      identity = record { content = token.now; expiration = None };
    })) }
{
    let mut options = List::new();
    options.push(alloc, bearer_id())?;
    Ok(Signing {
        options,
        source: token_source(alloc, token)?,
    })
}

// Where this token comes from.
fn token_source(
    alloc: Global,
    token: &str,
) -> Result<IdentitySource<HttpIdentityResolver>, OutOfMemory>
    ensures { IfOk result (λ source. source ≡ Resolver (record {
      identity = record { content = token.now; expiration = None };
    })) }
{
    let identity = Identity {
        content: Blob::from_slice(alloc, token.as_bytes())?,
        expiration: None,
    };
    Ok(IdentitySource::Resolver(HttpIdentityResolver::new(identity)))
}

//! Signing by a bearer token.
ghost use Rattle.std.specs.Prelude.{◌≡◌, ◌++◌, IfOk, codes};

use crate::header::sign_by_header;
use auth_endpoint::{AuthScheme, Signed};
use smithy_types::{Endpoint, HttpRequest, Identity, OutOfMemory};
use std::alloc::Global;

/// The id of the scheme that signs by a bearer token.
pub const HTTP_BEARER_AUTH_SCHEME_ID: &str = "http-bearer-auth";

/// Signs by the header `authorization`: `Bearer`, a space and the identity's content (RFC 6750,
/// section 2.1; Smithy's trait `httpBearerAuth`).
#[derive(Clone, Copy, Debug, PartialEq, Eq)]
pub struct BearerAuthScheme;

impl BearerAuthScheme {
    /// The scheme.
    pub fn new() -> BearerAuthScheme {
        BearerAuthScheme
    }
}

impl Default for BearerAuthScheme {
    fn default() -> BearerAuthScheme {
        BearerAuthScheme::new()
    }
}

// The header's value for this token.
fn bearer_value(alloc: Global, token: &[u8]) -> Result<Vec<u8>, OutOfMemory>
    ensures { IfOk result (λ value. value.items ≡ codes "Bearer " ++ token.now) }
{
    let mut value = Vec::new(alloc);
    value.extend_from_slice(b"Bearer ")?;
    value.extend_from_slice(token)?;
    Ok(value)
}

impl AuthScheme for BearerAuthScheme {
    ghost use Rattle.std.specs.Prelude.{◌++◌, codes};
    ghost use Rattle.http_schemes.specs.Signing.{SignsByHeader};

    ghost names = { λ _. codes "http-bearer-auth" };

    ghost signs = { λ _ request identity _ signed.
        SignsByHeader (codes "authorization") (codes "Bearer " ++ identity.content)
        request signed };

    fn id(&self) -> &str {
        HTTP_BEARER_AUTH_SCHEME_ID
    }

    fn sign(
        &self,
        alloc: Global,
        request: HttpRequest,
        identity: &Identity,
        _endpoint: &Endpoint,
    ) -> Result<Signed, OutOfMemory> {
        let value = bearer_value(alloc, identity.content.as_slice())?;
        sign_by_header(alloc, request, b"authorization", value.as_slice())
    }
}

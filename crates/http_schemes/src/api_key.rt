//! Signing by an API key.
ghost use Rattle.std.specs.Prelude.{◌≡◌, IfOk};
ghost use Rattle.http_schemes.specs.Signing.{prefixed, SignsByKey};

use crate::header::sign_by_header;
use crate::query::sign_by_query;
use auth_endpoint::{AuthScheme, Signed};
use smithy_types::{Endpoint, HttpRequest, Identity, OutOfMemory, Text};
use std::alloc::Global;

/// The id of the scheme that signs by an API key.
pub const HTTP_API_KEY_AUTH_SCHEME_ID: &str = "http-api-key-auth";

/// Where a request has the key.
#[derive(Clone, Copy, Debug, PartialEq, Eq)]
pub enum ApiKeyLocation {
    /// In a header.
    Header,
    /// In the query of its URI.
    Query,
}

/// Signs by a header or by the query: the identity's content under a name. In a header the prefix
/// and a space come before it, where there is a prefix (Smithy's trait `httpApiKeyAuth`).
#[derive(Debug, Drop)]
pub struct ApiKeyAuthScheme {
    location: ApiKeyLocation,
    name: Text,
    prefix: Option<Text>,
}

impl ApiKeyAuthScheme {
    /// The scheme. In the query it ignores the prefix.
    pub fn new(location: ApiKeyLocation, name: Text, prefix: Option<Text>) -> ApiKeyAuthScheme
        ensures location { result.location ≡ location }
        ensures name { result.name ≡ name }
        ensures prefix { result.prefix ≡ prefix }
    {
        ApiKeyAuthScheme {
            location,
            name,
            prefix,
        }
    }
}

// The header's value for this key.
fn key_value(alloc: Global, prefix: &Option<Text>, key: &[u8]) -> Result<Vec<u8>, OutOfMemory>
    ensures { IfOk result (λ value. value.items ≡ prefixed prefix.now key.now) }
{
    let mut value = Vec::new(alloc);
    if let Some(prefix) = prefix {
        value.extend_from_slice(prefix.as_str().as_bytes())?;
        value.extend_from_slice(b" ")?;
    }
    value.extend_from_slice(key)?;
    Ok(value)
}

impl AuthScheme for ApiKeyAuthScheme {
    ghost use Rattle.std.specs.Prelude.{codes};
    ghost use Rattle.http_schemes.specs.Signing.{SignsByKey};

    ghost names = { λ _. codes "http-api-key-auth" };

    ghost signs = { λ scheme request identity _ signed.
        SignsByKey scheme.location scheme.name scheme.prefix identity.content request signed };

    fn id(&self) -> &str {
        HTTP_API_KEY_AUTH_SCHEME_ID
    }

    fn sign(
        &self,
        alloc: Global,
        request: HttpRequest,
        identity: &Identity,
        _endpoint: &Endpoint,
    ) -> Result<Signed, OutOfMemory> {
        let name = self.name.as_str().as_bytes();
        let key = identity.content.as_slice();
        match self.location {
            ApiKeyLocation::Header => {
                let value = key_value(alloc, &self.prefix, key)?;
                sign_by_header(alloc, request, name, value.as_slice())
            }
            ApiKeyLocation::Query => sign_by_query(alloc, request, name, key),
        }
    }
}

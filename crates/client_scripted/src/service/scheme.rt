//! How the service's requests are signed.
ghost use Rattle.std.specs.Prelude.{◌≡◌};
ghost use Rattle.client_scripted.specs.Service.Service.{scheme_of};

use auth_endpoint::{AuthScheme, NO_AUTH_SCHEME_ID, NoAuthScheme, Signed};
use client_builder::Scheme;
use http_schemes::header::sign_by_header;
use http_schemes::{ApiKeyAuthScheme, BearerAuthScheme};
use smithy_types::{Endpoint, HttpRequest, Identity, OutOfMemory, Text};
use std::alloc::Global;

/// A scheme of the service by which a request is signed.
#[derive(Debug, Drop)]
pub enum ServiceScheme {
    /// Sets the header `authorization` to the identity's content, under this id. The refusal is
    /// `BadHeader`: the content is no value of a header (RFC 9110, section 5.5), or the header is
    /// new and the request has no room for it.
    Header(Text),
    /// Signs by a bearer token, under the id `http-bearer-auth`.
    Bearer(BearerAuthScheme),
    /// Signs by an API key, under the id `http-api-key-auth`.
    ApiKey(ApiKeyAuthScheme),
}

/// The service's own scheme of this id: of `noAuth` the one that signs nothing, and of any other the
/// one that sets the header, be it the id of a bearer token or of an API key.
pub fn own_scheme(id: Text) -> Scheme<ServiceScheme>
    ensures { result ≡ scheme_of id }
{
    if id.as_str() == NO_AUTH_SCHEME_ID {
        Scheme::NoAuth(NoAuthScheme::new())
    } else {
        Scheme::Brought(ServiceScheme::Header(id))
    }
}

impl AuthScheme for ServiceScheme {
    ghost use Rattle.client_scripted.specs.Service.Service.{id_of, Signs};

    ghost names = { id_of };

    ghost signs = { λ scheme request identity _ signed. Signs scheme request identity signed };

    fn id(&self) -> &str {
        match self {
            ServiceScheme::Header(id) => id.as_str(),
            ServiceScheme::Bearer(scheme) => scheme.id(),
            ServiceScheme::ApiKey(scheme) => scheme.id(),
        }
    }

    fn sign(
        &self,
        alloc: Global,
        request: HttpRequest,
        identity: &Identity,
        endpoint: &Endpoint,
    ) -> Result<Signed, OutOfMemory> {
        match self {
            ServiceScheme::Header(_) => {
                let value = identity.content.as_slice();
                sign_by_header(alloc, request, b"authorization", value)
            }
            ServiceScheme::Bearer(scheme) => scheme.sign(alloc, request, identity, endpoint),
            ServiceScheme::ApiKey(scheme) => scheme.sign(alloc, request, identity, endpoint),
        }
    }
}

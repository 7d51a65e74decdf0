//! The endpoint that is always the same.
ghost use Rattle.std.specs.Prelude.{◌≡◌, ◌++◌, [], None, IfOk, codes};
ghost use Rattle.std.specs.Fmt.{decimal};

use smithy_context::Setting;
use smithy_types::{Endpoint, List, OutOfMemory, Text};
use std::alloc::{AllocError, Global};

/// Resolves each endpoint to one URI.
#[derive(Debug, Drop)]
pub struct StaticUriEndpointResolver {
    /// The URI.
    pub endpoint: Text,
}

impl StaticUriEndpointResolver {
    /// The resolver to `http://localhost` at this port.
    pub fn http_localhost(
        alloc: Global,
        port: u16,
    ) -> Result<StaticUriEndpointResolver, OutOfMemory>
        ensures { IfOk result (λ r. r.endpoint ≡ codes "http://localhost:" ++ decimal port) }
    {
        let endpoint = format!(in alloc; "http://localhost:{port}")?;
        Ok(StaticUriEndpointResolver {
            endpoint: Text::from_string(endpoint)?,
        })
    }

    /// The resolver to this URI, which is checked where it is applied.
    pub fn uri(text: Text) -> StaticUriEndpointResolver
        ensures { result.endpoint ≡ text }
    {
        StaticUriEndpointResolver { endpoint: text }
    }

    /// The endpoint: the URI, without headers and without a list of schemes.
    pub fn resolve_endpoint(&self) -> Result<Endpoint, OutOfMemory>
        ensures { IfOk result
            (λ e. e ≡ record { url = self.now.endpoint; headers = []; schemes = None }) }
    {
        Ok(Endpoint {
            url: self.endpoint.clone()?,
            headers: List::new(),
            schemes: None,
        })
    }
}

impl Clone for StaticUriEndpointResolver {
    ghost is_clone = { λ resolver copy. copy ≡ resolver };

    fn clone(&self) -> Result<StaticUriEndpointResolver, AllocError> {
        Ok(StaticUriEndpointResolver {
            endpoint: self.endpoint.clone()?,
        })
    }
}

/// What a static resolver is handed: nothing.
#[derive(Clone, Copy, Debug, PartialEq, Eq)]
pub struct StaticUriEndpointResolverParams;

impl StaticUriEndpointResolverParams {
    /// The parameters.
    pub fn new() -> StaticUriEndpointResolverParams {
        StaticUriEndpointResolverParams
    }
}

impl Default for StaticUriEndpointResolverParams {
    fn default() -> StaticUriEndpointResolverParams {
        StaticUriEndpointResolverParams::new()
    }
}

impl From<StaticUriEndpointResolverParams> for Setting {
    ghost use Rattle.smithy_context.specs.declared.setting.Setting.TheVariants.{EndpointParams};

    ghost from_gives = { λ _ setting. setting ≡ EndpointParams };

    fn from(_params: StaticUriEndpointResolverParams) -> Setting {
        Setting::EndpointParams
    }
}

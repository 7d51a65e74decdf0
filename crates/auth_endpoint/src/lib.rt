//! How an auth scheme is chosen, and how an endpoint is applied to a request.
#![tactic(auto)]

pub mod apply;
pub mod choice;
pub mod endpoint_error;
pub mod explored;
mod headers;
pub mod laws;
pub mod no_auth;
pub mod no_match;
pub mod options;
pub mod preference;
pub mod request;
pub mod resolver;
pub mod scheme;
pub mod shared;

pub use apply::apply_endpoint;
pub use choice::{Place, choose};
pub use endpoint_error::EndpointError;
pub use explored::{
    ExploreResult, ExploredAuthOption, ExploredList, NO_AUTH_SCHEME_ID, NoMatchingAuthSchemeError,
};
pub use no_auth::{NoAuthRuntimePlugin, NoAuthRuntimePluginV2, NoAuthScheme, Order};
pub use options::{AuthSchemeAndEndpointOrchestrationV2, NoAuthSchemeOptionResolver};
pub use preference::reprioritize;
pub use request::apply_endpoint_to_request;
pub use resolver::{StaticUriEndpointResolver, StaticUriEndpointResolverParams};
pub use scheme::{AuthScheme, Signed};
pub use shared::{SharedAuthScheme, SharedIdentityResolver};

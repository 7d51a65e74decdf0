//! Auth schemes of HTTP, and the identities that they sign with.
#![tactic(auto)]

pub mod api_key;
pub mod bearer;
pub mod encoding;
pub mod header;
pub mod laws;
pub mod query;
pub mod resolver;

pub use api_key::{ApiKeyAuthScheme, ApiKeyLocation, HTTP_API_KEY_AUTH_SCHEME_ID};
pub use bearer::{BearerAuthScheme, HTTP_BEARER_AUTH_SCHEME_ID};
pub use encoding::encode;
pub use header::sign_by_header;
pub use query::sign_by_query;
pub use resolver::HttpIdentityResolver;

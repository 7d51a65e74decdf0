//! Why an endpoint can't be applied to a request.
ghost use Rattle.std.specs.Prelude.{◌≡◌, Some};

use smithy_types::OutOfMemory;
use std::error::Error;
use std::fmt;

/// Why an endpoint can't be applied. `BadUrl` comes before the others, then they come in the order
/// in which they stand here.
#[derive(Clone, Copy, Debug, PartialEq, Eq)]
pub enum EndpointError {
    /// The request's URI or the endpoint's URL is no URI.
    BadUrl,
    /// The prefix and the endpoint's authority together are no authority.
    BadAuthority,
    /// The endpoint has no scheme.
    NoScheme,
    /// The endpoint with the request's path is no URI.
    BadUri,
    /// The endpoint has a header that is none, or more headers than a list takes.
    BadHeader,
    /// An allocation was refused.
    OutOfMemory,
}

impl From<OutOfMemory> for EndpointError {
    ghost use Rattle.auth_endpoint.specs.declared.endpoint_error.EndpointError.TheVariants as refusal;

    ghost from_gives = { λ _ e. e ≡ refusal.OutOfMemory };

    fn from(_error: OutOfMemory) -> EndpointError {
        EndpointError::OutOfMemory
    }
}

impl fmt::Display for EndpointError {
    ghost use Rattle.auth_endpoint.specs.Endpoint.{refusal_text};

    ghost output = { λ e. Some (refusal_text e) };

    fn fmt<W: fmt::Write>(&self, f: &mut fmt::Formatter<W>) -> fmt::Result {
        f.write_str(match self {
            EndpointError::BadUrl => "BadUrl",
            EndpointError::BadAuthority => "BadAuthority",
            EndpointError::NoScheme => "NoScheme",
            EndpointError::BadUri => "BadUri",
            EndpointError::BadHeader => "BadHeader",
            EndpointError::OutOfMemory => "out of memory",
        })
    }
}

impl Error for EndpointError {}

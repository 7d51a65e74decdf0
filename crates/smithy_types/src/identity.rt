//! Who asks, and where the request goes.
ghost use Rattle.std.specs.Prelude.{◌≡◌};

use crate::redacted::REDACTED;
use crate::{Blob, List, Text};
use std::alloc::AllocError;
use std::fmt;

/// An identity that a request is signed with. Its `Debug` doesn't show the content.
#[derive(Drop)]
pub struct Identity {
    /// What the signer reads, such as a key or a token: a secret.
    pub content: Blob,
    /// The moment in nanoseconds since the epoch from which on it is no longer valid.
    pub expiration: Option<u64>,
}

impl Clone for Identity {
    ghost is_clone = { λ identity copy. copy ≡ identity };

    fn clone(&self) -> Result<Identity, AllocError> {
        Ok(Identity {
            content: self.content.clone()?,
            expiration: self.expiration,
        })
    }
}

impl fmt::Debug for Identity {
    fn fmt<W: fmt::Write>(&self, f: &mut fmt::Formatter<W>) -> fmt::Result {
        let expiration = self.expiration;
        write!(
            f,
            "Identity {{ content: {REDACTED}, expiration: {expiration:?} }}"
        )
    }
}

/// A header that an endpoint sets on its requests.
#[derive(Debug, Drop)]
pub struct EndpointHeader {
    /// The header's name.
    pub name: Text,
    /// Its values, in order.
    pub values: List<Text>,
}

/// Where requests go.
#[derive(Debug, Drop)]
pub struct Endpoint {
    /// Scheme, authority and the front of the path.
    pub url: Text,
    /// What is set on each request that goes there.
    pub headers: List<EndpointHeader>,
    /// The auth schemes that the endpoint takes, where it says so.
    pub schemes: Option<List<Text>>,
}

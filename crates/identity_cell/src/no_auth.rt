//! The identity of a request that isn't signed.
use crate::resolve_identity::ResolveIdentity;
use outside::IdentityPoll;
use smithy_types::{Blob, Identity, OutOfMemory};
use std::alloc::Global;

/// Stands for nobody: an identity without content, which doesn't expire.
#[derive(Clone, Copy, Debug, PartialEq, Eq)]
pub struct NoAuthIdentity;

impl NoAuthIdentity {
    /// The identity of nobody.
    pub fn new() -> NoAuthIdentity {
        NoAuthIdentity
    }
}

impl Default for NoAuthIdentity {
    fn default() -> NoAuthIdentity {
        NoAuthIdentity::new()
    }
}

impl From<NoAuthIdentity> for Identity {
    ghost use Rattle.std.specs.Prelude.{◌≡◌, [], None};

    ghost from_gives = { λ _ identity. identity ≡ record { content = []; expiration = None } };

    fn from(_nobody: NoAuthIdentity) -> Identity {
        Identity {
            content: Blob::new(),
            expiration: None,
        }
    }
}

/// Resolves the identity of nobody, at once and at every ask.
#[derive(Clone, Copy, Debug, PartialEq, Eq)]
pub struct NoAuthIdentityResolver;

impl NoAuthIdentityResolver {
    /// The resolver.
    pub fn new() -> NoAuthIdentityResolver {
        NoAuthIdentityResolver
    }
}

impl Default for NoAuthIdentityResolver {
    fn default() -> NoAuthIdentityResolver {
        NoAuthIdentityResolver::new()
    }
}

impl ResolveIdentity for NoAuthIdentityResolver {
    ghost use Rattle.std.specs.Prelude.{◌≡◌, [], None};
    ghost use Rattle.outside.specs.declared.answers.IdentityPoll.TheVariants.{Ready};

    ghost polls = { λ old answer new.
        (answer ≡ Ready (record { content = []; expiration = None }))
        × (new ≡ old) };

    fn poll(&mut self, _alloc: Global) -> Result<IdentityPoll, OutOfMemory> {
        Ok(IdentityPoll::Ready(Identity::from(NoAuthIdentity::new())))
    }
}

//! A resolver that has its identity.
ghost use Rattle.std.specs.Prelude.{◌≡◌};

use identity_cell::{IdentityPoll, ResolveIdentity};
use smithy_types::{Identity, OutOfMemory};
use std::alloc::Global;

/// Resolves one identity, at once and at every ask.
#[derive(Debug, Drop)]
pub struct HttpIdentityResolver {
    identity: Identity,
}

impl HttpIdentityResolver {
    /// The resolver of this identity.
    pub fn new(identity: Identity) -> HttpIdentityResolver
        ensures { result.identity ≡ identity }
    {
        HttpIdentityResolver { identity }
    }
}

impl ResolveIdentity for HttpIdentityResolver {
    ghost use Rattle.std.specs.Prelude.{◌≡◌};
    ghost use Rattle.identity_cell.specs.declared.resolve_identity.IdentityPoll.TheVariants.{Ready};

    ghost polls = { λ old answer new. (answer ≡ Ready old.identity) × (new ≡ old) };

    fn poll(&mut self, _alloc: Global) -> Result<IdentityPoll, OutOfMemory> {
        Ok(IdentityPoll::Ready(self.identity.clone()?))
    }
}

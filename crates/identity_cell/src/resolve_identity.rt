//! What resolves the identity that a request is signed with.
pub use outside::IdentityPoll;
use smithy_types::OutOfMemory;
use std::alloc::Global;

/// Resolves the identities of one auth scheme. It may change as it is asked.
pub trait ResolveIdentity: Drop {
    ghost use Rattle.std.specs.Prelude.{◌≡◌, IfOk, OnErr};
    ghost use Rattle.outside.specs.declared.answers.IdentityPoll.{IdentityPoll};

    /// What an ask may answer, and what it leaves of the resolver.
    ghost polls: { Self → IdentityPoll → Self → Type 0 };

    /// Asks once. After a refusal the resolver is as it was.
    fn poll(&mut self, alloc: Global) -> Result<IdentityPoll, OutOfMemory>
        ensures ok { IfOk result (λ answer. polls self.old answer self.new) }
        ensures err { OnErr result (self.new ≡ self.old) };
}

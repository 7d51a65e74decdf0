//! The schemes and the resolvers of a client: those for requests that aren't signed, and the
//! program's own.

use auth_endpoint::{AuthScheme, NoAuthScheme, Signed};
use identity_cell::{IdentityPoll, NoAuthIdentityResolver, ResolveIdentity};
use smithy_types::{Endpoint, HttpRequest, Identity, OutOfMemory};
use std::alloc::Global;

/// A scheme of a client.
#[derive(Drop)]
pub enum Scheme<A: AuthScheme> {
    /// Signs nothing.
    NoAuth(NoAuthScheme),
    /// The program's.
    Brought(A),
}

impl<A: AuthScheme> AuthScheme for Scheme<A> {
    ghost use Rattle.std.specs.Prelude.{◌≡◌, codes};
    ghost use Rattle.auth_endpoint.specs.declared.scheme.Signed.TheVariants.{Request};
    ghost use Rattle.client_builder.specs.declared.scheme.Scheme.TheVariants.{NoAuth, Brought};

    ghost names = { elim [
      | NoAuth _ ↦ codes "noAuth"
      | Brought scheme ↦ A.names scheme
    ] };

    ghost signs = { elim [
      | NoAuth _ ↦ (λ request _ _ signed. signed ≡ Request request)
      | Brought scheme ↦ A.signs scheme
    ] };

    fn id(&self) -> &str {
        match self {
            Scheme::NoAuth(scheme) => scheme.id(),
            Scheme::Brought(scheme) => scheme.id(),
        }
    }

    fn sign(
        &self,
        alloc: Global,
        request: HttpRequest,
        identity: &Identity,
        endpoint: &Endpoint,
    ) -> Result<Signed, OutOfMemory> {
        match self {
            Scheme::NoAuth(scheme) => scheme.sign(alloc, request, identity, endpoint),
            Scheme::Brought(scheme) => scheme.sign(alloc, request, identity, endpoint),
        }
    }
}

/// A resolver of a client.
#[derive(Drop)]
pub enum IdentityResolver<R: ResolveIdentity> {
    /// Resolves the identity of nobody.
    NoAuth(NoAuthIdentityResolver),
    /// The program's.
    Brought(R),
}

impl<R: ResolveIdentity> ResolveIdentity for IdentityResolver<R> {
    ghost use Rattle.std.specs.Prelude.{◌≡◌, [], None};
    ghost use Rattle.outside.specs.declared.answers.IdentityPoll.TheVariants.{Ready};
    ghost use Rattle.client_builder.specs.declared.scheme.IdentityResolver.TheVariants.{NoAuth};
    ghost use Rattle.client_builder.specs.declared.scheme.IdentityResolver.TheVariants.{Brought};

    ghost polls = { λ old answer new. elim old [
      | NoAuth nobody ↦ (answer ≡ Ready (record { content = []; expiration = None }))
          × (new ≡ NoAuth nobody)
      | Brought resolver ↦ (after : _) × (new ≡ Brought after) × R.polls resolver answer after
    ] };

    fn poll(&mut self, alloc: Global) -> Result<IdentityPoll, OutOfMemory> {
        match self {
            IdentityResolver::NoAuth(nobody) => nobody.poll(alloc),
            IdentityResolver::Brought(resolver) => resolver.poll(alloc),
        }
    }
}

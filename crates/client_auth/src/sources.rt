//! Where identities come from.
ghost use Rattle.std.specs.Prelude.{◌≡◌, IfOk, map, OnErr};
ghost use Rattle.smithy_types.specs.Chain.{Chained};
ghost use Rattle.client_auth.specs.Sourcing.{AsksSource};

use identity_cell::ResolveIdentity;
use outside::{IdentityPoll, Outside};
use smithy_types::{List, OutOfMemory, Text};
use std::alloc::Global;

/// What gives a scheme's identity. R is a resolver of the program.
#[derive(Drop)]
pub enum IdentitySource<R: ResolveIdentity> {
    /// The outside loads it.
    Outside,
    /// This resolver has it.
    Resolver(R),
}

/// A source under the id of the scheme that it is for.
#[derive(Drop)]
pub struct RegisteredSource<R: ResolveIdentity> {
    /// The scheme's id.
    pub id: Text,
    /// What gives the identity.
    pub source: IdentitySource<R>,
}

/// Asks a source once for the identity of a scheme.
pub(crate) fn ask_source<X: Outside, R: ResolveIdentity>(
    alloc: Global,
    source: &mut IdentitySource<R>,
    outside: &mut X,
    id: &Text,
) -> Result<IdentityPoll, OutOfMemory>
    ensures ok { IfOk result (λ p. (calls : _) × Chained X.makes outside.old calls outside.new
        × AsksSource R.polls id.now source.old p source.new calls) }
    ensures err { OnErr result ((calls : _) × Chained X.makes outside.old calls outside.new) }
{
    match source {
        IdentitySource::Outside => outside.resolve(alloc, id.as_str()),
        IdentitySource::Resolver(resolver) => resolver.poll(alloc),
    }
}

// The ids that have a source.
pub(crate) fn source_ids<R: ResolveIdentity>(
    alloc: Global,
    sources: &[RegisteredSource<R>],
) -> Result<List<Text>, OutOfMemory>
    ensures { IfOk result (λ ids. ids ≡ map (λ s. s.id) sources.now) }
{
    let mut ids = List::new();
    for registered in sources {
        ids.push(alloc, registered.id.clone()?)?;
    }
    Ok(ids)
}

//! The resolver of requests that aren't signed, the ids of schemes, and a log without events.

use crate::identity::clients::shown;
use anyhow::Result;
use identity_cell::{
    EventLog, IdentityPoll, NoAuthIdentity, NoAuthIdentityResolver, ResolveIdentity, SchemeId,
};
use smithy_types::{Identity, OutOfMemory, Text};
use std::alloc::Global;

// Asks a resolver of which nothing else is known.
fn asked<R: ResolveIdentity>(alloc: Global, resolver: &mut R) -> Result<IdentityPoll, OutOfMemory> {
    resolver.poll(alloc)
}

fn told(alloc: Global, answer: &IdentityPoll) -> Result<String> {
    match answer {
        IdentityPoll::Pending => Ok(format!(in alloc; "Pending")?),
        IdentityPoll::Ready(identity) => shown(alloc, identity),
        IdentityPoll::Failed(text) => Ok(format!(in alloc; "Failed({text})")?),
    }
}

fn print_asked(rt: &HostRuntime, resolver: &mut NoAuthIdentityResolver) -> Result<()> {
    let answer = asked(rt.alloc(), resolver)?;
    let text = told(rt.alloc(), &answer)?;
    println!(rt; "{resolver:?}: {text}")?;
    Ok(())
}

fn scheme(id: &'static str) -> SchemeId {
    SchemeId::new(Text::from_static(id))
}

// Whether a scheme is its copy, and whether it is another one.
fn compared(key: &SchemeId, other: &SchemeId) -> Result<(bool, bool), OutOfMemory> {
    let copy = key.clone()?;
    Ok((*key == copy, *key == *other))
}

fn print_ids(rt: &HostRuntime) -> Result<()> {
    let key = scheme("key");
    let other = scheme("noAuth");
    let (is_copy, is_other) = compared(&key, &other)?;
    println!(rt; "{key:?} is its copy: {is_copy}, {other:?}: {is_other}")?;
    Ok(())
}

/// Prints what the resolver answers.
pub fn print(rt: &HostRuntime) -> Result<()> {
    let nobody = Identity::from(NoAuthIdentity::new());
    let text = shown(rt.alloc(), &nobody)?;
    println!(rt; "{:?}: {text}", NoAuthIdentity::default())?;
    let mut resolver = NoAuthIdentityResolver::new();
    print_asked(rt, &mut resolver)?;
    print_asked(rt, &mut resolver)?;
    print_ids(rt)?;
    let log = EventLog::new();
    println!(rt; "an empty log: {} begun, {:?}", log.begun(), log.as_slice())?;
    Ok(())
}

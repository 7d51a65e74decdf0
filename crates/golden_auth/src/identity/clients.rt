//! A cache by scheme, with the load that is open and its timers.

use crate::identity::cells::seconds;
use crate::identity::sleeper::Sleeper;
use anyhow::Result;
use identity_cell::{IdentityLoad, LazyCache, LazyCacheTerms, Looked, SchemeId};
use smithy_context::Settings;
use smithy_types::{Blob, Identity, OutOfMemory, Text, Timers};
use std::alloc::Global;

/// A cache, its timers, and the open load.
#[derive(Drop)]
pub struct Client {
    pub cache: LazyCache,
    pub sleeper: Sleeper,
    load: Option<IdentityLoad>,
}

impl Client {
    /// A cache by these terms, with sleeps or without.
    pub fn new(alloc: Global, terms: LazyCacheTerms, sleeps: bool) -> Client {
        Client {
            cache: LazyCache::new(alloc, terms),
            sleeper: Sleeper::new(sleeps),
            load: None,
        }
    }

    /// What a look for a scheme at a second answers.
    pub fn look(&mut self, alloc: Global, id: &'static str, second: u64) -> Result<String> {
        let id = SchemeId::new(Text::from_static(id));
        match self.cache.look(alloc, &id, seconds(second))? {
            Looked::Hit(identity) => shown(alloc, &identity),
            Looked::Load(ticket) => Ok(format!(in alloc; "Load({ticket})")?),
            Looked::NotYet => Ok(format!(in alloc; "NotYet")?),
        }
    }

    /// Opens the load of a scheme's ticket that was asked for at a second.
    pub fn open(
        &mut self,
        alloc: Global,
        settings: &Settings,
        id: &'static str,
        ticket: u64,
        second: u64,
    ) -> Result<String> {
        self.sleeper.moment = seconds(second);
        let load = opened(
            &mut self.cache,
            alloc,
            &mut self.sleeper,
            settings,
            id,
            ticket,
            second,
        )?;
        let text = format!(in alloc;
            "ticket {}, timeout {}, sleep {:?}",
            load.ticket, load.timeout, load.sleep
        )?;
        self.load = Some(load);
        Ok(text)
    }

    /// What the open load's sleep is asked to be at a second.
    pub fn wait(&mut self, alloc: Global, second: u64) -> Result<String> {
        self.sleeper.moment = seconds(second);
        match &self.load {
            Some(load) => waited(&mut self.cache, alloc, &mut self.sleeper, load),
            None => no_load(alloc),
        }
    }

    /// The open load gives this identity, and the random word is this.
    pub fn keep(&mut self, alloc: Global, identity: Identity, word: u64) -> Result<String> {
        match self.load.take() {
            Some(load) => kept(
                &mut self.cache,
                alloc,
                &mut self.sleeper,
                load,
                identity,
                word,
            ),
            None => no_load(alloc),
        }
    }

    /// The open load fails.
    pub fn fail(&mut self, alloc: Global) -> Result<String> {
        match self.load.take() {
            Some(load) => failed(&mut self.cache, alloc, &mut self.sleeper, load),
            None => no_load(alloc),
        }
    }

    /// The open load is given up.
    pub fn abandon(&mut self, alloc: Global) -> Result<String> {
        match self.load.take() {
            Some(load) => abandoned(&mut self.cache, alloc, &mut self.sleeper, load),
            None => no_load(alloc),
        }
    }
}

fn no_load(alloc: Global) -> Result<String> {
    Ok(format!(in alloc; "no load")?)
}

/// The bytes of an identity, and when it expires.
pub fn shown(alloc: Global, identity: &Identity) -> Result<String> {
    let expiration = identity.expiration;
    Ok(format!(in alloc;
        "{:?}, expiration {expiration:?}",
        identity.content.as_slice()
    )?)
}

/// An identity of these bytes.
pub fn identity(
    alloc: Global,
    bytes: &[u8],
    expiration: Option<u64>,
) -> Result<Identity, OutOfMemory> {
    Ok(Identity {
        content: Blob::from_slice(alloc, bytes)?,
        expiration,
    })
}

fn opened<T: Timers>(
    cache: &mut LazyCache,
    alloc: Global,
    timers: &mut T,
    settings: &Settings,
    id: &'static str,
    ticket: u64,
    second: u64,
) -> Result<IdentityLoad, OutOfMemory> {
    let id = SchemeId::new(Text::from_static(id));
    cache.open(alloc, timers, id, ticket, seconds(second), settings)
}

fn waited<T: Timers>(
    cache: &mut LazyCache,
    alloc: Global,
    timers: &mut T,
    load: &IdentityLoad,
) -> Result<String> {
    match cache.wait(alloc, timers, load)? {
        Some(reason) => Ok(format!(in alloc; "{reason}")?),
        None => Ok(format!(in alloc; "it isn't over")?),
    }
}

fn kept<T: Timers>(
    cache: &mut LazyCache,
    alloc: Global,
    timers: &mut T,
    load: IdentityLoad,
    identity: Identity,
    word: u64,
) -> Result<String> {
    let copy = cache.keep(timers, load, identity, word)?;
    shown(alloc, &copy)
}

fn failed<T: Timers>(
    cache: &mut LazyCache,
    alloc: Global,
    timers: &mut T,
    load: IdentityLoad,
) -> Result<String> {
    cache.fail(timers, load);
    Ok(format!(in alloc; "failed")?)
}

fn abandoned<T: Timers>(
    cache: &mut LazyCache,
    alloc: Global,
    timers: &mut T,
    load: IdentityLoad,
) -> Result<String> {
    cache.abandon(timers, load);
    Ok(format!(in alloc; "given up")?)
}

//! Two threads over one cell behind a lock.

use crate::identity::shared::{Shared, Told};
use anyhow::Result;
use identity_cell::{CacheAnswer, Cleared, Clearing, Loading};
use smithy_types::OutOfMemory;
use std::alloc::Global;
use std::sync::Wait;
use std::thread::{Threads, join};

const ROUNDS: u32 = 20;

// What a caller was told, and how often its load was asked.
#[derive(Drop)]
struct Seen {
    value: Option<u64>,
    loads: u32,
}

// A caller whose load would give this value.
fn ask<R: Wait>(rt: &R, alloc: Global, cache: &Shared, given: u64) -> Result<Seen, OutOfMemory> {
    let mut loads = 0;
    let answer = cache.get_or_load(rt, alloc, &mut Loading::new(), || {
        loads = 1;
        Told::Ready(given, 100).poll()
    })?;
    let value = match answer {
        CacheAnswer::Value(value) => Some(value),
        _ => None,
    };
    Ok(Seen { value, loads })
}

// The value that the cache keeps.
fn kept<R: Wait>(rt: &R, alloc: Global, cache: &Shared) -> Result<Option<u64>, OutOfMemory> {
    match cache.yield_or_clear_if_expired(rt, alloc, 0, &mut Clearing::new())? {
        Cleared::Value(value) => Ok(Some(value)),
        _ => Ok(None),
    }
}

/// What was seen in some rounds.
#[derive(Clone, Copy)]
struct Sums {
    loads: u32,
    kept: u32,
    told_another: u32,
}

// Whether a caller was told another value than the one that is kept.
fn is_another(seen: &Seen, kept: Option<u64>) -> bool {
    seen.value.is_some() && seen.value != kept
}

fn counted(sums: Sums, first: &Seen, second: &Seen, kept: Option<u64>) -> Sums {
    let loads = first.loads.saturating_add(second.loads);
    let is_kept = kept == Some(1) || kept == Some(2);
    let is_another = is_another(first, kept) || is_another(second, kept);
    Sums {
        loads: sums.loads.saturating_add(loads),
        kept: sums.kept.saturating_add(u32::from(is_kept)),
        told_another: sums.told_another.saturating_add(u32::from(is_another)),
    }
}

// Two threads ask a new cache at once.
fn round<R: Threads + Wait + Sync>(rt: &R, alloc: Global, sums: Sums) -> Result<Sums, OutOfMemory> {
    let cache = Shared::new(alloc, 0)?;
    let shared = &cache;
    let (first, second) = join(
        rt,
        || ask(rt, alloc, shared, 1),
        || ask(rt, alloc, shared, 2),
    );
    let kept = kept(rt, alloc, &cache)?;
    Ok(counted(sums, &first?, &second?, kept))
}

/// Prints how many loads there were in rounds of two threads, and whether they agree.
pub fn print<R: Print + Threads + Wait + Sync>(rt: &R, alloc: Global) -> Result<()> {
    let mut sums = Sums {
        loads: 0,
        kept: 0,
        told_another: 0,
    };
    for _ in 0..ROUNDS {
        sums = round(rt, alloc, sums)?;
    }
    println!(rt;
        "two threads, {ROUNDS} rounds: {} loads, {} values kept, {} rounds with another value",
        sums.loads, sums.kept, sums.told_another
    )?;
    Ok(())
}

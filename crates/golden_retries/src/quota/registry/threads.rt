//! A shared table on two threads.
use anyhow::Result;
use retry_quota::StaticPartitionMap;
use smithy_types::OutOfMemory;
use std::alloc::Global;
use std::sync::Wait;
use std::thread::{Threads, join};

/// How often two threads meet at a new key.
const ROUNDS: u32 = 20;

/// What two threads see of a new key, and what it has behind them.
#[derive(Clone, Copy)]
struct Met {
    first: u32,
    second: u32,
    behind: Option<u32>,
}

// What two threads that bring 1 and 2 see.
fn meet<R: Threads + Wait + Sync>(rt: &R, alloc: Global) -> Result<Met, OutOfMemory> {
    let map = StaticPartitionMap::<char, u32>::new();
    let shared = &map;
    let (first, second) = join(
        rt,
        || shared.get_or_init(rt, alloc, 'A', || 1),
        || shared.get_or_init(rt, alloc, 'A', || 2),
    );
    Ok(Met {
        first: first?,
        second: second?,
        behind: map.get(rt, alloc, 'A')?,
    })
}

/// In how many rounds both threads saw one value, and in how many the key kept it.
fn rounds<R: Threads + Wait + Sync>(rt: &R, alloc: Global) -> Result<(u32, u32), OutOfMemory> {
    let mut agreed: u32 = 0;
    let mut kept: u32 = 0;
    for _ in 0..ROUNDS {
        let met = meet(rt, alloc)?;
        if met.first == met.second {
            agreed = agreed.saturating_add(1);
        }
        if met.behind == Some(met.first) {
            kept = kept.saturating_add(1);
        }
    }
    Ok((agreed, kept))
}

/// Prints what two threads see that are started by this handle.
pub fn print<R: Threads + Wait + Sync>(rt: &HostRuntime, starting: &R) -> Result<()> {
    let (agreed, kept) = rounds(starting, rt.alloc())?;
    println!(rt; "two threads see one first value")?;
    println!(rt; "  {ROUNDS} rounds: {agreed} with one value, {kept} in which it stays")?;
    Ok(())
}

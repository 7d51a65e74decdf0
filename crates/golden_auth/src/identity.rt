//! Prints what cells of identities answer: one cell step by step, a cell that callers and threads
//! share, the numbers of a lazy cache and its builder, and a cache by scheme over a clock.

mod builders;
mod caches;
mod cells;
mod clients;
mod resolvers;
mod shared;
mod sleeper;
mod terms;
mod threads;
mod timeouts;

use anyhow::Result;
use std::io::Print;
use std::sync::Wait;
use std::thread::Threads;

pub fn print<R: Print + Threads + Wait + Sync>(rt: HostRuntime, threads: &R) -> Result<()> {
    cells::print(&rt)?;
    shared::print(threads, rt.alloc())?;
    threads::print(threads, rt.alloc())?;
    terms::print(&rt)?;
    timeouts::print(&rt)?;
    builders::print(&rt)?;
    caches::print(&rt)?;
    resolvers::print(&rt)
}

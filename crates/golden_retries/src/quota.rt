//! Prints worked steps of quotas, to be compared with a print that was made without them.

mod cell;
mod locked;
mod rates;
mod registry;

use anyhow::Result;
use std::sync::Wait;
use std::thread::Threads;

pub fn print<R: Threads + Wait + Sync>(rt: HostRuntime, threads: &R) -> Result<()> {
    registry::print(rt, threads)?;
    cell::print(rt, threads)?;
    locked::print(rt, threads)?;
    rates::print(rt)
}

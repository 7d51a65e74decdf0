//! Prints worked steps of buckets, what a registry does by number and by partition, and what tables
//! by partition keep, on two threads too.
//!
//! A bucket's sums stand as its capacity and what was granted, is available, is held and is
//! forgotten.

mod buckets;
mod limiters;
mod lines;
mod names;
mod openings;
mod partitions;
pub mod registers;
mod tables;
mod threads;

use anyhow::Result;
use std::sync::Wait;
use std::thread::Threads;

pub fn print<R: Threads + Wait + Sync>(rt: HostRuntime, starting: &R) -> Result<()> {
    openings::print(&rt)?;
    buckets::print(&rt)?;
    registers::print(&rt)?;
    limiters::print(&rt)?;
    names::print(&rt)?;
    partitions::print(&rt)?;
    tables::print(&rt)?;
    tables::print_shared(&rt, starting)?;
    threads::print(&rt, starting)
}

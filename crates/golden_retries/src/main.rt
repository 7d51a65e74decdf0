//! Prints what retries cost and how they wait, to be compared with a print that was made without
//! them: buckets and limiters, what strategies decide, and fleets of waiters.
//!
//! With a number as its word it lets so many waiters wait that are paid for, and prints how many
//! events that makes, so that the instructions of an event can be counted.
#![tactic(auto)]

mod fleets;
mod policy;
mod quota;
mod texts;

use anyhow::{Context, Result};
use std::env;
use std::sync::Wait;
use std::thread::Threads;

fn main(rt: HostRuntime) -> Result<()> {
    let mut words = env::args(&rt)?.skip(1);
    match words.next() {
        Some(count) => {
            fleets::print_many(rt, count.parse().context("reading the number of waiters")?)
        }
        None => print_all(rt, &rt),
    }
}

fn print_all<R: Threads + Wait + Sync>(rt: HostRuntime, threads: &R) -> Result<()> {
    quota::print(rt, threads)?;
    policy::print(rt)?;
    fleets::print(rt)?;
    texts::print(&rt)
}

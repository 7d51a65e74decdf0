//! Prints what retry classifiers say, how long retries wait, what a strategy decides and leaves in
//! its bucket, what the two interceptors of retries set, and what chains of interceptors answer.

mod backoffs;
mod chains;
mod classifiers;
mod connections;
mod decisions;
mod not_served;
mod pauses;
mod permits;
mod seen;
mod strategy;

use anyhow::Result;

pub fn print(rt: HostRuntime) -> Result<()> {
    strategy::print_never(&rt)?;
    backoffs::print(&rt)?;
    decisions::print(&rt)?;
    permits::print(&rt)?;
    classifiers::print(&rt)?;
    pauses::print(&rt)?;
    connections::print(&rt)?;
    chains::print(&rt)
}

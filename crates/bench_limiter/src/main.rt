//! Asks a limiter that a throttle has enabled, so that its instructions can be counted.
//!
//! The words are the call, `acquire`, `update` or `none`, and how often it is made. Calls are ten
//! milliseconds apart, so that a window of half a second ends at every fiftieth.
#![tactic(auto)]

use anyhow::{Context, Result, bail};
use rate_limit::{ClientRateLimiter, RequestReason};
use std::env;

/// Ten milliseconds, in nanoseconds.
const APART: u64 = 10_000_000;

fn main(rt: HostRuntime) -> Result<()> {
    let mut words = env::args(&rt)?.skip(1);
    let call = words.next().context("the call is missing")?;
    let count = words.next().context("the number of calls is missing")?;
    let count: u32 = count.parse().context("reading the number of calls")?;
    let mut limiter = ClientRateLimiter::new(0);
    limiter.update(0, true);
    let refused = match call.as_str() {
        "acquire" => acquire(&mut limiter, count),
        "update" => update(&mut limiter, count),
        "none" => 0,
        _ => bail!("the call is acquire, update or none"),
    };
    println!(rt; "{count} calls, {refused} refused")?;
    Ok(())
}

// Asks for so many requests, and counts the refusals.
fn acquire(limiter: &mut ClientRateLimiter, count: u32) -> u32 {
    let mut refused: u32 = 0;
    for call in 0..count {
        let now = (call as u64).saturating_mul(APART);
        if limiter.acquire(now, RequestReason::InitialRequest).is_err() {
            refused = refused.saturating_add(1);
        }
    }
    refused
}

// Tells of so many responses, of which every eighth was throttled.
fn update(limiter: &mut ClientRateLimiter, count: u32) -> u32 {
    for call in 0..count {
        let now = (call as u64).saturating_mul(APART);
        limiter.update(now, call % 8 == 7);
    }
    0
}

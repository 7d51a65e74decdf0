//! Runs an operation whose service is unavailable so many times, to measure what a call costs.
//!
//! The words are the number of delays and the fuel. With fuel 0 the script is made and nothing is
//! asked, so the difference of two runs is what the calls cost.

ghost use Rattle.std.specs.Prelude.{◌≡◌, [], IfOk};

mod script;
mod spelled;

use anyhow::{Context, Result};
use orchestrate::{ScriptWorld, invoke};
use script::{ANSWERED, CONFIGURED, DECIDED, DELAYED, GRANTED, Line, OPENED, UNAVAILABLE, world};
use smithy_types::OutOfMemory;
use spelled::payload;
use std::alloc::Global;
use std::env;

pub fn print(rt: HostRuntime) -> Result<()> {
    let (delays, fuel) = words(&rt)?;
    let mut world = delaying(rt.alloc(), delays)?;
    let input = payload(rt.alloc(), 1, "what are you?")?;
    let answer = invoke(rt.alloc(), "service", "operation", &mut world, input, fuel);
    let calls = world.entries().len();
    let end = ended(answer);
    println!(rt; "{calls} {end}")?;
    Ok(())
}

// How the run ended.
fn ended<O: Drop, E: Drop>(answer: Result<O, E>) -> &'static str {
    if answer.is_ok() { "output" } else { "none" }
}

// The number of delays and the fuel.
fn words(rt: &HostRuntime) -> Result<(u64, u64)> {
    let mut words = env::args(rt)?.skip(1);
    let delays = words.next().context("the number of delays is missing")?;
    let fuel = words.next().context("the fuel is missing")?;
    Ok((
        delays.parse().context("reading the number of delays")?,
        fuel.parse().context("reading the fuel")?,
    ))
}

/// A world whose service is unavailable so many times, each followed by a delay.
fn delaying(alloc: Global, delays: u64) -> Result<ScriptWorld, OutOfMemory>
    ensures { IfOk result (λ w. w.log ≡ []) }
{
    let mut parts: Vec<&[Line]> = Vec::new(alloc);
    parts.extend_from_slice(&[CONFIGURED, GRANTED])?;
    for _ in 0..delays {
        parts.extend_from_slice(&[OPENED, UNAVAILABLE, DELAYED])?;
    }
    parts.extend_from_slice(&[OPENED, ANSWERED, DECIDED])?;
    world(alloc, parts.as_slice())
}

//! Prints how fleets end whose callers can only get on beside each other, and the log of a client
//! that was built by other setters than those of scripts, to be compared with a print that was made
//! without them.
#![tactic(auto)]

mod built;
mod gate;
mod scripts;

use anyhow::{Result, bail};
use cli_fleet::answer_fleet;
use cli_shell::command::Answer;
use cli_shell::status::PrintStatus;
use gate::HoldingGate;
use scripts::{RETRY_AND_TWO_RUNS, TWO_CALLERS};
use std::sync::Wait;
use std::thread::Threads;

fn main(rt: HostRuntime) -> Result<()> {
    print_held(rt, &rt, "a call that waits for another caller", TWO_CALLERS)?;
    print_held(
        rt,
        &rt,
        "a call that waits for another caller's next run",
        RETRY_AND_TWO_RUNS,
    )?;
    built::print(rt)
}

// Runs these callers behind a gate that holds a call of each, and tells whether one had to be let
// go on, and what was printed.
fn print_held<R: Threads + Wait + Sync>(
    rt: HostRuntime,
    threads: &R,
    name: &str,
    script: &str,
) -> Result<()> {
    let gate = HoldingGate::new();
    match answer_fleet(threads, rt.alloc(), script.as_bytes(), &gate)? {
        Answer::Print(text, status) => {
            print_ended(rt, name, gate.was_given_up(), status)?;
            print_told(rt, text.as_slice())
        }
        Answer::Refusal(_) => bail!("the script is refused"),
    }
}

fn print_ended(rt: HostRuntime, name: &str, is_given_up: bool, status: PrintStatus) -> Result<()> {
    println!(rt; "{name}: status {}", status.status().number())?;
    println!(rt; "given up: {is_given_up}")?;
    Ok(())
}

// Prints each line that is no entry, and each decision.
fn print_told(rt: HostRuntime, bytes: &[u8]) -> Result<()> {
    for line in str::from_utf8(bytes)?.lines() {
        if line.starts_with("[\"") || line.contains("\"Decide\"") {
            println!(rt; "{line}")?;
        }
    }
    Ok(())
}

//! A script is played: its callers run in threads over one bucket, and are printed.
ghost use Rattle.std.specs.Prelude.{◌≡◌, ◌<◌, ◌≤◌, ◌+◌, IfOk, length, map, vec_len};
ghost use Rattle.cli_fleet.specs.Fleet.{IsFleetRun, work_of, works_from};
ghost use Rattle.cli_fleet.specs.Print.{callers_text, left_text};
ghost use Rattle.cli_fleet.specs.Playing.{AreReady};

use crate::caller::{CallerState, FleetCaller};
use crate::gate::Gate;
use crate::print::{print_callers, print_left};
use crate::work::CallerWork;
use cli_shell::status::PrintStatus;
use json_scripts::fleet::{CallerRecord, FleetScript};
use retry_quota::TokenBucket;
use retry_quota_cell::{CellBucket, run_callers};
use smithy_types::{List, OutOfMemory, Sums};
use std::alloc::Global;
use std::sync::Wait;
use std::thread::Threads;

// The words once more.
fn copied(alloc: Global, words: &[u64]) -> Result<List<u64>, OutOfMemory>
    ensures { IfOk result (λ list. list ≡ words.now) }
{
    let mut list = List::new();
    for word in words {
        list.push(alloc, *word)?;
    }
    Ok(list)
}

// What a caller of this number is to do.
fn work_of(
    alloc: Global,
    number: u32,
    caller: CallerRecord,
    start: u64,
    words: &[u64],
) -> Result<CallerWork, OutOfMemory>
    ensures { IfOk result (λ work. work ≡ work_of start words.now number caller) }
{
    let words = copied(alloc, words)?;
    Ok(CallerWork {
        number,
        client: caller.client,
        invocations: caller.invocations,
        start,
        words,
    })
}

// The callers of a script, none of which has begun.
fn callers_of<'g, G: Gate>(
    alloc: Global,
    gate: &'g G,
    start: u64,
    words: &[u64],
    records: List<CallerRecord>,
) -> Result<Vec<FleetCaller<'g, G>>, OutOfMemory>
    requires { length records ≤ 16 }
    ensures ready { IfOk result (λ callers.
        AreReady (works_from start words.now 0 records) (map (λ c. c.state) callers.items)) }
    ensures count { IfOk result (λ callers. vec_len callers ≡ length records) }
{
    let mut callers = Vec::new(alloc);
    let mut number: u32 = 0;
    for caller in records.into_vec(alloc) {
        let work = work_of(alloc, number, caller, start, words)?;
        callers.push(FleetCaller {
            alloc,
            gate,
            state: CallerState::Ready(work),
        })?;
        number += 1;
    }
    Ok(callers)
}

/// Runs each caller of the script in a thread of its own, over one bucket. Answers their print, and
/// what it comes to.
#[tactic(auto, using(crate::proofs::Crosses::state_send))]
pub fn play_fleet<R: Threads + Wait + Sync, G: Gate + Sync>(
    rt: &R,
    alloc: Global,
    script: FleetScript,
    gate: &G,
) -> Result<(Vec<u8>, PrintStatus), OutOfMemory>
    requires some { 0 < length script.callers }
    requires few { length script.callers ≤ 16 }
    ensures { IfOk result (λ told. IsFleetRun script told.0.items told.1) }
{
    let FleetScript {
        bucket,
        start,
        words,
        callers,
    } = script;
    let callers = callers_of(alloc, gate, start, words.as_slice(), callers)?;
    let count = callers.len() as u32;
    let (bucket, pass) = CellBucket::new(rt, alloc, TokenBucket::with_terms(bucket), count)?;
    let (callers, sums, length) = run_callers(rt, &bucket, pass, callers);
    let mut text = Vec::new(alloc);
    let came = print_callers(alloc, callers, &mut text)?;
    print_left(alloc, sums, length, &mut text)?;
    Ok((text, came))
}

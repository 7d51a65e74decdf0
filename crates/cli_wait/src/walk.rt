//! The walk of a waiter over a script.
ghost use Rattle.std.specs.Prelude.{◌≡◌, ◌≤◌};
ghost use Rattle.cli_wait.specs.Walk.{WalksBy};

use crate::ending::Waited;
use crate::{ScriptedTimers, ask, state_of};
use std::alloc::Global;
use waiters::WaiterOrchestrator;

/// Runs a waiter of these delays, in nanoseconds, over the timers.
pub fn walked(
    alloc: Global,
    min: u64,
    max: u64,
    max_wait: u64,
    timers: &mut ScriptedTimers,
    fuel: u64,
) -> Waited
    requires a_second { 1000000000 ≤ min }
    requires in_order { min ≤ max }
    requires nothing_counted { timers.old.unready ≡ 0 }
    requires few { fuel ≤ 100000 }
    ensures { WalksBy min max max_wait timers.old fuel result timers.new }
{
    let built = WaiterOrchestrator::builder()
        .min_delay(min)
        .max_delay(max)
        .max_wait(max_wait)
        .time_source()
        .sleep_impl()
        .acceptor(state_of)
        .operation(ask)
        .build();
    match built {
        Ok(waiter) => waiter.orchestrate(alloc, timers, fuel),
        Err(_) => unreachable!(),
    }
}

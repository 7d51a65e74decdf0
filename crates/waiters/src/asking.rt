//! Asking until there is an answer or the fuel is spent.
ghost use Rattle.std.specs.Prelude.{◌≡◌, ◌≢◌, ◌≤◌, ℕ, Ok, true, false, OnErr};
ghost use Rattle.waiters.specs.Calls.{KeepsTimers};
ghost use Rattle.waiters.specs.Steps.{Spends, TimersSpend, ask_calls, pause_calls, error_of};
ghost use Rattle.waiters.specs.Steps.{sleep_calls};

use crate::{WaiterError, WaiterTimers};
use smithy_types::{OutOfMemory, SdkError};
use std::alloc::Global;

/// Why a walk stops before its end.
#[derive(Drop)]
pub(crate) enum Stop {
    /// The fuel is spent.
    Unfinished,
    /// An allocation was refused.
    OutOfMemory(OutOfMemory),
}

impl Stop {
    /// The error of a walk that stops so.
    pub fn into_error<O, E>(self) -> WaiterError<O, E>
        ensures { result ≡ error_of self }
    {
        match self {
            Stop::Unfinished => WaiterError::Unfinished,
            Stop::OutOfMemory(_) => WaiterError::OutOfMemory,
        }
    }
}

/// Asks the operation until it answers.
pub(crate) fn answered<G, T: WaiterTimers, O, E>(
    operation: &G,
    timers: &mut T,
    number: u32,
    fuel: &mut u64,
) -> Result<Result<O, SdkError<E>>, Stop>
where
    G: Fn(&mut T, u32) -> Result<Option<Result<O, SdkError<E>>>, OutOfMemory>,
    requires callable { G.IsAlwaysCallable operation.now }
    requires keeps { KeepsTimers T.makes (G.post operation.now) }
    requires counted { 1 ≤ number }
    ensures calls { (times : ℕ) × Spends T.makes (G.post operation.now) timers.old fuel.old
        (ask_calls number times result) timers.new fuel.new }
    ensures all_spent { result ≡ Err Stop.Unfinished → fuel.new ≡ 0 }
{
    loop {
        if *fuel == 0 {
            return Err(Stop::Unfinished);
        }
        match operation(timers, number) {
            Err(refused) => return Err(Stop::OutOfMemory(refused)),
            Ok(answer) => {
                *fuel -= 1;
                match answer {
                    Some(polled) => return Ok(polled),
                    None => timers.park(),
                }
            }
        }
    }
}

/// Asks a sleep until it is over, and answers whether it is.
fn slept<T: WaiterTimers>(timers: &mut T, sleep: u64, fuel: &mut u64) -> bool
    ensures calls { (times : ℕ) × TimersSpend T.makes timers.old fuel.old
        (sleep_calls sleep times result) timers.new fuel.new }
    ensures all_spent { result ≡ false → fuel.new ≡ 0 }
{
    while *fuel > 0 {
        *fuel -= 1;
        if timers.ready(sleep) {
            return true;
        }
        timers.park();
    }
    false
}

/// Sleeps this delay, unless it is 0.
pub(crate) fn paused<T: WaiterTimers>(
    alloc: Global,
    timers: &mut T,
    delay: u64,
    fuel: &mut u64,
) -> Result<(), Stop>
    requires { T.sleeps timers.old ≡ true }
    ensures calls { (sleep times : ℕ)
        × TimersSpend T.makes timers.old fuel.old (pause_calls delay sleep times result) timers.new
        fuel.new }
    ensures all_spent { result ≡ Err Stop.Unfinished → fuel.new ≡ 0 }
    ensures some_delay { OnErr result (delay ≢ 0) }
{
    if delay == 0 {
        return Ok(());
    }
    match timers.start(alloc, delay) {
        Err(refused) => Err(Stop::OutOfMemory(refused)),
        Ok(sleep) => {
            if slept(timers, sleep.unwrap(), fuel) {
                Ok(())
            } else {
                Err(Stop::Unfinished)
            }
        }
    }
}

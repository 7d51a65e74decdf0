//! The walk of a waiter over its polls.
ghost use Rattle.std.specs.Prelude.{◌≡◌, ◌+◌, ◌<◌, ◌≤◌, ◌^◌, List, true, MatchOption};
ghost use Rattle.waiters.specs.Calls.{KeepsTimers};
ghost use Rattle.waiters.specs.Steps.{GoesOn, StandsAfter, Stops};
ghost use Rattle.waiters.specs.Walk.{Turn};
ghost use Rattle.waiters.specs.WalkCalls.{Waits};

use crate::asking::{answered, paused};
use crate::progress::Progress;
use crate::verdict::{end_of, state_of};
use crate::{Backoff, FinalPoll, WaiterError, WaiterTimers};
use smithy_types::{AcceptorState, OutOfMemory, SdkError};
use std::alloc::Global;

/// Polls an operation until an acceptor says that the resource is in the desired state.
#[derive(Drop)]
pub struct WaiterOrchestrator<F, G> {
    /// The numbers that its delays follow.
    pub backoff: Backoff,
    /// Says what an output, or an error of the operation's model, means.
    pub acceptor: F,
    /// Is polled with the timers and the number of the poll, from 1 on. It answers none while it
    /// has no answer yet.
    pub operation: G,
}

impl<F, G> WaiterOrchestrator<F, G> {
    /// Polls the operation until one poll ends the walk.
    ///
    /// The timers must have sleeps, and their count of sleeps that weren't over room for `fuel`
    /// more. One unit of fuel is a poll that was answered or is pending, or a sleep that was
    /// asked. Each ask that wasn't answered is followed by `park`.
    pub fn orchestrate<T: WaiterTimers, O: Drop, E: Drop>(
        self,
        alloc: Global,
        timers: &mut T,
        fuel: u64,
    ) -> Result<FinalPoll<O, E>, WaiterError<O, E>>
    where
        F: Fn(Result<&O, &E>) -> AcceptorState,
        G: Fn(&mut T, u32) -> Result<Option<Result<O, SdkError<E>>>, OutOfMemory>,
        requires acceptor { F.IsAlwaysCallable self.acceptor }
        requires operation { G.IsAlwaysCallable self.operation }
        requires keeps { KeepsTimers T.makes (G.post self.operation) }
        requires has_sleep { T.sleeps timers.old ≡ true }
        requires has_room { T.unready timers.old + fuel < 2 ^ 64 }
        ensures waits { Waits self.backoff (F.post self.acceptor) T.makes T.unready
            (G.post self.operation) timers.old fuel result timers.new }
    {
        let mut progress = Progress {
            start: timers.now(),
            number: 1,
            zero_used: false,
            fuel,
        };
        loop {
            if let Some(ending) = self.turn(alloc, timers, &mut progress) {
                return ending;
            }
        }
    }

    /// Makes one poll and the delay after it. Answers how the walk ended, if it did.
    fn turn<T: WaiterTimers, O: Drop, E: Drop>(
        &self,
        alloc: Global,
        timers: &mut T,
        progress: &mut Progress,
    ) -> Option<Result<FinalPoll<O, E>, WaiterError<O, E>>>
    where
        F: Fn(Result<&O, &E>) -> AcceptorState,
        G: Fn(&mut T, u32) -> Result<Option<Result<O, SdkError<E>>>, OutOfMemory>,
        requires acceptor { F.IsAlwaysCallable self.now.acceptor }
        requires operation { G.IsAlwaysCallable self.now.operation }
        requires keeps { KeepsTimers T.makes (G.post self.now.operation) }
        requires has_sleep { T.sleeps timers.old ≡ true }
        ensures { (before : List (Turn O E)) → StandsAfter before progress.old → MatchOption result
            (GoesOn self.now.backoff (F.post self.now.acceptor) T.makes (G.post self.now.operation)
            before timers.old progress.old timers.new progress.new)
            (Stops self.now.backoff (F.post self.now.acceptor) T.makes (G.post self.now.operation)
            before timers.old progress.old timers.new progress.new) }
    {
        let polled = match answered(&self.operation, timers, progress.number, &mut progress.fuel) {
            Ok(polled) => polled,
            Err(stop) => return Some(Err(stop.into_error())),
        };
        let elapsed = timers.now().saturating_sub(progress.start);
        let state = state_of(&self.acceptor, &polled);
        if let Some(ending) = end_of(polled, state) {
            return Some(ending);
        }
        if progress.zero_used || elapsed > self.backoff.max_wait {
            return Some(Err(WaiterError::ExceededMaxWait {
                max_wait: self.backoff.max_wait,
                elapsed,
                poll_count: progress.number,
            }));
        }
        let word = timers.word();
        let delay = self.backoff.delay(progress.number, elapsed, word);
        if let Err(stop) = paused(alloc, timers, delay, &mut progress.fuel) {
            return Some(Err(stop.into_error()));
        }
        progress.zero_used = delay == 0;
        progress.number = progress.number.saturating_add(1);
        None
    }
}

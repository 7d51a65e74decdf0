//! A clock and sleeps, as their owner hands them to the crates above.
ghost use Rattle.std.specs.Prelude.{◌≡◌, IfOk, IfSome, IsSome, IsTrue, ◌↔◌};

use crate::OutOfMemory;
use std::alloc::Global;

/// A call of timers, with what it was handed and what it answered. Times are in nanoseconds.
#[derive(Clone, Copy, Debug, PartialEq, Eq)]
pub enum TimersCall {
    /// `now` answered this moment.
    Now {
        moment: u64,
    },
    /// `start` was handed a length and answered the sleep's number, none without sleeps.
    Start {
        nanos: u64,
        sleep: Result<Option<u64>, OutOfMemory>,
    },
    /// `ready` was asked whether this sleep is over.
    Ready {
        sleep: u64,
        is_over: bool,
    },
    /// `give_up` was handed this sleep.
    GiveUp {
        sleep: u64,
    },
}

/// A clock, and sleeps that are started and asked. Nothing here waits.
pub trait Timers {
    ghost use Rattle.std.specs.Prelude.{ℕ, Bool, Ok, Option};
    ghost use Rattle.smithy_types.specs.declared.timers.TimersCall.{TimersCall};

    /// The present moment, where the timers tell it.
    ghost moment: { Self → Option ℕ };

    /// Whether there are sleeps. It never changes.
    ghost sleeps: { Self → Bool };

    /// What a call may make of the timers: the state before it, the call with its answer, and the
    /// state after it.
    ghost relates: { Self → TimersCall → Self → Type 0 };

    /// Whether sleeps can be started.
    fn has_sleep(&self) -> bool
        ensures { result ≡ sleeps self.now };

    /// The present moment, in nanoseconds since a time of the owner's choice.
    fn now(&mut self) -> u64
        ensures told { IfSome (moment self.old) (λ m. result ≡ m) }
        ensures same_sleeps { sleeps self.new ≡ sleeps self.old }
        ensures related { relates self.old (TimersCall.Now result) self.new };

    /// Starts a sleep of so many nanoseconds and answers its number, none where there are no
    /// sleeps.
    fn start(&mut self, alloc: Global, nanos: u64) -> Result<Option<u64>, OutOfMemory>
        ensures started { IfOk result (λ sleep. IsSome sleep ↔ IsTrue (sleeps self.old)) }
        ensures same_sleeps { sleeps self.new ≡ sleeps self.old }
        ensures related { relates self.old (TimersCall.Start nanos result) self.new };

    /// Whether this sleep is over.
    fn ready(&mut self, sleep: u64) -> bool
        ensures same_sleeps { sleeps self.new ≡ sleeps self.old }
        ensures related { relates self.old (TimersCall.Ready sleep result) self.new };

    /// This sleep isn't asked again.
    fn give_up(&mut self, sleep: u64)
        ensures same_sleeps { sleeps self.new ≡ sleeps self.old }
        ensures related { relates self.old (TimersCall.GiveUp sleep) self.new };

    /// No call changes whether there are sleeps.
    ghost keeps_sleeps: { (old : Self) (call : TimersCall) (new : Self) → relates old call new →
        sleeps new ≡ sleeps old };

    /// What a start answers is a sleep exactly where there are sleeps.
    ghost starts_where_sleeps: { (old : Self) (nanos : ℕ) (sleep : Option ℕ) (new : Self) →
        relates old (TimersCall.Start nanos (Ok sleep)) new → IsSome sleep ↔ IsTrue (sleeps old) };
}

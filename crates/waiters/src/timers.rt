//! What a waiter is handed to wait with.
ghost use Rattle.std.specs.Prelude.{◌≡◌};

use smithy_types::{Timers, TimersCall};

/// What a poll of the operation came to.
#[derive(Clone, Copy)]
pub enum PollAnswer {
    /// It answered an output or an error.
    Answered,
    /// It has no answer yet.
    Pending,
    /// It found no memory.
    OutOfMemory,
}

/// A call of a waiter's timers, with what it was handed and what it answered. A poll of the
/// operation counts as one.
#[derive(Clone, Copy)]
pub enum WaiterCall {
    /// The clock or a sleep was asked.
    Timers(TimersCall),
    /// `word` answered these bits.
    Word(u64),
    /// `park` was called.
    Park,
    /// The operation was polled.
    Poll {
        /// The number of the poll, from 1 on.
        number: u32,
        /// What the operation answered.
        answer: PollAnswer,
    },
}

/// Timers that also draw random words and wait.
pub trait WaiterTimers: Timers {
    ghost use Rattle.std.specs.Prelude.{ℕ};
    ghost use Rattle.smithy_types.specs.declared.timers.TimersCall.{TimersCall};
    ghost use Rattle.waiters.specs.declared.timers.WaiterCall.{WaiterCall};
    ghost use Rattle.waiters.specs.Count.{Counts};

    /// What a call may make of the timers: the state before it, the call with its answer, and the
    /// state after it.
    ghost makes: { Self → WaiterCall → Self → Type 0 };

    /// How many `ready` calls have answered no. It never falls, and stands still at the greatest
    /// u64.
    ghost unready: { Self → ℕ };

    /// 64 random bits.
    fn word(&mut self) -> u64
        ensures { makes self.old (WaiterCall.Word result) self.new };

    /// Waits until there may be something new.
    fn park(&mut self)
        ensures { makes self.old WaiterCall.Park self.new };

    /// The calls of the clock and the sleeps are among these calls.
    ghost timers_make: { (old : Self) (call : TimersCall) (new : Self) → Self.relates old call new →
        makes old (WaiterCall.Timers call) new };

    /// Whether there are sleeps never changes.
    ghost sleeps_stay: { (old : Self) (call : WaiterCall) (new : Self) → makes old call new →
        Self.sleeps new ≡ Self.sleeps old };

    /// The `ready` calls that answered no are counted, and nothing else. A poll of the operation
    /// leaves the count as it was.
    ghost counts: { (old : Self) (call : WaiterCall) (new : Self) → makes old call new →
        Counts (unready old) call (unready new) };
}

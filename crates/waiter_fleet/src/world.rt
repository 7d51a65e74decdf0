//! What a fleet is handed to poll and to wait with.
ghost use Rattle.std.specs.Prelude.{◌≡◌, false};

use crate::event::Seen;
use smithy_types::{AcceptorState, OutOfMemory};
use std::alloc::Global;
use waiters::WaiterTimers;

/// Timers whose operations are polled by the number of their waiter.
pub trait FleetWorld: WaiterTimers {
    ghost use Rattle.std.specs.Prelude.{ℕ};
    ghost use Rattle.waiter_fleet.specs.Calls.{Counts, FleetCall, is_poll, polled, waiter_call};

    /// What a call may make of the world: the state before it, the call with its answer, and the
    /// state after it.
    ghost does: { Self → FleetCall → Self → Type 0 };

    /// How many polls had no answer yet, and how many `ready` calls answered no. It never falls,
    /// and stands still at the greatest u64.
    ghost waits: { Self → ℕ };

    /// Polls the operation of this waiter, and answers what it came to and what the acceptor says
    /// of it, none while it has no answer yet.
    fn poll(
        &mut self,
        alloc: Global,
        waiter: u32,
    ) -> Result<Option<(Seen, AcceptorState)>, OutOfMemory>
        ensures { does self.old (polled waiter result) self.new };

    /// The calls of the timers are among these calls.
    ghost made: { (old : Self) (call : FleetCall) (new : Self) → is_poll call ≡ false →
        Self.makes old (waiter_call call) new → does old call new };

    /// Each call is one of the timers: a poll counts there as one of the waiter's number.
    ghost makes_it: { (old : Self) (call : FleetCall) (new : Self) → does old call new →
        Self.makes old (waiter_call call) new };

    /// The polls that had no answer yet and the `ready` calls that answered no are counted, and
    /// nothing else.
    ghost counts_waits: { (old : Self) (call : FleetCall) (new : Self) → does old call new →
        Counts (waits old) call (waits new) };
}

//! The outside of a client.

use crate::answers::{IdentityPoll, Sent};
use smithy_context::Settings;
use smithy_types::{HttpRequest, OutOfMemory, Polled, Timers};
use std::alloc::Global;

/// What a client sends by, waits by and draws from. Each call answers at once: what isn't there yet
/// is pending, and is asked again after a `park`.
///
/// A call that is open is one that was begun, until its poll or its body fails, its body ends, it
/// is dropped, or the next one is begun.
pub trait Outside: Timers {
    ghost use Rattle.std.specs.Prelude.{◌≡◌, ℕ, ◌↔◌, IsSome, IsTrue, Ok, Option};
    ghost use Rattle.smithy_types.specs.declared.timers.TimersCall.{TimersCall};
    ghost use Rattle.outside.specs.Calls.{OutsideCall, OfTimers, Begin, Poll, Frame, DropCall};
    ghost use Rattle.outside.specs.Calls.{Resolve, DropResolve, Word, Poison, Park};
    ghost use Rattle.outside.specs.Faults.{Counts};

    /// What a call may make of the outside: the state before it, the call with its answer, and the
    /// state after it.
    ghost makes: { Self → OutsideCall → Self → Type 0 };

    /// How many failures were handed out. The count never falls, and stands still at the greatest
    /// u64.
    ghost faults: { Self → ℕ };

    /// Begins to send the request. A call that was open is so no longer.
    fn begin(
        &mut self,
        alloc: Global,
        request: &HttpRequest,
        settings: &Settings,
    ) -> Result<(), OutOfMemory>
        ensures { makes self.old (Begin request.now settings.now result) self.new };

    /// What became of the request that was begun.
    fn poll(&mut self, alloc: Global) -> Result<Sent, OutOfMemory>
        ensures { makes self.old (Poll result) self.new };

    /// The next frame of the open response's body.
    fn frame(&mut self, alloc: Global) -> Result<Polled, OutOfMemory>
        ensures { makes self.old (Frame result) self.new };

    /// Gives the open call up.
    fn drop_call(&mut self)
        ensures { makes self.old DropCall self.new };

    /// Loads the identity of an auth scheme. The first ask opens the load.
    fn resolve(&mut self, alloc: Global, id: &str) -> Result<IdentityPoll, OutOfMemory>
        ensures { makes self.old (Resolve id.now result) self.new };

    /// Gives the open load up.
    fn drop_resolve(&mut self)
        ensures { makes self.old DropResolve self.new };

    /// 64 random bits.
    fn word(&mut self) -> u64
        ensures { makes self.old (Word result) self.new };

    /// The connection of the attempt of this number isn't used again.
    fn poison(&mut self, number: u64)
        ensures { makes self.old (Poison number) self.new };

    /// Waits until there may be something new.
    fn park(&mut self)
        ensures { makes self.old Park self.new };

    /// The calls of the clock and the sleeps are among these calls.
    ghost timers_make: { (old : Self) (call : TimersCall) (new : Self) → Self.relates old call new →
        makes old (OfTimers call) new };

    /// Whether there are sleeps never changes.
    ghost sleeps_stay: { (old : Self) (call : OutsideCall) (new : Self) → makes old call new →
        Self.sleeps new ≡ Self.sleeps old };

    /// What a start answers is a sleep exactly where there are sleeps.
    ghost sleep_is_started: { (old : Self) (nanos : ℕ) (sleep : Option ℕ) (new : Self) →
        makes old (OfTimers (TimersCall.Start nanos (Ok sleep))) new →
        IsSome sleep ↔ IsTrue (Self.sleeps old) };

    /// Each failure that is handed out is counted.
    ghost counts: { (old : Self) (call : OutsideCall) (new : Self) → makes old call new →
        Counts (faults old) call (faults new) };
}

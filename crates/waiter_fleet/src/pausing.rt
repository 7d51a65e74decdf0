//! The delay behind a poll.
ghost use Rattle.std.specs.Prelude.{◌≡◌, ◌≤◌, ◌==◌, ℕ, true, [], ◌∷◌, List, Ok, Some, None};
ghost use Rattle.std.specs.Prelude.{MatchResult, IfOk, if◌then◌else◌};
ghost use Rattle.smithy_types.specs.Chain.{Chained};
ghost use Rattle.smithy_types.specs.declared.timers.TimersCall.TheVariants.{Start};
ghost use Rattle.waiters.specs.Delay.{IsDelay};
ghost use Rattle.waiter_fleet.specs.Calls.{FleetCall, drew, timed};

use crate::world::FleetWorld;
use smithy_types::OutOfMemory;
use std::alloc::Global;
use waiters::Backoff;

/// The delay behind a poll.
#[derive(Clone, Copy, Drop)]
pub(crate) struct Pause {
    /// The random bits that it was drawn by.
    pub word: u64,
    /// How long it is.
    pub nanos: u64,
    /// Its sleep, if it isn't 0.
    pub sleep: Option<u64>,
}

/// Starts a sleep of so many nanoseconds, none where there are none.
fn started<W: FleetWorld>(
    alloc: Global,
    nanos: u64,
    world: &mut W,
) -> Result<Option<u64>, OutOfMemory>
    requires { W.sleeps world.old ≡ true }
    ensures calls { MatchResult result
        (λ sleep. (number : ℕ) × (sleep ≡ (if nanos == 0 then None else Some number))
        × Chained W.does world.old (if nanos == 0 then [] else timed
        (Start nanos (Ok (Some number))) ∷ []) world.new)
        (λ _. (calls : List FleetCall) × Chained W.does world.old calls world.new) }
    ensures sleeps { W.sleeps world.new ≡ W.sleeps world.old }
{
    if nanos == 0 {
        return Ok(None);
    }
    let sleep = world.start(alloc, nanos)?.unwrap();
    Ok(Some(sleep))
}

/// Draws the delay behind the poll of this number, so long after the start, and starts its sleep.
pub(crate) fn paused<W: FleetWorld>(
    alloc: Global,
    backoff: &Backoff,
    number: u32,
    elapsed: u64,
    world: &mut W,
) -> Result<Pause, OutOfMemory>
    requires counted { 1 ≤ number }
    requires has_sleep { W.sleeps world.old ≡ true }
    ensures delay { IfOk result (λ p. IsDelay backoff.now.min_delay backoff.now.max_delay
        backoff.now.max_wait number elapsed p.word p.nanos) }
    ensures calls { MatchResult result
        (λ p. (number : ℕ) × (p.sleep ≡ (if p.nanos == 0 then None else Some number))
        × Chained W.does world.old (drew p.word
        ∷ (if p.nanos == 0 then [] else timed (Start p.nanos (Ok (Some number))) ∷ []))
        world.new)
        (λ _. (calls : List FleetCall) × Chained W.does world.old calls world.new) }
    ensures sleeps { W.sleeps world.new ≡ W.sleeps world.old }
{
    let word = world.word();
    let nanos = backoff.delay(number, elapsed, word);
    let sleep = started(alloc, nanos, world)?;
    Ok(Pause { word, nanos, sleep })
}

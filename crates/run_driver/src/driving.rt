//! A run that is driven from one wait to the next.
ghost use Rattle.std.specs.Prelude.{◌≡◌, ◌≤◌, ◌⊎◌, true, false, IfOk, OnErr, OnOk};
ghost use Rattle.orchestrate.specs.Handing.{HandedOn};
ghost use Rattle.run_driver.specs.Driving.{Advances, IsDone, IsInterrupted, RunsThrough, Stretches};

use orchestrate::{Invocation, Step, World};
use smithy_types::OutOfMemory;
use std::alloc::Global;

/// A world in which a run may have to wait for what comes from outside.
pub trait Parking: World {
    ghost use Rattle.std.specs.Prelude.{◌≡◌, Bool};

    /// Whether a run has to wait.
    ghost parks: { Self → Bool };

    /// Whether a run has to wait.
    fn is_parked(&self) -> bool
        ensures { result ≡ parks self.now };
}

/// How far a run was driven.
#[derive(Clone, Copy, Debug, PartialEq, Eq)]
pub struct Driven {
    /// How many calls it made.
    pub calls: u64,
    /// Whether it is over: it is whole, or made all calls that it was allowed. Otherwise it waits.
    pub is_over: bool,
}

/// Drives a run on by at most `fuel` calls, until it has to wait or is whole.
#[tactic(auto, using(crate::proofs::DrivingLemmas::stretched_awake, crate::proofs::DrivingLemmas::ran_awake))]
pub fn drive_on<W: Parking>(
    alloc: Global,
    world: &mut W,
    invocation: &mut Invocation,
    fuel: u64,
) -> Result<Driven, OutOfMemory>
    ensures bound { IfOk result (λ driven. driven.calls ≤ fuel) }
    ensures advances { IfOk result (λ driven. Advances invocation.old invocation.new
        (W.calls world.old) (W.calls world.new) driven.calls) }
    ensures related { IfOk result (λ driven. HandedOn W.relates world.old world.new
        (W.calls world.old) (W.calls world.new)) }
    ensures stretches { OnOk result (Stretches W.calls W.relates W.parks world.old world.new) }
    ensures through { IfOk result (λ driven. driven.is_over ≡ true →
        RunsThrough W.calls W.relates W.parks world.old world.new) }
    ensures waits { IfOk result (λ driven. driven.is_over ≡ false → W.parks world.new ≡ true) }
    ensures over { IfOk result (λ driven. driven.is_over ≡ true →
        (driven.calls ≡ fuel) ⊎ IsDone invocation.new) }
    ensures lost { OnErr result (IsInterrupted invocation.old
        (W.calls world.old) (W.calls world.new) fuel) }
{
    for calls in 0..fuel {
        match invocation.drive(alloc, world)? {
            Step::Ended => {
                return Ok(Driven {
                    calls,
                    is_over: true,
                });
            }
            Step::Asked => {}
        }
        if world.is_parked() {
            return Ok(Driven {
                calls: calls + 1,
                is_over: false,
            });
        }
    }
    Ok(Driven {
        calls: fuel,
        is_over: true,
    })
}

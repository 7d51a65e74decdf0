//! A caller in a thread of its own.
ghost use Rattle.std.specs.Prelude.{◌≡◌};
ghost use Rattle.retry_quota_cell.specs.Callers.{HasMade, IsUnused, own};
ghost use Rattle.retry_quota_cell.specs.Known.{IsOf};
ghost use Rattle.cli_fleet.specs.Working.{TellsOf};

use crate::gate::Gate;
use crate::work::{CallerWork, Told, do_work};
use retry_quota_cell::{At, Caller, CellBucket, Pass};
use smithy_types::OutOfMemory;
use std::alloc::Global;
use std::marker::Brand;
use std::snapshot::Snapshot;
use std::sync::Wait;

/// Where a caller is.
#[derive(Drop)]
pub enum CallerState {
    /// It hasn't begun.
    Ready(CallerWork),
    /// It has ended: what is told of it, and its pass as it was given back.
    Ended(Result<Told, OutOfMemory>, Snapshot<Pass>),
}

/// A caller, whose calls pass a gate.
#[derive(Drop)]
pub struct FleetCaller<'g, G: Gate> {
    /// Where its memory comes from.
    pub alloc: Global,
    /// What each of its calls passes.
    pub gate: &'g G,
    /// Where it is.
    pub state: CallerState,
}

impl<'g, G: Gate + Sync> Caller for FleetCaller<'g, G> {
    ghost use Rattle.cli_fleet.specs.Working.{EndsSo, steps_of};

    ghost made = { λ caller. steps_of caller.state };

    ghost ends = { λ place old new. EndsSo place old.state new.state };

    fn run<R: Wait>(self, rt: &R, bucket: &CellBucket, pass: Pass) -> (FleetCaller<'g, G>, Pass) {
        let FleetCaller { alloc, gate, state } = self;
        let (told, pass) = finish::<Brand, G, R>(rt, bucket, pass, alloc, gate, state);
        let state = CallerState::Ended(told, Snapshot::of(&pass));
        (FleetCaller { alloc, gate, state }, pass)
    }
}

// Does what a caller has still to do, and gives the pass back.
fn finish<'w, B: At, G: Gate, R: Wait>(
    rt: &'w R,
    bucket: &'w CellBucket,
    pass: Pass,
    alloc: Global,
    gate: &'w G,
    state: CallerState,
) -> (Result<Told, OutOfMemory>, Pass)
    requires place { bucket.now ≡ B.place }
    requires own { IsOf bucket.now pass }
    requires unused { IsUnused pass.view }
    ensures own { IsOf bucket.now result.1 }
    ensures made { HasMade (own result.1.view) result.1.view }
    ensures told { TellsOf bucket.now state result.0 (own result.1.view) }
{
    match state {
        CallerState::Ready(work) => do_work::<B, G, R>(rt, bucket, pass, alloc, gate, work),
        CallerState::Ended(told, _) => (told, pass),
    }
}

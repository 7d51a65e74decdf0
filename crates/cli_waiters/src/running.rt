//! Waiters over a script under a bucket.
ghost use Rattle.std.specs.Prelude.{◌≡◌, ◌≤◌, length, IfOk};
ghost use Rattle.waiter_fleet.specs.Plans.{AllGood};
ghost use Rattle.waiter_fleet.specs.Waiting.{WaitsAll};
ghost use Rattle.cli_waiters.specs.Fleet.Makes.{Does};
ghost use Rattle.cli_waiters.specs.Waiters.{waits_of};

use crate::fleet::ScriptedFleet;
use retry_quota::TokenBucket;
use smithy_types::{List, OutOfMemory};
use std::alloc::Global;
use waiter_fleet::{FleetError, FleetEvent, Plan, wait_all};

/// Lets waiters of these plans wait over a script, and answers what happened.
pub fn waited(
    alloc: Global,
    plans: &[Plan],
    bucket: &mut TokenBucket,
    world: &mut ScriptedFleet,
    fuel: u64,
) -> Result<List<FleetEvent>, OutOfMemory>
    requires good { AllGood plans.now }
    requires few_waiters { length plans.now ≤ 64 }
    requires nothing_counted { world.old.waits ≡ 0 }
    requires little_fuel { fuel ≤ 100000 }
    ensures { IfOk result (λ events. WaitsAll Does waits_of
        (record { plans = plans.now; book = bucket.old; world = world.old; fuel = fuel }) events
        bucket.new world.new) }
{
    match wait_all(alloc, plans, bucket, world, fuel) {
        Ok(events) => Ok(events),
        Err(FleetError::OutOfMemory) => Err(OutOfMemory),
        Err(FleetError::BadPlan { .. }) => unreachable!(),
    }
}

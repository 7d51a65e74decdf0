//! Many waiters under one bucket.
ghost use Rattle.std.specs.Prelude.{◌≡◌, ◌↔◌, ◌+◌, ◌<◌, ◌^◌, ℕ, true, length, Err, IfOk};
ghost use Rattle.std.specs.Prelude.{MatchResult};
ghost use Rattle.waiter_fleet.specs.Plans.{AllGood, IsFirstBad};
ghost use Rattle.waiter_fleet.specs.Steps.{Halts, Origin};
ghost use Rattle.waiter_fleet.specs.Waiting.{WaitsAll};

use crate::error::FleetError;
use crate::event::FleetEvent;
use crate::plan::Plan;
use crate::running::ran;
use crate::seats::{first_bad, leave};
use crate::world::FleetWorld;
use retry_quota::TokenBucket;
use smithy_types::{List, OutOfMemory};
use std::alloc::Global;

/// Lets the waiters of these plans wait, and answers what happened, in its order.
///
/// A turn is that of the waiter that is due first among those that haven't ended, ties by number.
/// A waiter's first poll is free. Each later one costs what the bucket takes for a retry after a
/// server's error, which is acquired and given up at once; where the bucket refuses it, the waiter
/// ends with `NoQuota`. One unit of fuel is a poll that was answered or is pending, or a sleep that
/// was asked. Where the fuel is spent, every waiter that hasn't ended ends with `Unfinished`.
///
/// The world must have sleeps, and its count of waits room for `fuel` more. A bad plan is refused
/// before the world or the bucket is asked. Where an allocation is refused, the bucket has the
/// steps made so far.
pub fn wait_all<W: FleetWorld>(
    alloc: Global,
    plans: &[Plan],
    bucket: &mut TokenBucket,
    world: &mut W,
    fuel: u64,
) -> Result<List<FleetEvent>, FleetError>
    requires numbered { length plans.now < 2 ^ 32 }
    requires has_sleep { W.sleeps world.old ≡ true }
    requires has_room { W.waits world.old + fuel < 2 ^ 64 }
    ensures waits { IfOk result (λ events. WaitsAll W.does W.waits
        (record { plans = plans.now; book = bucket.old; world = world.old; fuel = fuel }) events
        bucket.new world.new) }
    ensures bad_plan { (waiter : ℕ) → (result ≡ Err (FleetError.BadPlan waiter))
        ↔ IsFirstBad plans.now waiter }
    ensures no_step { (waiter : ℕ) → IsFirstBad plans.now waiter → bucket.new ≡ bucket.old }
    ensures no_poll { (waiter : ℕ) → IsFirstBad plans.now waiter → world.new ≡ world.old }
    ensures out_of_memory { result ≡ Err FleetError.OutOfMemory → (start : ℕ) × Halts W.does
        (record { plans = plans.now; book = bucket.old; world = world.old; fuel = fuel }) start
        bucket.new world.new }
{
    if let Some(waiter) = first_bad(plans) {
        return Err(FleetError::BadPlan { waiter });
    }
    match waited(alloc, plans, bucket, world, fuel) {
        Ok(events) => Ok(events),
        Err(_) => Err(FleetError::OutOfMemory),
    }
}

/// Lets the waiters of good plans wait.
fn waited<W: FleetWorld>(
    alloc: Global,
    plans: &[Plan],
    bucket: &mut TokenBucket,
    world: &mut W,
    fuel: u64,
) -> Result<List<FleetEvent>, OutOfMemory>
    requires good { AllGood plans.now }
    requires numbered { length plans.now < 2 ^ 32 }
    requires has_sleep { W.sleeps world.old ≡ true }
    requires has_room { W.waits world.old + fuel < 2 ^ 64 }
    ensures { let o : Origin W = record
        { plans = plans.now; book = bucket.old; world = world.old; fuel = fuel } in
        MatchResult result
        (λ events. WaitsAll W.does W.waits o events bucket.new world.new)
        (λ _. (start : ℕ) × Halts W.does o start bucket.new world.new) }
{
    let mut ran = match ran(alloc, plans, bucket, world, fuel) {
        Err(refused) => return Err(refused),
        Ok(ran) => ran,
    };
    if let Err(refused) = leave(ran.seats.as_slice(), &mut ran.log) {
        return Err(refused);
    }
    Ok(List::from_vec(ran.log.events))
}

//! The turns of a fleet, one after another.
ghost use Rattle.std.specs.Prelude.{◌≡◌, ◌+◌, ◌<◌, ◌≤◌, ◌^◌, [], ℕ, true, false, List, length};
ghost use Rattle.std.specs.Prelude.{IfOk, MatchResult};
ghost use Rattle.waiter_fleet.specs.Acts.{Act, events_of};
ghost use Rattle.waiter_fleet.specs.Fleet.{IsTurnOf};
ghost use Rattle.waiter_fleet.specs.Fleets.{Between, IsScheduled, Over, Popped, Stepped};
ghost use Rattle.waiter_fleet.specs.Plans.{AllGood};
ghost use Rattle.waiter_fleet.specs.Schedules.{NoneIsOf};
ghost use Rattle.waiter_fleet.specs.Steps.{Halts, Origin};

use crate::log::Log;
use crate::plan::Plan;
use crate::ran::Ran;
use crate::schedule::{Due, Schedule};
use crate::seat::Seat;
use crate::seats::seats_of;
use crate::turn::turn;
use crate::turned::Turned;
use crate::world::FleetWorld;
use retry_quota::TokenBucket;
use smithy_types::OutOfMemory;
use std::alloc::Global;

/// So many waiters, all due at the start.
fn schedule_of(alloc: Global, count: u32, start: u64) -> Result<Schedule, OutOfMemory>
    ensures { IfOk result (λ schedule. IsScheduled count start [] schedule) }
{
    let mut schedule = Schedule::new(alloc);
    for waiter in 0..count {
        schedule.insert(Due {
            moment: start,
            waiter,
        })?;
    }
    Ok(schedule)
}

/// Makes the turn of what was due first. Answers whether there is fuel for another.
fn step<W: FleetWorld>(
    alloc: Global,
    start: u64,
    due: Due,
    seats: &mut Vec<Seat>,
    schedule: &mut Schedule,
    bucket: &mut TokenBucket,
    world: &mut W,
    log: &mut Log,
) -> Result<bool, OutOfMemory>
    requires within { due.waiter < length seats.old.items }
    requires once { NoneIsOf due.waiter schedule.old }
    requires has_sleep { W.sleeps world.old ≡ true }
    ensures events { (o : Origin W) (acts : List Act) →
        Between W.does o start acts seats.old.items log.old.events.items bucket.old world.old
        log.old.fuel →
        Popped (length o.plans) start (events_of acts) due schedule.old →
        MatchResult result
        (Stepped W.does o start seats.new.items schedule.new log.new.events.items bucket.new
        world.new log.new.fuel)
        (λ _. Halts W.does o start bucket.new world.new) }
    ensures sleeps { W.sleeps world.new ≡ W.sleeps world.old }
    ensures spends { IfOk result (λ more. more ≡ true →
        log.new.fuel + length schedule.new < log.old.fuel + length schedule.old + 1) }
{
    let waiter = due.waiter;
    let mut seat = seats[waiter as usize];
    let turned = match turn(alloc, waiter, start, &mut seat, bucket, world, log) {
        Err(refused) => return Err(refused),
        Ok(turned) => turned,
    };
    seats[waiter as usize] = seat;
    match turned {
        Turned::Sleeps(moment) => {
            schedule.insert(Due { moment, waiter })?;
            Ok(true)
        }
        Turned::Ended => Ok(true),
        Turned::Spent => Ok(false),
    }
}

/// Makes the turns of a fleet, until each waiter has ended or the fuel is spent.
pub(crate) fn ran<W: FleetWorld>(
    alloc: Global,
    plans: &[Plan],
    bucket: &mut TokenBucket,
    world: &mut W,
    fuel: u64,
) -> Result<Ran, OutOfMemory>
    requires good { AllGood plans.now }
    requires numbered { length plans.now < 2 ^ 32 }
    requires has_sleep { W.sleeps world.old ≡ true }
    ensures { let o : Origin W = record
        { plans = plans.now; book = bucket.old; world = world.old; fuel = fuel } in
        MatchResult result
        (λ ran. Over W.does o ran.start ran.seats.items ran.log.events.items bucket.new world.new
        ran.log.fuel)
        (λ _. (start : ℕ) × Halts W.does o start bucket.new world.new) }
{
    let start = world.now();
    let mut seats = seats_of(alloc, plans)?;
    let mut schedule = schedule_of(alloc, plans.len() as u32, start)?;
    let mut log = Log {
        events: Vec::new(alloc),
        fuel,
    };
    while log.fuel > 0 {
        let due = match schedule.next() {
            None => return Ok(Ran { start, seats, log }),
            Some(due) => due,
        };
        let more = match step(
            alloc,
            start,
            due,
            &mut seats,
            &mut schedule,
            bucket,
            world,
            &mut log,
        ) {
            Err(refused) => return Err(refused),
            Ok(more) => more,
        };
        if !more {
            return Ok(Ran { start, seats, log });
        }
    }
    Ok(Ran { start, seats, log })
}

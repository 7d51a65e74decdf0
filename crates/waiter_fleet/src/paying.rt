//! Waiting for a waiter's next poll, and paying for it.
ghost use Rattle.std.specs.Prelude.{◌≡◌, ◌≤◌, ◌-◌, ◌++◌, [], ◌∷◌, ℕ, true, MatchResult, OnOk, List};
ghost use Rattle.std.specs.Prelude.{length};
ghost use Rattle.waiter_fleet.specs.Acts.{Act, events_of, open_sleep};
ghost use Rattle.waiter_fleet.specs.Events.{charges, polls};
ghost use Rattle.waiter_fleet.specs.Fleet.{IsTurnOf, is_settled};
ghost use Rattle.waiter_fleet.specs.Paying.{AsksFor, PayEnds, ReadyEnds};
ghost use Rattle.waiter_fleet.specs.Seats.{Seated};
ghost use Rattle.waiter_fleet.specs.Steps.{Halts, Origin, Stands};

use crate::asking::awake;
use crate::charging::charge;
use crate::event::{FleetEnd, FleetEvent};
use crate::log::Log;
use crate::paid::Paid;
use crate::seat::Seat;
use crate::world::FleetWorld;
use retry_quota::TokenBucket;
use smithy_types::{ErrorKind, OutOfMemory};
use waiters::backoff::SECOND;

/// Ends a waiter whose next poll the bucket refused.
fn refuse(waiter: u32, cost: u32, moment: u64, log: &mut Log) -> Result<(), OutOfMemory>
    ensures added { OnOk result (log.new.events.items ≡ log.old.events.items
        ++ FleetEvent.Refused waiter cost moment ∷ []
        ++ FleetEvent.End waiter (FleetEnd.NoQuota cost) ∷ []) }
    ensures same_fuel { log.new.fuel ≡ log.old.fuel }
{
    log.add(FleetEvent::Refused {
        waiter,
        cost,
        moment,
    })?;
    let end = FleetEnd::NoQuota { cost };
    log.add(FleetEvent::End { waiter, end })
}

/// Waits until the sleep of a waiter whose turn it is is over, and asks the bucket for the cost of
/// its next poll.
fn pay<W: FleetWorld>(
    waiter: u32,
    sleep: Option<u64>,
    bucket: &mut TokenBucket,
    world: &mut W,
    log: &mut Log,
) -> Result<Paid, OutOfMemory>
    ensures events { (o : Origin W) (start : ℕ) (acts : List Act) →
        Stands W.does o start acts log.old.events.items bucket.old world.old log.old.fuel →
        AsksFor o start acts waiter sleep →
        MatchResult result
        (PayEnds W.does o start acts waiter log.new.events.items bucket.new world.new log.new.fuel)
        (λ _. Halts W.does o start bucket.new world.new) }
    ensures sleeps { W.sleeps world.new ≡ W.sleeps world.old }
    ensures spends { log.new.fuel ≤ log.old.fuel }
{
    if !awake(sleep, world, &mut log.fuel) {
        return Ok(Paid::Spent);
    }
    if log.fuel == 0 {
        return Ok(Paid::Spent);
    }
    let moment = world.now();
    if charge(bucket, moment / SECOND) {
        log.add(FleetEvent::Charged { waiter, moment })?;
        return Ok(Paid::Charged);
    }
    let cost = bucket.cost(ErrorKind::ServerError);
    refuse(waiter, cost, moment, log)?;
    Ok(Paid::Refused)
}

/// Gets a waiter whose turn it is to where it may be polled. Its first poll is free.
pub(crate) fn readied<W: FleetWorld>(
    waiter: u32,
    seat: &Seat,
    bucket: &mut TokenBucket,
    world: &mut W,
    log: &mut Log,
) -> Result<Paid, OutOfMemory>
    ensures events { (o : Origin W) (start : ℕ) (acts : List Act) →
        Stands W.does o start acts log.old.events.items bucket.old world.old log.old.fuel →
        Seated o.plans acts waiter seat.now →
        IsTurnOf (length o.plans) start (events_of acts) waiter →
        is_settled (events_of acts) ≡ true →
        charges waiter (events_of acts) ≡ polls waiter (events_of acts) - 1 →
        MatchResult result
        (ReadyEnds W.does o start acts waiter seat.now log.new.events.items bucket.new world.new
        log.new.fuel)
        (λ _. Halts W.does o start bucket.new world.new) }
    ensures sleeps { W.sleeps world.new ≡ W.sleeps world.old }
    ensures spends { log.new.fuel ≤ log.old.fuel }
{
    if seat.number == 1 {
        return Ok(Paid::Charged);
    }
    pay(waiter, seat.sleep, bucket, world, log)
}

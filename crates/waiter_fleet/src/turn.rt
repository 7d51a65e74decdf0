//! The turn of a waiter.
ghost use Rattle.std.specs.Prelude.{◌≡◌, ◌<◌, ◌≤◌, ◌-◌, ◌+◌, ℕ, true, false, List, length, IfOk};
ghost use Rattle.std.specs.Prelude.{MatchResult};
ghost use Rattle.retry_quota.specs.Book.{Book};
ghost use Rattle.waiter_fleet.specs.Acts.{Act, events_of};
ghost use Rattle.waiter_fleet.specs.Events.{charges, polls};
ghost use Rattle.waiter_fleet.specs.Fleet.{IsTurnOf, MayPoll, is_settled};
ghost use Rattle.waiter_fleet.specs.Seats.{Seated};
ghost use Rattle.waiter_fleet.specs.Steps.{Halts, Origin, Stands};
ghost use Rattle.waiter_fleet.specs.Turns.{TurnEnds, TurnSpends};

use crate::closing::closed;
use crate::log::Log;
use crate::paid::Paid;
use crate::paying::readied;
use crate::polling::polled;
use crate::seat::Seat;
use crate::turned::Turned;
use crate::world::FleetWorld;
use retry_quota::TokenBucket;
use smithy_types::OutOfMemory;
use std::alloc::Global;

/// Polls a waiter whose poll is paid for, and ends its turn.
fn taken<W: FleetWorld>(
    alloc: Global,
    waiter: u32,
    start: u64,
    seat: &mut Seat,
    world: &mut W,
    log: &mut Log,
) -> Result<Turned, OutOfMemory>
    requires { W.sleeps world.old ≡ true }
    ensures events { (o : Origin W) (acts : List Act) (book : Book) →
        Stands W.does o start acts log.old.events.items book world.old log.old.fuel →
        Seated o.plans acts waiter seat.old →
        MayPoll o.plans o.book start (events_of acts) waiter seat.old.number →
        MatchResult result
        (TurnEnds W.does o start waiter acts seat.old seat.new log.new.events.items book world.new
        log.new.fuel)
        (λ _. Halts W.does o start book world.new) }
    ensures sleeps { W.sleeps world.new ≡ W.sleeps world.old }
    ensures spends { IfOk result (TurnSpends log.old.fuel log.new.fuel) }
{
    let answer = match polled(alloc, waiter, start, seat, world, log) {
        Err(refused) => return Err(refused),
        Ok(answer) => answer,
    };
    let found = match answer {
        None => return Ok(Turned::Spent),
        Some(found) => found,
    };
    let due = closed(alloc, waiter, found, seat, world, log)?;
    match due {
        Some(moment) => Ok(Turned::Sleeps(moment)),
        None => Ok(Turned::Ended),
    }
}

/// Makes the turn of a waiter: it waits until its sleep is over, pays for its poll unless that is
/// its first, is polled until it answers, and ends or sleeps again.
pub(crate) fn turn<W: FleetWorld>(
    alloc: Global,
    waiter: u32,
    start: u64,
    seat: &mut Seat,
    bucket: &mut TokenBucket,
    world: &mut W,
    log: &mut Log,
) -> Result<Turned, OutOfMemory>
    requires { W.sleeps world.old ≡ true }
    ensures events { (o : Origin W) (acts : List Act) →
        Stands W.does o start acts log.old.events.items bucket.old world.old log.old.fuel →
        Seated o.plans acts waiter seat.old →
        IsTurnOf (length o.plans) start (events_of acts) waiter →
        is_settled (events_of acts) ≡ true →
        charges waiter (events_of acts) ≡ polls waiter (events_of acts) - 1 →
        MatchResult result
        (TurnEnds W.does o start waiter acts seat.old seat.new log.new.events.items bucket.new
        world.new log.new.fuel)
        (λ _. Halts W.does o start bucket.new world.new) }
    ensures sleeps { W.sleeps world.new ≡ W.sleeps world.old }
    ensures spends { IfOk result (TurnSpends log.old.fuel log.new.fuel) }
{
    let paid = match readied(waiter, seat, bucket, world, log) {
        Err(refused) => return Err(refused),
        Ok(paid) => paid,
    };
    match paid {
        Paid::Charged => taken(alloc, waiter, start, seat, world, log),
        Paid::Refused => {
            seat.ended = true;
            Ok(Turned::Ended)
        }
        Paid::Spent => Ok(Turned::Spent),
    }
}

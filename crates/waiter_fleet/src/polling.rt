//! One poll of a waiter.
ghost use Rattle.std.specs.Prelude.{◌≡◌, ◌<◌, ◌≤◌, List, MatchOption, MatchResult, IfOk};
ghost use Rattle.retry_quota.specs.Book.{Book};
ghost use Rattle.waiter_fleet.specs.Acts.{Act, events_of};
ghost use Rattle.waiter_fleet.specs.Fleet.{MayPoll};
ghost use Rattle.waiter_fleet.specs.Seats.{Polled};
ghost use Rattle.waiter_fleet.specs.Steps.{Halts, Origin, RunsOut, Stands};

use crate::asking::answered;
use crate::ending::end_of;
use crate::event::FleetEvent;
use crate::found::Found;
use crate::log::Log;
use crate::seat::Seat;
use crate::world::FleetWorld;
use smithy_types::OutOfMemory;
use std::alloc::Global;

/// Polls a waiter whose poll is paid for, and says what that means for it; none where the fuel is
/// spent before an answer.
pub(crate) fn polled<W: FleetWorld>(
    alloc: Global,
    waiter: u32,
    start: u64,
    seat: &Seat,
    world: &mut W,
    log: &mut Log,
) -> Result<Option<Found>, OutOfMemory>
    ensures events { (o : Origin W) (acts : List Act) (book : Book) →
        Stands W.does o start acts log.old.events.items book world.old log.old.fuel →
        MayPoll o.plans o.book start (events_of acts) waiter seat.now.number →
        MatchResult result
        (λ found. MatchOption found
        (RunsOut W.does o start acts log.new.events.items book world.new log.new.fuel)
        (λ one. Polled W.does o start waiter acts seat.now one log.new.events.items book world.new
        log.new.fuel))
        (λ _. Halts W.does o start book world.new) }
    ensures sleeps { W.sleeps world.new ≡ W.sleeps world.old }
    ensures spends { IfOk result (λ found. MatchOption found (log.new.fuel ≤ log.old.fuel)
        (λ _. log.new.fuel < log.old.fuel)) }
{
    let answer = match answered(alloc, waiter, world, &mut log.fuel) {
        Err(refused) => return Err(refused),
        Ok(answer) => answer,
    };
    let (seen, state) = match answer {
        None => return Ok(None),
        Some(told) => told,
    };
    let moment = world.now();
    let elapsed = moment.saturating_sub(start);
    let end = end_of(seat, elapsed, &seen, state);
    log.add(FleetEvent::Poll {
        waiter,
        number: seat.number,
        moment,
        seen,
        state,
    })?;
    Ok(Some(Found {
        moment,
        elapsed,
        end,
    }))
}

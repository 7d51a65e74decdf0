//! The end of a waiter's turn.
ghost use Rattle.std.specs.Prelude.{◌≡◌, ℕ, true, false, List, MatchOption, MatchResult};
ghost use Rattle.retry_quota.specs.Book.{Book};
ghost use Rattle.waiter_fleet.specs.Acts.{Act, events_of};
ghost use Rattle.waiter_fleet.specs.Events.{charges, ended, polls};
ghost use Rattle.waiter_fleet.specs.Seats.{Polled, Rests, Seated, TurnsOver};
ghost use Rattle.waiter_fleet.specs.Steps.{Halts, Origin};

use crate::event::FleetEvent;
use crate::found::Found;
use crate::log::Log;
use crate::pausing::paused;
use crate::seat::Seat;
use crate::world::FleetWorld;
use smithy_types::OutOfMemory;
use std::alloc::Global;

/// Ends a waiter behind its poll or lets it sleep, and answers when it is due again, if it is. A due
/// moment stops at the greatest one.
pub(crate) fn closed<W: FleetWorld>(
    alloc: Global,
    waiter: u32,
    found: Found,
    seat: &mut Seat,
    world: &mut W,
    log: &mut Log,
) -> Result<Option<u64>, OutOfMemory>
    requires { W.sleeps world.old ≡ true }
    ensures events { (o : Origin W) (start : ℕ) (acts : List Act) (book : Book) →
        Polled W.does o start waiter acts seat.old found log.old.events.items book world.old
        log.old.fuel →
        Seated o.plans acts waiter seat.old →
        charges waiter (events_of acts) ≡ polls waiter (events_of acts) →
        ended waiter (events_of acts) ≡ false →
        MatchResult result
        (λ due. MatchOption due
        (TurnsOver W.does o start waiter acts true seat.new log.new.events.items book world.new
        log.new.fuel)
        (λ moment. Rests W.does o start waiter acts moment seat.new log.new.events.items book
        world.new log.new.fuel))
        (λ _. Halts W.does o start book world.new) }
    ensures sleeps { W.sleeps world.new ≡ W.sleeps world.old }
    ensures same_fuel { log.new.fuel ≡ log.old.fuel }
{
    if let Some(end) = found.end {
        seat.number = seat.number.saturating_add(1);
        seat.ended = true;
        log.add(FleetEvent::End { waiter, end })?;
        return Ok(None);
    }
    let pause = paused(alloc, &seat.backoff, seat.number, found.elapsed, world)?;
    seat.number = seat.number.saturating_add(1);
    seat.zero_used = pause.nanos == 0;
    seat.sleep = pause.sleep;
    log.add(FleetEvent::Sleep {
        waiter,
        nanos: pause.nanos,
        elapsed: found.elapsed,
        word: pause.word,
    })?;
    Ok(Some(found.moment.saturating_add(pause.nanos)))
}

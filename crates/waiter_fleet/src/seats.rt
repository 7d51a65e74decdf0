//! The seats of a fleet's waiters.
ghost use Rattle.std.specs.Prelude.{◌≡◌, ◌<◌, ◌^◌, ◌++◌, [], length, List, true, false, None};
ghost use Rattle.std.specs.Prelude.{MatchOption, IfOk, OnOk};
ghost use Rattle.waiter_fleet.specs.Fleet.{left_over};
ghost use Rattle.waiter_fleet.specs.Events.{in_order};
ghost use Rattle.waiter_fleet.specs.Plans.{AllGood, IsFirstBad, is_good};
ghost use Rattle.waiter_fleet.specs.Seats.{plan_of};
ghost use Rattle.waiter_fleet.specs.Fleets.{AreSeated, SayWhoEnded};
ghost use Rattle.waiter_fleet.specs.declared.event.FleetEvent.{FleetEvent};

use crate::event::{FleetEnd, FleetEvent};
use crate::log::Log;
use crate::plan::Plan;
use crate::seat::Seat;
use smithy_types::OutOfMemory;
use std::alloc::Global;
use waiters::Backoff;

/// The first plan that no waiter can follow.
pub(crate) fn first_bad(plans: &[Plan]) -> Option<u32>
    requires { length plans.now < 2 ^ 32 }
    ensures { MatchOption result (AllGood plans.now) (IsFirstBad plans.now) }
{
    for (waiter, plan) in plans.iter().enumerate() {
        if !plan.is_good() {
            return Some(waiter as u32);
        }
    }
    None
}

/// The seat of a waiter that hasn't polled yet.
fn seat_of(plan: &Plan) -> Seat
    requires { is_good plan.now ≡ true }
    ensures backoff { plan_of result.backoff ≡ plan.now }
    ensures number { result.number ≡ 1 }
    ensures zero { result.zero_used ≡ false }
    ensures sleep { result.sleep ≡ None }
    ensures ended { result.ended ≡ false }
{
    Seat {
        backoff: Backoff {
            min_delay: plan.min_delay,
            max_delay: plan.max_delay,
            max_wait: plan.max_wait,
        },
        number: 1,
        zero_used: false,
        sleep: None,
        ended: false,
    }
}

/// The seats of waiters that haven't polled yet.
pub(crate) fn seats_of(alloc: Global, plans: &[Plan]) -> Result<Vec<Seat>, OutOfMemory>
    requires { AllGood plans.now }
    ensures { IfOk result (λ seats. AreSeated plans.now [] seats.items) }
{
    let mut seats = Vec::new(alloc);
    for plan in plans {
        seats.push(seat_of(plan))?;
    }
    Ok(seats)
}

/// Ends each waiter that hasn't ended as unfinished, in the order of their numbers.
pub(crate) fn leave(seats: &[Seat], log: &mut Log) -> Result<(), OutOfMemory>
    requires { length seats.now < 2 ^ 32 }
    ensures { OnOk result ((events : List FleetEvent) → SayWhoEnded events seats.now →
        log.new.events.items ≡ log.old.events.items
        ++ in_order (left_over (length seats.now) events)) }
{
    for (waiter, seat) in seats.iter().enumerate() {
        if !seat.ended {
            log.add(FleetEvent::End {
                waiter: waiter as u32,
                end: FleetEnd::Unfinished,
            })?;
        }
    }
    Ok(())
}

//! What a poll means for its waiter.
ghost use Rattle.std.specs.Prelude.{◌≡◌, ◌-◌, ℕ, Bool, MatchOption};
ghost use Rattle.waiters.specs.Walk.{goes_on};
ghost use Rattle.waiter_fleet.specs.declared.plan.Plan.{Plan};
ghost use Rattle.waiter_fleet.specs.Fleet.{EndsBy, verdict_of};
ghost use Rattle.waiter_fleet.specs.Seats.{plan_of};
ghost use Rattle.waiter_fleet.specs.Steps.{StaysOn};

use crate::event::{FleetEnd, Seen};
use crate::seat::Seat;
use smithy_types::AcceptorState;

/// The end that a poll makes by itself.
fn end_by(seen: &Seen, state: AcceptorState) -> Option<FleetEnd>
    ensures { MatchOption result (verdict_of seen.now state ≡ goes_on)
        (λ ending. (plan : Plan) (used : Bool) (number elapsed : ℕ) →
        EndsBy plan used number elapsed (verdict_of seen.now state) ending) }
{
    match seen {
        Seen::Unmodeled => Some(FleetEnd::OperationFailed),
        Seen::Output(_) => match state {
            AcceptorState::Success => Some(FleetEnd::Ok),
            AcceptorState::Failure => Some(FleetEnd::FailureState),
            AcceptorState::Retry | AcceptorState::NoAcceptorsMatched => None,
        },
        Seen::Service(_) => match state {
            AcceptorState::Success => Some(FleetEnd::Ok),
            AcceptorState::Failure => Some(FleetEnd::FailureState),
            AcceptorState::NoAcceptorsMatched => Some(FleetEnd::OperationFailed),
            AcceptorState::Retry => None,
        },
    }
}

/// What a waiter ends with behind a poll that came so long after the start, if it ends.
pub(crate) fn end_of(
    seat: &Seat,
    elapsed: u64,
    seen: &Seen,
    state: AcceptorState,
) -> Option<FleetEnd>
    ensures { MatchOption result
        (StaysOn (plan_of seat.now.backoff) seat.now.zero_used elapsed (verdict_of seen.now state))
        (EndsBy (plan_of seat.now.backoff) seat.now.zero_used seat.now.number elapsed
        (verdict_of seen.now state)) }
{
    if let Some(end) = end_by(seen, state) {
        return Some(end);
    }
    let exceeded = FleetEnd::ExceededMaxWait {
        max_wait: seat.backoff.max_wait,
        elapsed,
        poll_count: seat.number,
    };
    if seat.zero_used {
        return Some(exceeded);
    }
    if elapsed > seat.backoff.max_wait {
        return Some(exceeded);
    }
    None
}

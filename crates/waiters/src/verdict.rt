//! What a poll means for the walk.
ghost use Rattle.std.specs.Prelude.{◌≡◌, MatchOption};
ghost use Rattle.waiters.specs.Steps.{Sees};
ghost use Rattle.waiters.specs.Walk.{Accepts, EndsBy, goes_on, verdict};

use crate::{FinalPoll, WaiterError};
use smithy_types::{AcceptorState, SdkError};

/// What an acceptor is asked about, if a poll answered it.
fn modeled<O, E>(polled: &Result<O, SdkError<E>>) -> Option<Result<&O, &E>>
    ensures { Sees polled.now result }
{
    match polled {
        Ok(output) => Some(Ok(output)),
        Err(failed) => match failed {
            SdkError::ServiceError(error, _) => Some(Err(error)),
            _ => None,
        },
    }
}

/// What the acceptor says of a poll.
pub(crate) fn state_of<F, O, E>(acceptor: &F, polled: &Result<O, SdkError<E>>) -> AcceptorState
where
    F: Fn(Result<&O, &E>) -> AcceptorState,
    requires callable { F.IsAlwaysCallable acceptor.now }
    ensures { Accepts (F.post acceptor.now) polled.now result }
{
    match modeled(polled) {
        Some(seen) => acceptor(seen),
        None => AcceptorState::NoAcceptorsMatched,
    }
}

/// The end that a poll makes by itself.
pub(crate) fn end_of<O: Drop, E: Drop>(
    polled: Result<O, SdkError<E>>,
    state: AcceptorState,
) -> Option<Result<FinalPoll<O, E>, WaiterError<O, E>>>
    ensures { MatchOption result (verdict polled state ≡ goes_on) (EndsBy polled state) }
{
    match (polled, state) {
        (Ok(output), AcceptorState::Success) => Some(Ok(FinalPoll { result: Ok(output) })),
        (Ok(output), AcceptorState::Failure) => Some(Err(WaiterError::FailureState(FinalPoll {
            result: Ok(output),
        }))),
        (Ok(_), _) => None,
        (Err(SdkError::ServiceError(error, response)), state) => match state {
            AcceptorState::Success => Some(Ok(FinalPoll { result: Err(error) })),
            AcceptorState::Failure => Some(Err(WaiterError::FailureState(FinalPoll {
                result: Err(error),
            }))),
            AcceptorState::NoAcceptorsMatched => Some(Err(WaiterError::OperationFailed(
                SdkError::ServiceError(error, response),
            ))),
            AcceptorState::Retry => None,
        },
        (Err(error), _) => Some(Err(WaiterError::OperationFailed(error))),
    }
}

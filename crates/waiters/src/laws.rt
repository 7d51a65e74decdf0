//! What holds of every walk.
ghost use Rattle.std.specs.Prelude.{◌≡◌, ◌≢◌, ◌++◌, ℕ, List, Err};
ghost use Rattle.waiters.specs.Calls.{Call};
ghost use Rattle.waiters.specs.Walk.{End, Turn};
ghost use Rattle.waiters.specs.WalkCalls.{Rest, walk_calls};

use crate::{Backoff, WaiterError};
use smithy_types::AcceptorState;

/// The calls of a walk that a poll ended are never those of one that is unfinished. So a waiter is
/// Unfinished exactly where its fuel is spent and its walk hasn't ended.
pub fn an_ended_walk_is_finished<F, O, E>(backoff: &Backoff, acceptor: &F)
where
    F: Fn(Result<&O, &E>) -> AcceptorState,
    ensures { (start other_start : ℕ) (turns other_turns : List (Turn O E))
        (rest other_rest : List (Call O E)) (ending : End O E) →
        ending ≢ Err WaiterError.Unfinished → ending ≢ Err WaiterError.OutOfMemory →
        Rest backoff.now (F.post acceptor.now) start turns ending rest →
        Rest backoff.now (F.post acceptor.now) other_start other_turns (Err WaiterError.Unfinished)
        other_rest →
        walk_calls turns ++ rest ≢ walk_calls other_turns ++ other_rest }
{}

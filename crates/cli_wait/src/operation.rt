//! The operation that a waiter polls over scripted timers, and its acceptors.
ghost use Rattle.std.specs.Prelude.{◌≡◌, IfOk, IfSome, Ok, Err, MatchResult};
ghost use Rattle.waiters.specs.Calls.{poll_answer};
ghost use Rattle.waiters.specs.declared.timers.WaiterCall.TheVariants.{Poll};
ghost use Rattle.cli_wait.specs.Makes.{Makes};
ghost use Rattle.cli_wait.specs.Polls.{Answers, poll_at};

use crate::polls::{PolledValue, answer_of};
use crate::scripted_timers::ScriptedTimers;
use smithy_types::{AcceptorState, OutOfMemory, SdkError};

/// Polls the operation with this number, counted from 1. While it has no answer yet it answers
/// none. An answer is noted. Without memory the timers are as they were.
pub fn ask(
    timers: &mut ScriptedTimers,
    number: u32,
) -> Result<Option<Result<PolledValue, SdkError<PolledValue>>>, OutOfMemory>
    ensures made { Makes timers.old (Poll number (poll_answer result)) timers.new }
    ensures answer { IfOk result (λ found.
        IfSome found (Answers (poll_at timers.old.polls number))) }
{
    if !timers.is_due(number) {
        return Ok(None);
    }
    let answer = answer_of(timers.poll_at(number))?;
    timers.note_poll(number)?;
    Ok(Some(answer))
}

/// What the acceptors say of an output or an error of the model.
pub fn state_of(seen: Result<&PolledValue, &PolledValue>) -> AcceptorState
    ensures { MatchResult seen.entry
        (λ output. result ≡ output.now.state)
        (λ error. result ≡ error.now.state) }
{
    match seen {
        Ok(output) => output.state,
        Err(error) => error.state,
    }
}

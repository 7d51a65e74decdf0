//! What a script's polls are told as.
ghost use Rattle.std.specs.Prelude.{◌≡◌, IfOk};
ghost use Rattle.std.specs.Option.{option_copied};
ghost use Rattle.cli_waiters.specs.Fleet.Waiters.{seen_by, told_by};

use cli_wait::{PollResult, ScriptedPoll};
use smithy_types::{AcceptorState, OutOfMemory};
use waiter_fleet::Seen;

/// What this poll comes to, and what the acceptors say of it. Without a poll it times out. A poll
/// that times out has an error that isn't of the operation's model.
pub fn told_by(poll: Option<&ScriptedPoll>) -> Result<(Seen, AcceptorState), OutOfMemory>
    ensures { IfOk result (λ found. found ≡ told_by (option_copied poll.entry)) }
{
    let Some(poll) = poll else {
        return Ok((Seen::Unmodeled, AcceptorState::NoAcceptorsMatched));
    };
    Ok((seen_by(&poll.result)?, poll.state))
}

// What a poll with this result came to.
fn seen_by(found: &PollResult) -> Result<Seen, OutOfMemory>
    ensures { IfOk result (λ seen. seen ≡ seen_by found.now) }
{
    match found {
        PollResult::Output(payload) => Ok(Seen::Output(payload.clone()?)),
        PollResult::Service(payload) => Ok(Seen::Service(payload.clone()?)),
        PollResult::Timeout => Ok(Seen::Unmodeled),
    }
}

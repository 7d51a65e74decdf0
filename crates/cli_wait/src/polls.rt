//! What a script says of polls.
ghost use Rattle.std.specs.Prelude.{◌≡◌, IfOk};
ghost use Rattle.std.specs.Option.{option_copied};
ghost use Rattle.cli_wait.specs.Polls.{Answers, IsTimeout, nanos_of, poll_at};

use smithy_types::{
    AcceptorState, Body, Fault, FaultKind, Headers, HttpResponse, List, OutOfMemory, Payload,
    SdkError, Text,
};

/// What a poll comes to.
#[derive(Debug, Drop)]
pub enum PollResult {
    /// It answers this output.
    Output(Payload),
    /// It answers this error of the operation's model.
    Service(Payload),
    /// It times out.
    Timeout,
}

/// A poll of the operation.
#[derive(Debug, Drop)]
pub struct ScriptedPoll {
    /// How long it takes, from its first ask, in nanoseconds.
    pub nanos: u64,
    /// What it comes to.
    pub result: PollResult,
    /// What the acceptors say of it, if it is an output or an error of the model.
    pub state: AcceptorState,
}

/// An output, or an error of the operation's model, with what the acceptors say of it.
#[derive(Debug, Drop)]
pub struct PolledValue {
    /// The value.
    pub payload: Payload,
    /// What the acceptors say of it.
    pub state: AcceptorState,
}

/// The poll of this number, counted from 1: behind the last one that one again.
pub fn poll_at(polls: &List<ScriptedPoll>, number: u32) -> Option<&ScriptedPoll>
    ensures { option_copied result ≡ poll_at polls.now number }
{
    let polls = polls.as_slice();
    polls.get((number as usize).min(polls.len()).saturating_sub(1))
}

/// How long this poll takes, in nanoseconds. Without a poll it takes no time.
pub fn nanos_of(poll: Option<&ScriptedPoll>) -> u64
    ensures { result ≡ nanos_of (option_copied poll.entry) }
{
    match poll {
        Some(poll) => poll.nanos,
        None => 0,
    }
}

/// What this poll answers. Without a poll it times out.
pub fn answer_of(
    poll: Option<&ScriptedPoll>,
) -> Result<Result<PolledValue, SdkError<PolledValue>>, OutOfMemory>
    ensures { IfOk result (λ answer. Answers (option_copied poll.entry) answer) }
{
    let Some(poll) = poll else {
        return Ok(Err(timed_out()));
    };
    match &poll.result {
        PollResult::Output(payload) => Ok(Ok(PolledValue {
            payload: payload.clone()?,
            state: poll.state,
        })),
        PollResult::Service(payload) => {
            let error = PolledValue {
                payload: payload.clone()?,
                state: poll.state,
            };
            Ok(Err(SdkError::ServiceError(error, error_response())))
        }
        PollResult::Timeout => Ok(Err(timed_out())),
    }
}

// The error of a poll that times out.
fn timed_out() -> SdkError<PolledValue>
    ensures { IsTimeout result }
{
    SdkError::TimeoutError(Fault {
        kind: FaultKind::Timeout,
        text: Text::from_static("the poll timed out"),
    })
}

// The response of an error of the model, which no one reads.
fn error_response() -> HttpResponse {
    HttpResponse {
        status: 400,
        headers: Headers::new(),
        body: Body::Taken,
    }
}

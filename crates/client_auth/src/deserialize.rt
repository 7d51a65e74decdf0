//! Stream and Deserialize.
ghost use Rattle.std.specs.Prelude.{◌≡◌, IfOk};
ghost use Rattle.client_auth.specs.Deserializing.{Deserializes, Streams, streamed};

use crate::DeserializeResponse;
use run_grammar::Answer;
use smithy_context::Settings;
use smithy_types::{HttpResponse, OutOfMemory, Outcome, Shared};
use std::alloc::Global;

/// Makes the response's head an outcome, where the deserializer may stream. It is absent where no
/// response is handed on, which no run does.
pub fn stream<D: DeserializeResponse>(
    alloc: Global,
    deserializer: &D,
    may_stream: bool,
    response: &Option<Shared<HttpResponse>>,
    settings: &Settings,
) -> Result<Answer, OutOfMemory>
    ensures { IfOk result (λ a. Streams D.streams deserializer.now may_stream response.now
        settings.now a) }
{
    let Some(response) = response else {
        return Ok(Answer::Absent);
    };
    if !may_stream {
        return Ok(Answer::NotStreaming);
    }
    let outcome = deserializer.deserialize_streaming(alloc, response.get(), settings)?;
    streamed(alloc, outcome)
}

fn streamed(alloc: Global, outcome: Option<Outcome>) -> Result<Answer, OutOfMemory>
    ensures { IfOk result (λ a. a ≡ streamed outcome) }
{
    match outcome {
        Some(outcome) => Ok(Answer::Outcome(Shared::new(alloc, outcome)?)),
        None => Ok(Answer::NotStreaming),
    }
}

/// Makes the response, whose body was read, an outcome. It is absent where no response is handed
/// on, which no run does.
pub fn deserialize<D: DeserializeResponse>(
    alloc: Global,
    deserializer: &D,
    response: &Option<Shared<HttpResponse>>,
    settings: &Settings,
) -> Result<Answer, OutOfMemory>
    ensures { IfOk result (λ a. Deserializes D.deserializes deserializer.now response.now
        settings.now a) }
{
    let Some(response) = response else {
        return Ok(Answer::Absent);
    };
    let outcome = deserializer.deserialize_nonstreaming(alloc, response.get(), settings)?;
    Ok(Answer::Outcome(Shared::new(alloc, outcome)?))
}

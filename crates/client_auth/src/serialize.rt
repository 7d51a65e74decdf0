//! Serialize.
ghost use Rattle.std.specs.Prelude.{◌≡◌, IfOk};
ghost use Rattle.client_auth.specs.Serializing.{Serializes, answer_of};

use crate::{SerializeRequest, Serialized};
use run_grammar::Answer;
use smithy_context::Settings;
use smithy_types::{OutOfMemory, Payload, Shared};
use std::alloc::Global;

/// Makes the input a request. It is absent where no input is handed on, which no run does.
pub fn serialize<Z: SerializeRequest>(
    alloc: Global,
    serializer: &Z,
    input: &Option<Shared<Payload>>,
    settings: &Settings,
) -> Result<Answer, OutOfMemory>
    ensures { IfOk result (λ a. Serializes Z.serializes serializer.now input.now settings.now a) }
{
    match input {
        Some(input) => answer_of(alloc, serializer.serialize(alloc, input.get(), settings)?),
        None => Ok(Answer::Absent),
    }
}

fn answer_of(alloc: Global, serialized: Serialized) -> Result<Answer, OutOfMemory>
    ensures { IfOk result (λ a. a ≡ answer_of serialized) }
{
    match serialized {
        Serialized::Request(request) => Ok(Answer::Request(Shared::new(alloc, request)?)),
        Serialized::Failed(text) => Ok(Answer::Failed(text)),
    }
}

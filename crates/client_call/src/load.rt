//! Load: the request's body is loaded into memory.
ghost use Rattle.std.specs.Prelude.{◌≡◌, IfOk};
ghost use Rattle.client_call.specs.Loading.{loaded};

use run_grammar::Answer;
use smithy_types::{Body, HttpRequest, OutOfMemory, Shared, Text};
use std::alloc::Global;

/// The text of a body whose bytes are gone.
const TAKEN: &str = "body taken";

/// The bytes of the request's body. They are in memory already, so nothing is pending. It fails
/// where the bytes are gone, and is Absent where no request stands.
pub fn load(request: &Option<Shared<HttpRequest>>) -> Result<Answer, OutOfMemory>
    ensures { IfOk result (λ a. a ≡ loaded request.now) }
{
    let Some(request) = request else {
        return Ok(Answer::Absent);
    };
    match &request.get().body {
        Body::Bytes(bytes) => Ok(Answer::Loaded(bytes.clone()?)),
        Body::Once(bytes) => Ok(Answer::Loaded(bytes.clone()?)),
        Body::Taken => Ok(Answer::Failed(Text::from_static(TAKEN))),
    }
}

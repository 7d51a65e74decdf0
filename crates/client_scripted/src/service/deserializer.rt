//! How a response becomes an output or an error.
ghost use Rattle.std.specs.Prelude.{◌≡◌, IfOk};
ghost use Rattle.client_scripted.specs.Service.Service.{is_output, read_outcome, status_text};

use client_auth::DeserializeResponse;
use client_auth::responses::body_bytes;
use smithy_context::Settings;
use smithy_types::{Fault, FaultKind, HttpResponse, OutOfMemory, Outcome, Payload, Text};
use std::alloc::Global;

/// The kind of an output's payload.
pub const OUTPUT_KIND: u32 = 1;

/// The kind of an error's payload.
pub const ERROR_KIND: u32 = 2;

/// Makes an output of a response below 400 and of 418, and the service's own error of any other.
/// The body is the payload. It never streams.
#[derive(Clone, Copy, Debug, PartialEq, Eq)]
pub struct ServiceDeserializer;

impl DeserializeResponse for ServiceDeserializer {
    ghost use Rattle.std.specs.Prelude.{◌≡◌, None};
    ghost use Rattle.client_scripted.specs.Service.Service.{read_outcome};

    ghost streams = { λ _ response settings outcome. outcome ≡ None };

    ghost deserializes = { λ _ response settings outcome. outcome ≡ read_outcome response };

    fn deserialize_streaming(
        &self,
        _alloc: Global,
        _response: &HttpResponse,
        _settings: &Settings,
    ) -> Result<Option<Outcome>, OutOfMemory> {
        Ok(None)
    }

    fn deserialize_nonstreaming(
        &self,
        alloc: Global,
        response: &HttpResponse,
        _settings: &Settings,
    ) -> Result<Outcome, OutOfMemory> {
        let bytes = body_bytes(&response.body)?;
        if is_output(response.status) {
            return Ok(Outcome::Output(Payload {
                kind: OUTPUT_KIND,
                bytes,
            }));
        }
        Ok(Outcome::Failed(Fault {
            kind: FaultKind::Operation(Payload {
                kind: ERROR_KIND,
                bytes,
            }),
            text: status_text(alloc, response.status)?,
        }))
    }
}

// Whether a response of this status is an output.
fn is_output(status: u16) -> bool
    ensures { result ≡ is_output status }
{
    status < 400 || status == 418
}

// What is said of a response that is an error.
fn status_text(alloc: Global, status: u16) -> Result<Text, OutOfMemory>
    ensures { IfOk result (λ t. t ≡ status_text status) }
{
    let text = format!(in alloc; "status {status}")?;
    Text::from_string(text)
}

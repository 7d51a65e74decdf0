//! How an input becomes a request: it is one.
ghost use Rattle.std.specs.Prelude.{IfOk, IsErrOf};
ghost use Rattle.host_session.specs.Service.{IsRequest};

use client_auth::{SerializeRequest, Serialized};
use json_forms::{Arena, ReadError};
use json_values::http::read_request;
use smithy_context::Settings;
use smithy_types::{HttpRequest, OutOfMemory, Payload, Text};
use std::alloc::Global;

/// Takes an input for the request that its bytes are the JSON of: an array of the method, the URI,
/// the headers and the body.
#[derive(Clone, Copy, Debug, PartialEq, Eq)]
pub struct HostedSerializer;

impl SerializeRequest for HostedSerializer {
    ghost use Rattle.host_session.specs.Service.{Serializes};

    ghost serializes = { λ _ input settings serialized. Serializes input.bytes serialized };

    fn serialize(
        &self,
        alloc: Global,
        input: &Payload,
        _settings: &Settings,
    ) -> Result<Serialized, OutOfMemory> {
        match request_of(alloc, input.bytes.as_slice()) {
            Ok(request) => Ok(Serialized::Request(request)),
            Err(ReadError::Refused) => Ok(Serialized::Failed(Text::from_static("no request"))),
            Err(ReadError::Memory) => Err(OutOfMemory),
        }
    }
}

// The request that the bytes are the JSON of. It is refused exactly where they are that of none.
fn request_of(alloc: Global, bytes: &[u8]) -> Result<HttpRequest, ReadError>
    ensures found { IfOk result (λ request. IsRequest bytes.now request) }
    ensures refused { IsErrOf result ReadError.Refused → (request : HttpRequest) →
        IsRequest bytes.now request → ⊥ }
{
    let mut arena = Arena::new(alloc);
    let value = arena.read(bytes)?;
    read_request(alloc, &value)
}

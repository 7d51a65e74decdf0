//! The service's protocol: how inputs become requests, and responses outputs and errors.
ghost use Rattle.std.specs.Prelude.{◌≡◌, IfOk};
ghost use Rattle.example_bakery_service.specs.Service.{is_modelled, read_outcome};

use crate::ERROR;
use client_auth::responses::{body_bytes, failed};
use client_auth::{DeserializeResponse, SerializeRequest, Serialized};
use smithy_context::Settings;
use smithy_types::{
    Body, FaultKind, Headers, HttpRequest, HttpResponse, OutOfMemory, Outcome, Payload, Text,
};
use std::alloc::Global;

/// Posts an input to the path of its operation.
#[derive(Debug, Drop)]
pub struct BakerySerializer {
    /// The operation's path.
    pub path: Text,
}

impl SerializeRequest for BakerySerializer {
    ghost use Rattle.std.specs.Prelude.{◌≡◌};
    ghost use Rattle.client_auth.specs.declared.serializer.Serialized.TheVariants.{Request};
    ghost use Rattle.example_bakery_service.specs.Service.{posted};

    ghost serializes = { λ z input _ serialized. serialized ≡ Request (posted z.path input) };

    fn serialize(
        &self,
        _alloc: Global,
        input: &Payload,
        _settings: &Settings,
    ) -> Result<Serialized, OutOfMemory> {
        Ok(Serialized::Request(HttpRequest {
            method: Text::from_static("POST"),
            uri: self.path.clone()?,
            headers: Headers::new(),
            body: Body::Bytes(input.bytes.clone()?),
        }))
    }
}

/// Reads outputs of one kind, and the service's errors.
#[derive(Clone, Copy, Debug, PartialEq, Eq)]
pub struct BakeryDeserializer {
    /// The kind of the operation's output.
    pub output_kind: u32,
}

impl DeserializeResponse for BakeryDeserializer {
    ghost use Rattle.std.specs.Prelude.{◌≡◌, None};
    ghost use Rattle.example_bakery_service.specs.Service.{read_outcome};

    ghost streams = { λ _ _ _ outcome. outcome ≡ None };

    ghost deserializes = { λ d response _ outcome. outcome ≡ read_outcome d.output_kind response };

    fn deserialize_streaming(
        &self,
        _alloc: Global,
        _response: &HttpResponse,
        _settings: &Settings,
    ) -> Result<Option<Outcome>, OutOfMemory> {
        Ok(None)
    }

    fn deserialize_nonstreaming(
        &self,
        _alloc: Global,
        response: &HttpResponse,
        _settings: &Settings,
    ) -> Result<Outcome, OutOfMemory> {
        read_outcome(self.output_kind, response)
    }
}

// What a response comes to.
fn read_outcome(kind: u32, response: &HttpResponse) -> Result<Outcome, OutOfMemory>
    ensures { IfOk result (λ outcome. outcome ≡ read_outcome kind response.now) }
{
    if response.status == 200 {
        let bytes = body_bytes(&response.body)?;
        return Ok(Outcome::Output(Payload { kind, bytes }));
    }
    if !is_modelled(response.status) {
        return Ok(failed(FaultKind::Response, "unknown status"));
    }
    let bytes = body_bytes(&response.body)?;
    let kind = FaultKind::Operation(Payload { kind: ERROR, bytes });
    Ok(failed(kind, "refused by the bakery"))
}

// Whether a response of this status has an error of the model.
fn is_modelled(status: u16) -> bool
    ensures { result ≡ is_modelled status }
{
    status == 404 || status == 429
}

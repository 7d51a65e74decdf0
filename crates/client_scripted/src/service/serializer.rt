//! How an input becomes a request.
ghost use Rattle.client_scripted.specs.Service.Service.{posted};

use client_auth::{SerializeRequest, Serialized};
use smithy_context::Settings;
use smithy_types::{Body, Headers, HttpRequest, OutOfMemory, Payload, Text};
use std::alloc::Global;

/// Makes `POST /` of an input, with the input's bytes as its body.
#[derive(Clone, Copy, Debug, PartialEq, Eq)]
pub struct ServiceSerializer;

impl SerializeRequest for ServiceSerializer {
    ghost use Rattle.std.specs.Prelude.{◌≡◌};
    ghost use Rattle.client_auth.specs.declared.serializer.Serialized.TheVariants.{Request};
    ghost use Rattle.client_scripted.specs.Service.Service.{posted};

    ghost serializes = { λ _ input settings serialized. serialized ≡ Request (posted input) };

    fn serialize(
        &self,
        _alloc: Global,
        input: &Payload,
        _settings: &Settings,
    ) -> Result<Serialized, OutOfMemory> {
        Ok(Serialized::Request(HttpRequest {
            method: Text::from_static("POST"),
            uri: Text::from_static("/"),
            headers: Headers::new(),
            body: Body::Bytes(input.bytes.clone()?),
        }))
    }
}

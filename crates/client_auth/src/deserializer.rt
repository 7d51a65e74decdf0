//! What makes an outcome of a response.

use smithy_context::Settings;
use smithy_types::{HttpResponse, OutOfMemory, Outcome};
use std::alloc::Global;

/// Makes outputs and errors of responses.
pub trait DeserializeResponse: Drop {
    ghost use Rattle.std.specs.Prelude.{◌≡◌, IfOk, Option};
    ghost use Rattle.smithy_context.specs.StandingLayers.{StandingLayers};
    ghost use Rattle.smithy_types.specs.declared.fault.Outcome.{Outcome};
    ghost use Rattle.smithy_types.specs.declared.http.HttpResponse.{HttpResponse};

    /// What a response may become by its head alone; none where the operation doesn't stream.
    ghost streams: { Self → HttpResponse → StandingLayers → Option Outcome → Type 0 };

    /// What a response that was read whole may become.
    ghost deserializes: { Self → HttpResponse → StandingLayers → Outcome → Type 0 };

    /// Makes an outcome of the response's head, where the operation streams. None means that it
    /// doesn't, and that the body is read first.
    fn deserialize_streaming(
        &self,
        alloc: Global,
        response: &HttpResponse,
        settings: &Settings,
    ) -> Result<Option<Outcome>, OutOfMemory>
        ensures { IfOk result (λ o. streams self.now response.now settings.now o) };

    /// Makes an outcome of the response, whose body was read.
    fn deserialize_nonstreaming(
        &self,
        alloc: Global,
        response: &HttpResponse,
        settings: &Settings,
    ) -> Result<Outcome, OutOfMemory>
        ensures { IfOk result (λ o. deserializes self.now response.now settings.now o) };
}

/// The deserializer that a caller brings.
#[derive(Drop)]
pub enum Deserializer {
    /// A box that the caller brings.
    Boxed(Box<dyn DeserializeResponse>),
}

impl DeserializeResponse for Deserializer {
    ghost use Rattle.client_auth.specs.declared.deserializer.Deserializer.TheVariants.{Boxed};

    ghost streams = { elim [ Boxed b ↦ (DeserializeResponse-box b).streams b.value ] };

    ghost deserializes = { elim [ Boxed b ↦ (DeserializeResponse-box b).deserializes b.value ] };

    fn deserialize_streaming(
        &self,
        alloc: Global,
        response: &HttpResponse,
        settings: &Settings,
    ) -> Result<Option<Outcome>, OutOfMemory> {
        match self {
            Deserializer::Boxed(boxed) => boxed.deserialize_streaming(alloc, response, settings),
        }
    }

    fn deserialize_nonstreaming(
        &self,
        alloc: Global,
        response: &HttpResponse,
        settings: &Settings,
    ) -> Result<Outcome, OutOfMemory> {
        match self {
            Deserializer::Boxed(boxed) => {
                boxed.deserialize_nonstreaming(alloc, response, settings)
            }
        }
    }
}

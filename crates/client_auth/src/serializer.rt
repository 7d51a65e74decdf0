//! What makes a request of an input.

use smithy_context::Settings;
use smithy_types::{HttpRequest, OutOfMemory, Payload, Text};
use std::alloc::Global;

/// What became of an input.
#[derive(Debug, Drop)]
pub enum Serialized {
    /// The request.
    Request(HttpRequest),
    /// Why it can't be made a request.
    Failed(Text),
}

/// Makes requests of inputs.
pub trait SerializeRequest: Drop {
    ghost use Rattle.std.specs.Prelude.{◌≡◌, IfOk};
    ghost use Rattle.smithy_context.specs.StandingLayers.{StandingLayers};
    ghost use Rattle.smithy_types.specs.declared.payload.Payload.{Payload};
    ghost use Rattle.client_auth.specs.declared.serializer.Serialized.{Serialized};

    /// What an input may become under these settings.
    ghost serializes: { Self → Payload → StandingLayers → Serialized → Type 0 };

    /// Makes a request of the input.
    fn serialize(
        &self,
        alloc: Global,
        input: &Payload,
        settings: &Settings,
    ) -> Result<Serialized, OutOfMemory>
        ensures { IfOk result (λ s. serializes self.now input.now settings.now s) };
}

/// The serializer that a caller brings.
#[derive(Drop)]
pub enum Serializer {
    /// A box that the caller brings.
    Boxed(Box<dyn SerializeRequest>),
}

impl SerializeRequest for Serializer {
    ghost use Rattle.client_auth.specs.declared.serializer.Serializer.TheVariants.{Boxed};

    ghost serializes = { elim [ Boxed b ↦ (SerializeRequest-box b).serializes b.value ] };

    fn serialize(
        &self,
        alloc: Global,
        input: &Payload,
        settings: &Settings,
    ) -> Result<Serialized, OutOfMemory> {
        match self {
            Serializer::Boxed(boxed) => boxed.serialize(alloc, input, settings),
        }
    }
}

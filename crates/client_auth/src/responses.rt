//! What a deserializer makes of a response.
ghost use Rattle.std.specs.Prelude.{◌≡◌, IfOk};
ghost use Rattle.client_auth.specs.Responses.{body_bytes};

use smithy_types::{Blob, Body, Fault, FaultKind, OutOfMemory, Outcome, Text};

/// The bytes of a body, none where they are gone. Nothing is copied.
pub fn body_bytes(body: &Body) -> Result<Blob, OutOfMemory>
    ensures { IfOk result (λ bytes. bytes ≡ body_bytes body.now) }
{
    match body {
        Body::Bytes(bytes) => Ok(bytes.clone()?),
        Body::Once(bytes) => Ok(bytes.clone()?),
        Body::Taken => Ok(Blob::new()),
    }
}

/// A failure of this kind with this text.
pub fn failed(kind: FaultKind, text: &'static str) -> Outcome
    ensures { result ≡ Outcome.Failed (record { kind = kind; text = text.now }) }
{
    Outcome::Failed(Fault {
        kind,
        text: Text::from_static(text),
    })
}

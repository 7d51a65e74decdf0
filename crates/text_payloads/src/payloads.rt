//! The payload that a text is, and the text that a payload is.
ghost use Rattle.std.specs.Prelude.{◌≡◌, true, false, IfOk, MatchOption};
ghost use Rattle.std.specs.Str.{is_utf8};
ghost use Rattle.text_payloads.specs.Text.{is_text};

use smithy_types::{Blob, OutOfMemory, Payload, Text};
use std::alloc::Global;

/// The payload of this kind that a text is: its bytes. `OutOfMemory` where there is no memory for
/// them.
pub fn text_payload(alloc: Global, kind: u32, text: &Text) -> Result<Payload, OutOfMemory>
    ensures value { IfOk result (λ p. p ≡ record { kind = kind; bytes = text.now }) }
    ensures accepted { IfOk result (λ p. is_text kind p ≡ true) }
{
    let bytes = text.as_str().as_bytes();
    Ok(Payload {
        kind,
        bytes: Blob::from_slice(alloc, bytes)?,
    })
}

/// The text that a payload of this kind is. `None` where the payload is of another kind, or its
/// bytes aren't UTF-8; `OutOfMemory` where there is no memory for the text.
pub fn read_text(alloc: Global, kind: u32, payload: &Payload) -> Result<Option<Text>, OutOfMemory>
    ensures { IfOk result (λ found. MatchOption found
        (is_text kind payload.now ≡ false)
        (λ text. (is_text kind payload.now ≡ true) × (text ≡ payload.now.bytes))) }
{
    if payload.kind != kind {
        return Ok(None);
    }
    let text = read_utf8(alloc, payload.bytes.as_slice())?;
    Ok(text)
}

// The text that these bytes are, where they are UTF-8.
fn read_utf8(alloc: Global, bytes: &[u8]) -> Result<Option<Text>, OutOfMemory>
    ensures { IfOk result (λ found. MatchOption found
        (is_utf8 bytes.now ≡ false)
        (λ text. (is_utf8 bytes.now ≡ true) × (text ≡ bytes.now))) }
{
    match str::from_utf8(bytes) {
        Ok(text) => Ok(Some(Text::from_str(alloc, text)?)),
        Err(_) => Ok(None),
    }
}

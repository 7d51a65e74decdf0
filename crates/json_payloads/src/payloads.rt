//! The payload that a value is, and the value that a payload is.
ghost use Rattle.std.specs.Prelude.{◌≡◌, ◌≤◌, true, false, IfOk, IfSome, MatchOption};
ghost use Rattle.serde_json.specs.Data.{depth};
ghost use Rattle.serde_json.specs.Read.{max_depth};
ghost use Rattle.serde_json.specs.View.{view};
ghost use Rattle.json_payloads.specs.Payloads.{accepts, data_of_bytes, message_in, reads_as, value_in};
ghost use Rattle.json_payloads.specs.Reading.{Gives, Reads};

use crate::reading::read_text;
use crate::{JsonForm, Object, ReadError, Refusal, Value, read_str};
use smithy_types::{Blob, OutOfMemory, Payload, Text};
use std::alloc::Global;

/// The payload of this kind that a value is: compact JSON. `OutOfMemory` where there is no memory
/// for it.
pub fn json_payload<T: JsonForm>(
    alloc: Global,
    kind: u32,
    value: &T,
) -> Result<Payload, OutOfMemory>
    requires { T.form.levels ≤ max_depth }
    ensures accepted { IfOk result (λ p. accepts T.form kind p ≡ true) }
    ensures same { IfOk result (λ p. reads_as T.form kind p value.now) }
{
    let value = value.print(alloc)?;
    let bytes = bytes_of(alloc, &value)?;
    Ok(Payload { kind, bytes })
}

// The bytes of the text that the value prints as.
#[tactic(auto, using(crate::proofs::Texts::its_data), unfolding(crate::specs::Payloads::data_of_bytes))]
pub(crate) fn bytes_of(alloc: Global, value: &Value) -> Result<Blob, OutOfMemory>
    ensures { IfOk result (λ b. depth (view value.now) ≤ max_depth
        → data_of_bytes b ≡ Some (view value.now)) }
{
    let text = value.to_vec(alloc)?;
    Blob::from_vec(text)
}

/// The value that a payload of this kind is. `None` where the payload is of another kind, or isn't
/// the JSON of a value. `OutOfMemory` where there is no memory for it.
pub fn read_json<T: JsonForm>(
    alloc: Global,
    kind: u32,
    payload: &Payload,
) -> Result<Option<T>, OutOfMemory>
    ensures accepted { IfOk result (λ r. MatchOption r
        (accepts T.form kind payload.now ≡ false)
        (λ _. accepts T.form kind payload.now ≡ true)) }
    ensures reads { IfOk result (λ r. IfSome r (λ x. reads_as T.form kind payload.now x)) }
{
    match read_payload(alloc, kind, payload) {
        Ok(value) => Ok(Some(value)),
        Err(ReadError::Refused(_)) => Ok(None),
        Err(ReadError::Memory) => Err(OutOfMemory),
    }
}

/// The value that a payload of this kind is. `Refused` where it is none, with the reason.
pub fn read_payload<T: JsonForm>(
    alloc: Global,
    kind: u32,
    payload: &Payload,
) -> Result<T, ReadError>
    ensures { Reads result (value_in T.form kind payload.now) }
{
    if payload.kind != kind {
        return Err(ReadError::Refused(Refusal::OtherKind));
    }
    let value = read_bytes(alloc, payload.bytes.as_slice())?;
    T::read(alloc, &value)
}

// The value whose text the bytes are.
#[tactic(auto, using(crate::proofs::Texts::by_utf8), unfolding(crate::specs::Payloads::data_of_bytes))]
pub(crate) fn read_bytes(alloc: Global, bytes: &[u8]) -> Result<Value, ReadError>
    ensures { Gives view result (data_of_bytes bytes.now) }
{
    match str::from_utf8(bytes) {
        Ok(text) => read_text(alloc, text),
        Err(_) => Err(ReadError::Refused(Refusal::NotText)),
    }
}

/// The payload of an error with a message, or with none. `OutOfMemory` where there is no memory
/// for it.
#[tactic(auto, unfolding(crate::specs::Placed::put_some))]
pub fn message_payload(
    alloc: Global,
    kind: u32,
    message: &Option<Text>,
) -> Result<Payload, OutOfMemory>
    ensures kind { IfOk result (λ p. p.kind ≡ kind) }
    ensures message { IfOk result (λ p. message_in p ≡ message.now) }
{
    let mut object = Object::new(alloc);
    object.put_optional("message", message)?;
    let bytes = bytes_of(alloc, &object.finish())?;
    Ok(Payload { kind, bytes })
}

/// The message of an error. `None` where there is none, also where the payload isn't JSON, as the
/// HTML of a gateway.
pub fn read_message(alloc: Global, payload: &Payload) -> Result<Option<Text>, OutOfMemory>
    ensures { IfOk result (λ message. message ≡ message_in payload.now) }
{
    match message_of(alloc, payload) {
        Ok(message) => Ok(Some(message)),
        Err(ReadError::Refused(_)) => Ok(None),
        Err(ReadError::Memory) => Err(OutOfMemory),
    }
}

fn message_of(alloc: Global, payload: &Payload) -> Result<Text, ReadError>
    ensures { Reads result (message_in payload.now) }
{
    let value = read_bytes(alloc, payload.bytes.as_slice())?;
    match value.get("message") {
        Some(message) => Ok(Text::from_str(alloc, read_str(message)?)?),
        None => Err(ReadError::Refused(Refusal::Missing)),
    }
}

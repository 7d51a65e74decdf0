//! Bytes, as a text of Base64.
ghost use Rattle.std.specs.Prelude.{◌≡◌, true, IfOk};
ghost use Rattle.serde_json.specs.View.{view};
ghost use Rattle.json_payloads.specs.Base64.{base64_data, base64_fits, bytes_in};
ghost use Rattle.json_payloads.specs.Reading.{Gives};

use crate::{JsonForm, ReadError, Refusal, Value, read_str};
use base64::DecodeAllocError;
use base64::engine::general_purpose::STANDARD;
use smithy_types::{Blob, OutOfMemory};
use std::alloc::Global;

impl JsonForm for Blob {
    ghost use Rattle.json_payloads.specs.Base64.{base64};

    ghost form = { base64 };

    fn print(&self, alloc: Global) -> Result<Value, OutOfMemory> {
        print_bytes(alloc, self.as_slice())
    }

    #[tactic(auto, unfolding(crate::specs::Base64::base64_at))]
    fn read(alloc: Global, value: &Value) -> Result<Blob, ReadError> {
        let text = read_str(value)?;
        let bytes = read_bytes(alloc, text)?;
        Ok(Blob::from_vec(bytes)?)
    }
}

#[tactic(auto, using(crate::proofs::Texts::same_bytes), unfolding(crate::specs::Base64::base64_data, crate::specs::Base64::base64_fits))]
fn print_bytes(alloc: Global, bytes: &[u8]) -> Result<Value, OutOfMemory>
    ensures value { IfOk result (λ v. view v ≡ base64_data bytes.now) }
    ensures fits { IfOk result (λ _. base64_fits bytes.now ≡ true) }
{
    let text = STANDARD.encode(alloc, bytes)?;
    Ok(Value::String(text))
}

// The bytes that a text of Base64 is.
fn read_bytes(alloc: Global, text: &str) -> Result<Vec<u8>, ReadError>
    ensures { Gives (λ v. v.items) result (bytes_in text.now) }
{
    match STANDARD.decode(alloc, text.as_bytes()) {
        Ok(bytes) => Ok(bytes),
        Err(DecodeAllocError::OutOfMemory) => Err(ReadError::Memory),
        Err(_) => Err(ReadError::Refused(Refusal::Misspelled)),
    }
}

//! Reading of JSON, and why it reads as no value.
ghost use Rattle.std.specs.Prelude.{◌≡◌};
ghost use Rattle.serde_json.specs.Find.{as_bool, as_str};
ghost use Rattle.serde_json.specs.Read.{read};
ghost use Rattle.serde_json.specs.View.{view};
ghost use Rattle.json_payloads.specs.Reading.{Reads, Gives};

use serde_json::Value;
use smithy_types::OutOfMemory;
use std::alloc::{AllocError, AllocFailed, Global};

/// Why a value was not read.
#[derive(Clone, Copy, Debug, PartialEq, Eq)]
pub enum ReadError {
    /// An allocation was refused.
    Memory,
    /// The payload is no such value.
    Refused(Refusal),
}

/// Why a payload is no such value.
#[derive(Clone, Copy, Debug, PartialEq, Eq)]
pub enum Refusal {
    /// The payload is of another kind.
    OtherKind,
    /// The bytes aren't UTF-8.
    NotText,
    /// The text isn't JSON, or it nests deeper than 127 levels.
    NotJson,
    /// A member that must be there is absent.
    Missing,
    /// A value is of another type of JSON.
    WrongType,
    /// A number is no whole one, or not within the bounds of its type.
    OutOfRange,
    /// A text isn't one of the names, or not spelled as its type asks.
    Misspelled,
    /// An object has a member for no case of the union.
    NoCase,
}

impl From<AllocError> for ReadError {
    ghost use Rattle.json_payloads.specs.declared.reading.ReadError.TheVariants.{Memory};

    ghost from_gives = { λ _ e. e ≡ Memory };

    fn from(_error: AllocError) -> ReadError {
        ReadError::Memory
    }
}

impl<T: Drop> From<AllocFailed<T>> for ReadError {
    ghost use Rattle.json_payloads.specs.declared.reading.ReadError.TheVariants.{Memory};

    ghost from_gives = { λ _ e. e ≡ Memory };

    fn from(_failed: AllocFailed<T>) -> ReadError {
        ReadError::Memory
    }
}

impl From<OutOfMemory> for ReadError {
    ghost use Rattle.json_payloads.specs.declared.reading.ReadError.TheVariants.{Memory};

    ghost from_gives = { λ _ e. e ≡ Memory };

    fn from(_error: OutOfMemory) -> ReadError {
        ReadError::Memory
    }
}

/// The text that stands here.
pub fn read_str(value: &Value) -> Result<&str, ReadError>
    ensures { Gives (λ s. s.now) result (as_str (view value.now)) }
{
    match value.as_str() {
        Some(text) => Ok(text),
        None => Err(ReadError::Refused(Refusal::WrongType)),
    }
}

/// The truth value that stands here.
pub(crate) fn read_bool(value: &Value) -> Result<bool, ReadError>
    ensures { Reads result (as_bool (view value.now)) }
{
    match value.as_bool() {
        Some(truth) => Ok(truth),
        None => Err(ReadError::Refused(Refusal::WrongType)),
    }
}

/// The value that a text spells.
pub(crate) fn read_text(alloc: Global, text: &str) -> Result<Value, ReadError>
    ensures { Gives view result (read text.now) }
{
    match Value::from_str(alloc, text) {
        Ok(value) => Ok(value),
        Err(error) => {
            if error.is_memory() {
                Err(ReadError::Memory)
            } else {
                Err(ReadError::Refused(Refusal::NotJson))
            }
        }
    }
}

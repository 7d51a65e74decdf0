//! Finite floats.
ghost use Rattle.std.specs.Prelude.{◌≡◌, true, IfSome};
ghost use Rattle.std.specs.Float.{float_is_finite};
ghost use Rattle.serde_json.specs.View.{view};
ghost use Rattle.json_payloads.specs.Floats.{double_at, finite};
ghost use Rattle.json_payloads.specs.Reading.{Reads};

use crate::{JsonForm, ReadError, Refusal, Value};
use smithy_types::OutOfMemory;
use std::alloc::Global;
use std::marker::Model;

/// A finite float of 64 bits. JSON has no number for others.
#[derive(Debug, Drop)]
pub struct Double {
    value: f64,
}

impl Model for Double {
    ghost use Rattle.std.specs.Prelude.{◌≡◌, Float, true};
    ghost use Rattle.std.specs.Float.{float_is_finite};

    ghost Value = { Float };

    ghost view = { λ d. d.value };

    ghost invariant = { λ d. float_is_finite d.value ≡ true };
}

impl Double {
    /// This float. `None` where it isn't finite.
    pub fn new(value: f64) -> Option<Double>
        ensures { result ≡ finite value }
    {
        if value.is_finite() {
            Some(Double { value })
        } else {
            None
        }
    }

    /// The float.
    pub fn get(&self) -> f64
        ensures value { result ≡ self.now }
        ensures finite { float_is_finite self.now ≡ true }
    {
        self.value
    }
}

impl JsonForm for Double {
    ghost use Rattle.json_payloads.specs.Floats.{double};

    ghost form = { double };

    fn print(&self, _alloc: Global) -> Result<Value, OutOfMemory> {
        Ok(Value::from(self.get()))
    }

    fn read(_alloc: Global, value: &Value) -> Result<Double, ReadError> {
        match value.as_f64() {
            Some(number) => finite_only(number),
            None => Err(ReadError::Refused(Refusal::WrongType)),
        }
    }
}

// The float, where it is finite.
fn finite_only(number: f64) -> Result<Double, ReadError>
    ensures { Reads result (finite number) }
{
    match Double::new(number) {
        Some(number) => Ok(number),
        None => Err(ReadError::Refused(Refusal::OutOfRange)),
    }
}

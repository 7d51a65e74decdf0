//! Types whose values stand in JSON.
ghost use Rattle.std.specs.Prelude.{◌≡◌, true, IfOk};
ghost use Rattle.serde_json.specs.View.{view};
ghost use Rattle.json_payloads.specs.Forms.{Form, present_at};
ghost use Rattle.json_payloads.specs.Reading.{Reads};

use crate::reading::{read_bool, read_str};
use crate::{ReadError, Value};
use smithy_types::{OutOfMemory, Text};
use std::alloc::Global;

/// A type whose values stand in JSON: as whole values, as items of lists and as members of objects.
pub trait JsonForm {
    ghost use Rattle.std.specs.Prelude.{◌≡◌, true, IfOk};
    ghost use Rattle.serde_json.specs.View.{view};
    ghost use Rattle.json_payloads.specs.Forms.{Form};
    ghost use Rattle.json_payloads.specs.Reading.{Reads};

    /// What stands for a value, and what is read of data.
    ghost form: { Form Self };

    /// What stands for this value. `OutOfMemory` where there is no memory for it.
    fn print(&self, alloc: Global) -> Result<Value, OutOfMemory>
        ensures value { IfOk result (λ v. view v ≡ form.prints self.now) }
        ensures fits { IfOk result (λ _. form.fits self.now ≡ true) };

    /// The value that stands here. `Refused` where there is none.
    fn read(alloc: Global, value: &Value) -> Result<Self, ReadError>
    where
        Self: Sized,
        ensures { Reads result (form.reads (view value.now)) };
}

impl JsonForm for Text {
    ghost use Rattle.json_payloads.specs.Forms.{text};

    ghost form = { text };

    fn print(&self, alloc: Global) -> Result<Value, OutOfMemory> {
        Ok(Value::String(String::from_str(alloc, self.as_str())?))
    }

    fn read(alloc: Global, value: &Value) -> Result<Text, ReadError> {
        Ok(Text::from_str(alloc, read_str(value)?)?)
    }
}

impl JsonForm for bool {
    ghost use Rattle.json_payloads.specs.Forms.{truth};

    ghost form = { truth };

    fn print(&self, _alloc: Global) -> Result<Value, OutOfMemory> {
        Ok(Value::Bool(*self))
    }

    fn read(_alloc: Global, value: &Value) -> Result<bool, ReadError> {
        read_bool(value)
    }
}

/// A value, or `None` where null stands.
#[tactic(auto, unfolding(crate::specs::Forms::present_at))]
pub(crate) fn read_present<T: JsonForm>(
    alloc: Global,
    value: &Value,
) -> Result<Option<T>, ReadError>
    ensures { Reads result (present_at T.form (view value.now)) }
{
    match value {
        Value::Null => Ok(None),
        _ => Ok(Some(T::read(alloc, value)?)),
    }
}

//! Values that are payloads of a kind.
ghost use Rattle.std.specs.Prelude.{◌≡◌};

use crate::{JsonForm, json_payload, read_json};
use smithy_types::{OutOfMemory, Payload, Text, Wire};
use std::alloc::{AllocError, Global};
use std::marker::Model;

/// A type whose values may be whole payloads.
pub trait JsonPayload: JsonForm {
    ghost use Rattle.std.specs.Prelude.{◌≡◌, true, nat_le};
    ghost use Rattle.serde_json.specs.Read.{max_depth};

    /// Its values nest no deeper than a reader goes. Where the form is a table, `refl` shows it.
    ghost nests: { nat_le Self.form.levels max_depth ≡ true };
}

impl JsonPayload for Text {
    ghost use Rattle.std.specs.Prelude.{refl};

    ghost nests = { refl };
}

/// A value whose payload is of this kind, and is its JSON.
#[derive(Debug, Drop)]
pub struct Json<T, const KIND: u32> {
    value: T,
}

impl<T, const KIND: u32> Model for Json<T, KIND> {
    ghost Value = { T };

    ghost view = { λ json. json.value };
}

impl<T, const KIND: u32> Json<T, KIND> {
    /// The value, to be a payload.
    pub fn new(value: T) -> Json<T, KIND>
        ensures { result ≡ value }
    {
        Json { value }
    }

    /// The value.
    pub fn get(&self) -> &T
        ensures { result.now ≡ self.now }
    {
        &self.value
    }

    /// The value, of which this is no more a payload.
    pub fn into_value(self) -> T
        ensures { result ≡ self }
    {
        let Json { value } = self;
        value
    }
}

impl<T: Clone, const KIND: u32> Clone for Json<T, KIND> {
    ghost is_clone = { λ json copy. T.is_clone json copy };

    fn clone(&self) -> Result<Json<T, KIND>, AllocError> {
        Ok(Json {
            value: self.value.clone()?,
        })
    }
}

impl<T: JsonPayload, const KIND: u32> Wire for Json<T, KIND> {
    ghost use Rattle.json_payloads.specs.Payloads.{
      accepts as accepts_form,
      one_value as one_of_form,
      reads_as as reads_as_form,
    };

    ghost accepts = { accepts_form T.form KIND };

    ghost reads_as = { reads_as_form T.form KIND };

    ghost one_value = { one_of_form T.form KIND };

    fn to_payload(&self, alloc: Global) -> Result<Payload, OutOfMemory> {
        json_payload(alloc, KIND, &self.value)
    }

    fn from_payload(
        alloc: Global,
        payload: &Payload,
    ) -> Result<Option<Json<T, KIND>>, OutOfMemory> {
        match read_json(alloc, KIND, payload)? {
            Some(value) => Ok(Some(Json::new(value))),
            None => Ok(None),
        }
    }
}

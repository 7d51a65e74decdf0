//! Objects with a member for each field.
ghost use Rattle.std.specs.Prelude.{◌≡◌, true, OnOk, option_map};
ghost use Rattle.serde_json.specs.Data.{object, no_members, put};
ghost use Rattle.serde_json.specs.View.{view};
ghost use Rattle.json_payloads.specs.Forms.{option_fits};
ghost use Rattle.json_payloads.specs.Making.{fits_of, members_in};
ghost use Rattle.json_payloads.specs.Objects.{object_at};
ghost use Rattle.json_payloads.specs.Placed.{put_some};
ghost use Rattle.json_payloads.specs.Reading.{Gives};

use crate::{JsonForm, ReadError, Refusal, Value};
use serde_json::{Map, put};
use smithy_types::OutOfMemory;
use std::alloc::Global;

/// The members of an object that is being made.
#[derive(Drop)]
pub struct Object {
    alloc: Global,
    members: Map<String, Value>,
}

impl Object {
    /// No members.
    pub fn new(alloc: Global) -> Object
        ensures { members_in result ≡ no_members }
    {
        Object {
            alloc,
            members: Map::new(alloc),
        }
    }

    /// Adds a member. `OutOfMemory` where there is no memory for it.
    pub fn put<T: JsonForm>(&mut self, name: &str, value: &T) -> Result<(), OutOfMemory>
        ensures members { OnOk result (members_in self.new
            ≡ put name.now (T.form.prints value.now) (members_in self.old)) }
        ensures fits { OnOk result (T.form.fits value.now ≡ true) }
    {
        let value = value.print(self.alloc)?;
        put(&mut self.members, self.alloc, name, value)?;
        Ok(())
    }

    /// Adds a member where there is a value. `OutOfMemory` where there is no memory for it.
    #[tactic(auto, unfolding(crate::specs::Placed::put_some))]
    pub fn put_optional<T: JsonForm>(
        &mut self,
        name: &str,
        value: &Option<T>,
    ) -> Result<(), OutOfMemory>
        ensures members { OnOk result (members_in self.new
            ≡ put_some name.now (option_map T.form.prints value.now) (members_in self.old)) }
        ensures fits { OnOk result (option_fits T.form.fits value.now ≡ true) }
    {
        match value {
            Some(value) => self.put(name, value),
            None => Ok(()),
        }
    }

    /// The object. It takes no memory.
    #[tactic(auto, unfolding(crate::specs::Making::fits_of))]
    pub fn finish(self) -> Value
        ensures value { view result ≡ object (members_in self) }
        ensures fits { fits_of self ≡ true }
    {
        Value::Object(self.members)
    }
}

/// The value, where it is an object.
#[tactic(auto, unfolding(crate::specs::Objects::object_at))]
pub(crate) fn read_object(value: &Value) -> Result<&Value, ReadError>
    ensures { Gives (λ v. view v.now) result (object_at (view value.now)) }
{
    match value {
        Value::Object(_) => Ok(value),
        _ => Err(ReadError::Refused(Refusal::WrongType)),
    }
}

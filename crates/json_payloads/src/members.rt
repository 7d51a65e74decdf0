//! The members of an object, all at once.
ghost use Rattle.std.specs.Prelude.{◌≡◌, map};
ghost use Rattle.serde_json.specs.Find.{get};
ghost use Rattle.serde_json.specs.View.{view};
ghost use Rattle.json_payloads.specs.Members.{first_of, rest_of};
ghost use Rattle.json_payloads.specs.Objects.{members_at, optional_at, required_at};
ghost use Rattle.json_payloads.specs.Reading.{Reads};

use crate::forms::read_present;
use crate::objects::read_object;
use crate::{JsonForm, Object, ReadError, Refusal, Value};
use smithy_types::OutOfMemory;
use std::alloc::Global;

/// A type whose values are members of objects, and may be absent there.
pub trait JsonMember {
    ghost use Rattle.std.specs.Prelude.{◌≡◌, true, OnOk};
    ghost use Rattle.serde_json.specs.Find.{get};
    ghost use Rattle.serde_json.specs.View.{view};
    ghost use Rattle.json_payloads.specs.Making.{members_in};
    ghost use Rattle.json_payloads.specs.Objects.{Field};
    ghost use Rattle.json_payloads.specs.Placed.{put_some};
    ghost use Rattle.json_payloads.specs.Reading.{Reads};

    /// What stands for a member, and what is read of one.
    ghost member: { Field Self };

    /// The member of this name. `Refused` where there is no such value.
    fn member(alloc: Global, object: &Value, name: &str) -> Result<Self, ReadError>
    where
        Self: Sized,
        ensures { Reads result (member.reads (get name.now (view object.now))) };

    /// Adds the member under this name, where there is a value. `OutOfMemory` where there is no
    /// memory for it.
    fn put_member(&self, object: &mut Object, name: &str) -> Result<(), OutOfMemory>
        ensures members { OnOk result (members_in object.new
            ≡ put_some name.now (member.prints self.now) (members_in object.old)) }
        ensures fits { OnOk result (member.fits self.now ≡ true) };
}

impl<T: JsonForm> JsonMember for T {
    ghost use Rattle.json_payloads.specs.Objects.{required_field};

    ghost member = { required_field T.form };

    fn member(alloc: Global, object: &Value, name: &str) -> Result<T, ReadError> {
        read_required(alloc, object, name)
    }

    #[tactic(auto, unfolding(crate::specs::Placed::put_some))]
    fn put_member(&self, object: &mut Object, name: &str) -> Result<(), OutOfMemory> {
        object.put(name, self)
    }
}

impl<T: JsonForm> JsonMember for Option<T> {
    ghost use Rattle.json_payloads.specs.Objects.{optional_field};

    ghost member = { optional_field T.form };

    fn member(alloc: Global, object: &Value, name: &str) -> Result<Option<T>, ReadError> {
        read_optional(alloc, object, name)
    }

    fn put_member(&self, object: &mut Object, name: &str) -> Result<(), OutOfMemory> {
        object.put_optional(name, self)
    }
}

// A member of an object. Null is absent.
#[tactic(auto, unfolding(crate::specs::Objects::required_at))]
fn read_required<T: JsonForm>(alloc: Global, value: &Value, name: &str) -> Result<T, ReadError>
    ensures { Reads result (required_at T.form (get name.now (view value.now))) }
{
    match value.get(name) {
        Some(value) if !value.is_null() => T::read(alloc, value),
        _ => Err(ReadError::Refused(Refusal::Missing)),
    }
}

// A member of an object that may be absent, or null.
#[tactic(auto, unfolding(crate::specs::Objects::optional_at))]
fn read_optional<T: JsonForm>(
    alloc: Global,
    value: &Value,
    name: &str,
) -> Result<Option<T>, ReadError>
    ensures { Reads result (optional_at T.form (get name.now (view value.now))) }
{
    match value.get(name) {
        Some(value) => read_present(alloc, value),
        None => Ok(None),
    }
}

/// Members by their names, as pairs: the first, and the others.
pub trait JsonMembers {
    ghost use Rattle.std.specs.Prelude.{List, ℕ, map};
    ghost use Rattle.serde_json.specs.View.{view};
    ghost use Rattle.json_payloads.specs.Objects.{Fields};
    ghost use Rattle.json_payloads.specs.Reading.{Reads};

    /// The members of these names.
    ghost members: { List (List ℕ) → Fields Self };

    /// The members of these names. `Refused` where one of them is no such value.
    fn members(alloc: Global, object: &Value, names: &[&str]) -> Result<Self, ReadError>
    where
        Self: Sized,
        ensures { Reads result ((members (map (λ n. n.now) names.now)).reads (view object.now)) };
}

impl JsonMembers for () {
    ghost use Rattle.json_payloads.specs.Objects.{done};

    ghost members = { λ names. done };

    fn members(_alloc: Global, _object: &Value, _names: &[&str]) -> Result<(), ReadError> {
        Ok(())
    }
}

impl<A: JsonMember + Drop, R: JsonMembers> JsonMembers for (A, R) {
    ghost use Rattle.json_payloads.specs.Members.{first_of, rest_of};
    ghost use Rattle.json_payloads.specs.Objects.{◌⊗◌};

    ghost members = { λ names. (first_of names, A.member) ⊗ R.members (rest_of names) };

    fn members(alloc: Global, object: &Value, names: &[&str]) -> Result<(A, R), ReadError> {
        let first = A::member(alloc, object, first_of(names))?;
        let rest = R::members(alloc, object, rest_of(names))?;
        Ok((first, rest))
    }
}

// The first of the names.
pub(crate) fn first_of<'a>(names: &[&'a str]) -> &'a str
    ensures { result.now ≡ first_of (map (λ n. n.now) names.now) }
{
    match names {
        [first, ..] => first,
        [] => "",
    }
}

// The other names.
pub(crate) fn rest_of<'n, 'a>(names: &'n [&'a str]) -> &'n [&'a str]
    ensures { map (λ n. n.now) result.now ≡ rest_of (map (λ n. n.now) names.now) }
{
    match names {
        [_, rest @ ..] => rest,
        [] => names,
    }
}

/// The members of an object, by their names. Other members are ignored. `Refused` where the value
/// is no object, or one of the members is no such value.
pub fn read_members<F: JsonMembers>(
    alloc: Global,
    value: &Value,
    names: &[&str],
) -> Result<F, ReadError>
    ensures { Reads result
        (members_at (F.members (map (λ n. n.now) names.now)) (view value.now)) }
{
    F::members(alloc, read_object(value)?, names)
}

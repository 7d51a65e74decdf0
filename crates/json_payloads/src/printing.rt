//! The members of a value that is printed, several at once.
ghost use Rattle.std.specs.Prelude.{◌≡◌, true, IfOk, OnOk, map};
ghost use Rattle.serde_json.specs.Data.{Members, no_members, object};
ghost use Rattle.serde_json.specs.View.{view};
ghost use Rattle.json_payloads.specs.Making.{fits_of, members_in};

use crate::members::{first_of, rest_of};
use crate::{JsonMember, Object, Value};
use smithy_types::OutOfMemory;
use std::alloc::Global;

/// The members of a value, by reference, as pairs: the first, and the others.
pub trait PrintedMembers {
    ghost use Rattle.std.specs.Prelude.{◌≡◌, OnOk, List, ℕ, map};
    ghost use Rattle.json_payloads.specs.Making.{fits_of, members_in};
    ghost use Rattle.json_payloads.specs.Objects.{Fields};

    /// What the members are, by value.
    ghost Values: { Type 0 };

    /// The values of the members.
    ghost values: { Self → Self.Values };

    /// How members of these names stand in an object.
    ghost fields: { List (List ℕ) → Fields Self.Values };

    /// Adds the members under these names. `OutOfMemory` where there is no memory for them.
    fn put_members(&self, object: &mut Object, names: &[&str]) -> Result<(), OutOfMemory>
        ensures members { OnOk result (members_in object.new
            ≡ (Self.fields (map (λ n. n.now) names.now)).put_in (Self.values self.now)
            (members_in object.old)) }
        ensures fits { OnOk result (fits_of object.new
            ≡ (Self.fields (map (λ n. n.now) names.now)).fits (Self.values self.now)
            (fits_of object.old)) };
}

impl PrintedMembers for () {
    ghost use Rattle.json_payloads.specs.Objects.{done};

    ghost Values = { Unit {0} };

    ghost values = { λ _. tt };

    ghost fields = { λ names. done };

    fn put_members(&self, _object: &mut Object, _names: &[&str]) -> Result<(), OutOfMemory> {
        Ok(())
    }
}

impl<'a, A: JsonMember, R: PrintedMembers> PrintedMembers for (&'a A, R) {
    ghost use Rattle.json_payloads.specs.Members.{first_of, rest_of};
    ghost use Rattle.json_payloads.specs.Objects.{◌⊗◌};

    ghost Values = { A × R.Values };

    ghost values = { λ p. (p.0.now, R.values p.1) };

    ghost fields = { λ names. (first_of names, A.member) ⊗ R.fields (rest_of names) };

    #[tactic(auto, unfolding(crate::specs::Making::fits_of))]
    fn put_members(&self, object: &mut Object, names: &[&str]) -> Result<(), OutOfMemory> {
        let (value, rest) = self;
        value.put_member(object, first_of(names))?;
        rest.put_members(object, rest_of(names))
    }
}

/// An object with these members under these names, as `print_object!` writes it for a few members.
/// `OutOfMemory` where there is no memory for it.
#[tactic(auto, unfolding(crate::specs::Making::fits_of))]
pub fn print_members<F: PrintedMembers>(
    alloc: Global,
    names: &[&str],
    members: &F,
) -> Result<Value, OutOfMemory>
    ensures value { IfOk result (λ v. view v ≡ object
        ((F.fields (map (λ n. n.now) names.now)).put_in (F.values members.now) no_members)) }
    ensures fits { IfOk result (λ _.
        (F.fields (map (λ n. n.now) names.now)).fits (F.values members.now) true ≡ true) }
{
    let mut object = Object::new(alloc);
    members.put_members(&mut object, names)?;
    Ok(object.finish())
}

/// The object that many members are put into, with the first of them. `OutOfMemory` where there is
/// no memory for it.
#[tactic(auto, unfolding(crate::specs::Making::fits_of))]
pub fn begin_object<F: PrintedMembers>(
    alloc: Global,
    names: &[&str],
    members: &F,
) -> Result<Object, OutOfMemory>
    ensures members { IfOk result (λ o. members_in o
        ≡ (F.fields (map (λ n. n.now) names.now)).put_in (F.values members.now) no_members) }
    ensures fits { IfOk result (λ o. fits_of o
        ≡ (F.fields (map (λ n. n.now) names.now)).fits (F.values members.now) true) }
{
    let mut object = Object::new(alloc);
    members.put_members(&mut object, names)?;
    Ok(object)
}

/// Adds members to an object, behind those that stood there before, however these are told.
/// `OutOfMemory` where there is no memory for them.
pub fn add_members<F: PrintedMembers>(
    object: &mut Object,
    names: &[&str],
    members: &F,
) -> Result<(), OutOfMemory>
    ensures members { OnOk result ((before : Members) → members_in object.old ≡ before
        → members_in object.new
        ≡ (F.fields (map (λ n. n.now) names.now)).put_in (F.values members.now) before) }
    ensures fits { OnOk result (fits_of object.new
        ≡ (F.fields (map (λ n. n.now) names.now)).fits (F.values members.now)
        (fits_of object.old)) }
{
    members.put_members(object, names)?;
    Ok(())
}

/// The object with the last of its members, behind those that stood there before, however these are
/// told. `OutOfMemory` where there is no memory for them.
#[tactic(auto, unfolding(crate::specs::Making::fits_of))]
pub fn end_object<F: PrintedMembers>(
    made: Object,
    names: &[&str],
    members: &F,
) -> Result<Value, OutOfMemory>
    ensures value { IfOk result (λ v. (before : Members) → members_in made ≡ before
        → view v ≡ object
        ((F.fields (map (λ n. n.now) names.now)).put_in (F.values members.now) before)) }
    ensures fits { IfOk result (λ _. (F.fields (map (λ n. n.now) names.now)).fits
        (F.values members.now) (fits_of made) ≡ true) }
{
    let mut object = made;
    members.put_members(&mut object, names)?;
    Ok(object.finish())
}

//! Objects with one member of several.
ghost use Rattle.std.specs.Prelude.{◌≡◌, IfOk, true, map, option_map};
ghost use Rattle.serde_json.specs.Data.{object, no_members, put};
ghost use Rattle.serde_json.specs.View.{view};
ghost use Rattle.json_payloads.specs.Forms.{is_null};
ghost use Rattle.json_payloads.specs.Reading.{Reads};

use crate::members::{first_of, rest_of};
use crate::{JsonForm, Object, ReadError, Refusal, Value};
use smithy_types::OutOfMemory;
use std::alloc::Global;

/// The first case of a union, or one of the others.
#[derive(Debug, Drop)]
pub enum Case<A, R> {
    /// The first case.
    This(A),
    /// One of the others.
    Other(R),
}

/// No case: it ends a list of cases, and has no value.
#[derive(Clone, Copy)]
pub enum NoCase {}

/// The cases of a union by their names: the first, and the others.
pub trait JsonCases {
    ghost use Rattle.std.specs.Prelude.{List, ℕ, map};
    ghost use Rattle.serde_json.specs.View.{view};
    ghost use Rattle.json_payloads.specs.Reading.{Reads};
    ghost use Rattle.json_payloads.specs.Unions.{Cases};

    /// The cases of these names.
    ghost cases: { List (List ℕ) → Cases Self };

    /// The first of the cases that has a member. `Refused` where none has, or its value is no such
    /// one.
    fn case(alloc: Global, object: &Value, names: &[&str]) -> Result<Self, ReadError>
    where
        Self: Sized,
        ensures { Reads result ((cases (map (λ n. n.now) names.now)).reads (view object.now)) };
}

impl JsonCases for NoCase {
    ghost use Rattle.json_payloads.specs.Unions.{no_case};

    ghost cases = { λ names. no_case };

    fn case(_alloc: Global, _object: &Value, _names: &[&str]) -> Result<NoCase, ReadError> {
        Err(ReadError::Refused(Refusal::NoCase))
    }
}

impl<A: JsonForm + Drop, R: JsonCases> JsonCases for Case<A, R> {
    ghost use Rattle.json_payloads.specs.Members.{first_of, rest_of};
    ghost use Rattle.json_payloads.specs.Unions.{◌⊕◌};

    ghost cases = { λ names. (first_of names, A.form) ⊕ R.cases (rest_of names) };

    #[tactic(auto, unfolding(crate::specs::Unions::case_at))]
    fn case(alloc: Global, object: &Value, names: &[&str]) -> Result<Case<A, R>, ReadError> {
        match object.get(first_of(names)) {
            Some(value) if !value.is_null() => Ok(Case::This(A::read(alloc, value)?)),
            _ => Ok(Case::Other(R::case(alloc, object, rest_of(names))?)),
        }
    }
}

/// The first of the cases that has a member which isn't null. Other members are ignored.
/// `Refused` where there is none, or its value is no such one.
pub fn read_case<C: JsonCases>(alloc: Global, value: &Value, names: &[&str]) -> Result<C, ReadError>
    ensures { Reads result ((C.cases (map (λ n. n.now) names.now)).reads (view value.now)) }
{
    C::case(alloc, value, names)
}

/// An object with one member. `OutOfMemory` where there is no memory for it.
pub fn print_case<T: JsonForm>(alloc: Global, name: &str, value: &T) -> Result<Value, OutOfMemory>
    ensures value { IfOk result (λ v. view v
        ≡ object (put name.now (T.form.prints value.now) no_members)) }
    ensures fits { IfOk result (λ _. T.form.fits value.now ≡ true) }
{
    let mut object = Object::new(alloc);
    object.put(name, value)?;
    Ok(object.finish())
}

//! Reading of a text into values, which stand in an arena.
ghost use Rattle.std.specs.Prelude.{◌≡◌, Some, None, true, IfOk, IsErrOf, IsUtf8};
ghost use Rattle.json.specs.Json.{if_last};
ghost use Rattle.json.specs.Value.{value_view, items_view as values_view, members_view};
ghost use Rattle.serde_json.specs.Read.{read};
ghost use Rattle.json_forms.specs.Bytes.{are_bytes, of_bytes};
ghost use Rattle.json_forms.specs.Bytes.{json_of_bytes, all_of_bytes, each_of_bytes};
ghost use Rattle.json_forms.specs.Reading.{Gives};
ghost use Rattle.json_forms.specs.View.{in_range, items_in_range, members_in_range};
ghost use Rattle.json_forms.specs.View.{view, whole_value};

use crate::ReadError;
use crate::numbers::has_value;
use bumpalo::Bump;
use json::{Error, Reader, Scratch};
use std::alloc::Global;

/// A value that was read from a text. Its texts are parts of that text, and it lives in an arena.
pub type Value<'t> = json::Value<'t, &'t Bump>;

/// How deep arrays and objects may nest.
const MAX_DEPTH: usize = 127;

/// The memory that the values of a text take. It is given back all at once.
pub struct Arena {
    values: Bump,
    texts: Scratch,
}

// Written out, so that a drop is one call wherever an arena is dropped.
impl Drop for Arena {
    fn drop(self) {
        let Arena {
            values: _,
            texts: _,
        } = self;
    }
}

impl Arena {
    /// An arena that has taken no memory yet.
    pub fn new(alloc: Global) -> Arena {
        Arena {
            values: Bump::new(alloc),
            texts: Scratch::new(alloc),
        }
    }

    /// The value that the bytes are the text of, as the crate `serde_json` reads it. Refused where
    /// they are not UTF-8 or the text of no value.
    pub fn read<'t>(&'t mut self, bytes: &'t [u8]) -> Result<Value<'t>, ReadError>
        ensures found { IfOk result (λ v. IsUtf8 bytes.now × (read bytes.now ≡ Some (view v))) }
        ensures bytes { IfOk result (λ v. of_bytes (view v) ≡ true) }
        ensures refused { IsErrOf result ReadError.Refused → IsUtf8 bytes.now
            → read bytes.now ≡ None }
    {
        match str::from_utf8(bytes) {
            Ok(text) => self.read_text(text),
            Err(_) => Err(ReadError::Refused),
        }
    }

    /// The value of a text. The memory of the value that was read before is used again.
    #[tactic(auto, using(crate::proofs::Ranges::in_ranges, crate::proofs::TextBytes::data_bytes), unfolding(crate::specs::View::view))]
    pub fn read_text<'t>(&'t mut self, text: &'t str) -> Result<Value<'t>, ReadError>
        ensures value { Gives view result (read text.now) }
        ensures bytes { IfOk result (λ v. of_bytes (view v) ≡ true) }
    {
        if self.values.reset().is_err() {
            return Err(ReadError::Memory);
        }
        let mut reader = Reader::new(text, &mut self.texts)?;
        let value = whole(&self.values, &mut reader)?;
        if fits(&value) {
            Ok(value)
        } else {
            Err(ReadError::Refused)
        }
    }
}

// The value of these tokens, where nothing follows it.
fn whole<'t>(arena: &'t Bump, reader: &mut Reader<'t>) -> Result<Value<'t>, ReadError>
    ensures { Gives value_view result (whole_value reader.old) }
{
    match json::Value::read(arena, reader, MAX_DEPTH) {
        Ok(value) => last(reader, value),
        Err(Error::OutOfMemory) => Err(ReadError::Memory),
        Err(_) => Err(ReadError::Refused),
    }
}

// The value, where no token is left.
fn last<'t>(reader: &mut Reader<'t>, value: Value<'t>) -> Result<Value<'t>, ReadError>
    ensures { Gives value_view result (if_last (value_view value.entry) reader.old) }
{
    match reader.next() {
        Some(_) => Err(ReadError::Refused),
        None => Ok(value),
    }
}

// Whether each number has a value. Each text is of bytes.
#[cycle(fits)]
#[tactic(auto, using(crate::proofs::RangeLoops::range_loops))]
fn fits(value: &Value) -> bool
    ensures range { result ≡ in_range (value_view value.now) }
    ensures bytes { result ≡ true → json_of_bytes (value_view value.now) ≡ true }
{
    match value {
        Value::Number(text) => has_value(text),
        Value::String(text) => is_text(text),
        Value::Array(items) => items_fit(items),
        Value::Object(members) => members_fit(members),
        _ => true,
    }
}

// A text of Rust's type is of bytes.
#[tactic(auto, using(crate::proofs::TextBytes::text_bytes))]
fn is_text(text: &str) -> bool
    ensures is { result ≡ true }
    ensures bytes { are_bytes text.now ≡ true }
{
    true
}

// An item is judged here, without a call, unless it holds others.
#[cycle(fits)]
#[tactic(auto, using(crate::proofs::RangeLoops::range_loops))]
fn items_fit<'t>(items: &Vec<Value<'t>, &'t Bump>) -> bool
    ensures range { result ≡ items_in_range (values_view items.now.items) }
    ensures bytes { result ≡ true → all_of_bytes (values_view items.now.items) ≡ true }
{
    for item in items {
        let item_fits = match item {
            Value::Number(text) => has_value(text),
            Value::String(text) => is_text(text),
            Value::Array(_) | Value::Object(_) => fits(item),
            _ => true,
        };
        if !item_fits {
            return false;
        }
    }
    true
}

#[cycle(fits)]
#[tactic(auto, using(crate::proofs::RangeLoops::range_loops))]
fn members_fit<'t>(members: &Vec<(&'t str, Value<'t>), &'t Bump>) -> bool
    ensures range { result ≡ members_in_range (members_view members.now.items) }
    ensures bytes { result ≡ true → each_of_bytes (members_view members.now.items) ≡ true }
{
    for member in members {
        if !fits(&member.1) {
            return false;
        }
    }
    true
}

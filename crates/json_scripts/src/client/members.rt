//! Readers of objects by the number of their members, and of places in lists.
ghost use Rattle.std.specs.Prelude.{◌≡◌};
ghost use Rattle.json_forms.specs.View.{view, members_view};
ghost use Rattle.json_forms.specs.Forms.{optional_at};
ghost use Rattle.json_forms.specs.Plain.{number_below};
ghost use Rattle.json_forms.specs.Reading.{Reads};
ghost use Rattle.json_scripts.specs.Client.Members.{has_members, members_at};

use json_forms::read::Member;
use json_forms::{ReadError, Value, members, read};
use std::alloc::Global;

/// An object with so many members.
#[tactic(auto, unfolding(crate::specs::Client::Members::members_at))]
pub fn exact_members(alloc: Global, count: usize, value: &Value) -> Result<(), ReadError>
    ensures { Reads result (members_at count (view value.now)) }
{
    has_members(alloc, count, read::members(value)?)
}

fn has_members(alloc: Global, count: usize, members: &[Member]) -> Result<(), ReadError>
    ensures { Reads result (has_members count (members_view members.now)) }
{
    if members::has_members(alloc, count, members)? {
        Ok(())
    } else {
        Err(ReadError::Refused)
    }
}

/// The place of one of so many.
pub fn read_place(count: usize, value: &Value) -> Result<usize, ReadError>
    ensures { Reads result (number_below count (view value.now)) }
{
    let number = read::number(value)?;
    if number < count as u64 {
        Ok(number as usize)
    } else {
        Err(ReadError::Refused)
    }
}

/// The place of one of so many, or null.
#[tactic(auto, unfolding(json_forms::specs::View::view, json_forms::specs::Forms::optional_at))]
pub fn read_optional_place(count: usize, value: &Value) -> Result<Option<usize>, ReadError>
    ensures { Reads result (optional_at (number_below count) (view value.now)) }
{
    match value {
        Value::Null => Ok(None),
        _ => Ok(Some(read_place(count, value)?)),
    }
}

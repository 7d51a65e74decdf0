//! Reading of plain JSON: numbers, texts and arrays of a fixed length.
ghost use Rattle.std.specs.Prelude.{◌≡◌, ◌^◌, option_map};
ghost use Rattle.serde_json.specs.Find.{as_array, as_bool, as_object, as_str, as_u64, get};
ghost use Rattle.json_forms.specs.View.{number_view, view, items_view, members_view};
ghost use Rattle.json_forms.specs.Plain.{number_at, number_below, pair_at, triple_at, quadruple_at};
ghost use Rattle.json_forms.specs.Plain.{quintuple_at, sextuple_at, septuple_at};
ghost use Rattle.json_forms.specs.Reading.{Reads, Gives};
ghost use Rattle.json_forms.specs.Tuples.{two_of, three_of, four_of, five_of, six_of, seven_of};

use crate::Value;
use crate::numbers::unsigned;
use smithy_types::{OutOfMemory, Text};
use std::alloc::{AllocError, AllocFailed, Global};

/// A member of an object: its name and its value.
pub type Member<'t> = (&'t str, Value<'t>);

/// A value that stands in another one.
pub type Item<'v, 't> = &'v Value<'t>;

/// Why a value was not read.
#[derive(Clone, Copy, Debug, PartialEq, Eq)]
pub enum ReadError {
    /// An allocation was refused.
    Memory,
    /// The JSON spells no such value.
    Refused,
}

impl From<AllocError> for ReadError {
    ghost use Rattle.json_forms.specs.declared.read.ReadError.TheVariants.{Memory};

    ghost from_gives = { λ _ e. e ≡ Memory };

    fn from(_error: AllocError) -> ReadError {
        ReadError::Memory
    }
}

impl<T: Drop> From<AllocFailed<T>> for ReadError {
    ghost use Rattle.json_forms.specs.declared.read.ReadError.TheVariants.{Memory};

    ghost from_gives = { λ _ e. e ≡ Memory };

    fn from(_failed: AllocFailed<T>) -> ReadError {
        ReadError::Memory
    }
}

impl From<OutOfMemory> for ReadError {
    ghost use Rattle.json_forms.specs.declared.read.ReadError.TheVariants.{Memory};

    ghost from_gives = { λ _ e. e ≡ Memory };

    fn from(_error: OutOfMemory) -> ReadError {
        ReadError::Memory
    }
}

/// A whole number.
#[tactic(auto, unfolding(crate::specs::View::view))]
pub fn number(value: &Value) -> Result<u64, ReadError>
    ensures { Reads result (number_at (view value.now)) }
{
    match value.as_number() {
        Some(text) => whole_number(text),
        None => Err(ReadError::Refused),
    }
}

// The whole number that the text is.
fn whole_number(text: &str) -> Result<u64, ReadError>
    ensures { Reads result (as_u64 (number_view text.now)) }
{
    match unsigned(text) {
        Some(number) => Ok(number),
        None => Err(ReadError::Refused),
    }
}

/// A number of 32 bits.
pub fn number_32(value: &Value) -> Result<u32, ReadError>
    ensures { Reads result (number_below (2 ^ 32) (view value.now)) }
{
    let number = number(value)?;
    if number < 1 << 32 {
        Ok(number as u32)
    } else {
        Err(ReadError::Refused)
    }
}

/// A number of 16 bits.
pub fn number_16(value: &Value) -> Result<u16, ReadError>
    ensures { Reads result (number_below (2 ^ 16) (view value.now)) }
{
    let number = number(value)?;
    if number < 1 << 16 {
        Ok(number as u16)
    } else {
        Err(ReadError::Refused)
    }
}

/// A truth value.
#[tactic(auto, unfolding(crate::specs::View::view))]
pub fn boolean(value: &Value) -> Result<bool, ReadError>
    ensures { Reads result (as_bool (view value.now)) }
{
    match value.as_bool() {
        Some(value) => Ok(value),
        None => Err(ReadError::Refused),
    }
}

/// A text, as it stands in the value.
#[tactic(auto, unfolding(crate::specs::View::view))]
pub fn str<'t>(value: &Value<'t>) -> Result<&'t str, ReadError>
    ensures { Gives (λ s. s.now) result (as_str (view value.now)) }
{
    match value.as_str() {
        Some(text) => Ok(text),
        None => Err(ReadError::Refused),
    }
}

/// A text.
pub fn text(alloc: Global, value: &Value) -> Result<Text, ReadError>
    ensures { Reads result (as_str (view value.now)) }
{
    Ok(Text::from_str(alloc, str(value)?)?)
}

/// The items of an array.
#[tactic(auto, unfolding(crate::specs::View::view, crate::specs::View::items_view))]
pub fn items<'v, 't>(value: Item<'v, 't>) -> Result<&'v [Value<'t>], ReadError>
    ensures { Gives (λ s. items_view s.now) result (as_array (view value.now)) }
{
    match value {
        Value::Array(items) => Ok(items.as_slice()),
        _ => Err(ReadError::Refused),
    }
}

/// The members of an object, as they stand in the text.
#[tactic(auto, unfolding(crate::specs::View::view, crate::specs::View::members_view))]
pub fn members<'v, 't>(value: &'v Value<'t>) -> Result<&'v [Member<'t>], ReadError>
    ensures { Gives (λ s. members_view s.now) result (as_object (view value.now)) }
{
    match value {
        Value::Object(members) => Ok(members.as_slice()),
        _ => Err(ReadError::Refused),
    }
}

/// The items of an array of two.
pub fn pair<'v, 't>(value: &'v Value<'t>) -> Result<(Item<'v, 't>, Item<'v, 't>), ReadError>
    ensures { Gives (λ p. (view p.0.now, view p.1.now)) result (pair_at (view value.now)) }
{
    two(items(value)?)
}

/// The items of an array of three.
pub fn triple<'v, 't>(
    value: &'v Value<'t>,
) -> Result<(Item<'v, 't>, Item<'v, 't>, Item<'v, 't>), ReadError>
    ensures { Gives (λ p. (view p.0.now, view p.1.now, view p.2.now)) result
        (triple_at (view value.now)) }
{
    three(items(value)?)
}

/// The items of an array of four.
pub fn quadruple<'v, 't>(
    value: &'v Value<'t>,
) -> Result<(Item<'v, 't>, Item<'v, 't>, Item<'v, 't>, Item<'v, 't>), ReadError>
    ensures { Gives (λ p. (view p.0.now, view p.1.now, view p.2.now, view p.3.now)) result
        (quadruple_at (view value.now)) }
{
    four(items(value)?)
}

/// Two items.
#[tactic(auto, using(crate::proofs::OtherLength::not_two), unfolding(crate::specs::View::view, crate::specs::View::items_view))]
pub fn two<'v, 't>(items: &'v [Value<'t>]) -> Result<(Item<'v, 't>, Item<'v, 't>), ReadError>
    ensures { Gives (λ p. (view p.0.now, view p.1.now)) result (two_of (items_view items.now)) }
{
    if items.len() != 2 {
        return Err(ReadError::Refused);
    }
    Ok((&items[0], &items[1]))
}

/// Three items.
#[tactic(auto, using(crate::proofs::OtherLength::not_three), unfolding(crate::specs::View::view, crate::specs::View::items_view))]
pub fn three<'v, 't>(
    items: &'v [Value<'t>],
) -> Result<(Item<'v, 't>, Item<'v, 't>, Item<'v, 't>), ReadError>
    ensures { Gives (λ p. (view p.0.now, view p.1.now, view p.2.now)) result
        (three_of (items_view items.now)) }
{
    if items.len() != 3 {
        return Err(ReadError::Refused);
    }
    Ok((&items[0], &items[1], &items[2]))
}

/// Four items.
#[tactic(auto, using(crate::proofs::OtherLength::not_four), unfolding(crate::specs::View::view, crate::specs::View::items_view))]
pub fn four<'v, 't>(
    items: &'v [Value<'t>],
) -> Result<(Item<'v, 't>, Item<'v, 't>, Item<'v, 't>, Item<'v, 't>), ReadError>
    ensures { Gives (λ p. (view p.0.now, view p.1.now, view p.2.now, view p.3.now)) result
        (four_of (items_view items.now)) }
{
    if items.len() != 4 {
        return Err(ReadError::Refused);
    }
    Ok((&items[0], &items[1], &items[2], &items[3]))
}

/// The items of an array of five.
pub fn quintuple<'v, 't>(
    value: &'v Value<'t>,
) -> Result<
    (
        Item<'v, 't>,
        Item<'v, 't>,
        Item<'v, 't>,
        Item<'v, 't>,
        Item<'v, 't>,
    ),
    ReadError,
>
    ensures { Gives (λ p. (view p.0.now, view p.1.now, view p.2.now, view p.3.now, view p.4.now))
        result (quintuple_at (view value.now)) }
{
    five(items(value)?)
}

/// Five items.
#[tactic(auto, using(crate::proofs::OtherLength::not_five), unfolding(crate::specs::View::view, crate::specs::View::items_view))]
pub fn five<'v, 't>(
    items: &'v [Value<'t>],
) -> Result<
    (
        Item<'v, 't>,
        Item<'v, 't>,
        Item<'v, 't>,
        Item<'v, 't>,
        Item<'v, 't>,
    ),
    ReadError,
>
    ensures { Gives (λ p. (view p.0.now, view p.1.now, view p.2.now, view p.3.now, view p.4.now))
        result (five_of (items_view items.now)) }
{
    if items.len() != 5 {
        return Err(ReadError::Refused);
    }
    Ok((&items[0], &items[1], &items[2], &items[3], &items[4]))
}

/// The items of an array of six.
pub fn sextuple<'v, 't>(
    value: &'v Value<'t>,
) -> Result<
    (
        Item<'v, 't>,
        Item<'v, 't>,
        Item<'v, 't>,
        Item<'v, 't>,
        Item<'v, 't>,
        Item<'v, 't>,
    ),
    ReadError,
>
    ensures { Gives (λ p. (
      view p.0.now,
      view p.1.now,
      view p.2.now,
      view p.3.now,
      view p.4.now,
      view p.5.now,
    )) result (sextuple_at (view value.now)) }
{
    six(items(value)?)
}

/// Six items.
#[tactic(auto, using(crate::proofs::OtherLength::not_six), unfolding(crate::specs::View::view, crate::specs::View::items_view))]
pub fn six<'v, 't>(
    items: &'v [Value<'t>],
) -> Result<
    (
        Item<'v, 't>,
        Item<'v, 't>,
        Item<'v, 't>,
        Item<'v, 't>,
        Item<'v, 't>,
        Item<'v, 't>,
    ),
    ReadError,
>
    ensures { Gives (λ p. (
      view p.0.now,
      view p.1.now,
      view p.2.now,
      view p.3.now,
      view p.4.now,
      view p.5.now,
    )) result (six_of (items_view items.now)) }
{
    if items.len() != 6 {
        return Err(ReadError::Refused);
    }
    Ok((
        &items[0], &items[1], &items[2], &items[3], &items[4], &items[5],
    ))
}

/// The items of an array of seven.
pub fn septuple<'v, 't>(
    value: &'v Value<'t>,
) -> Result<
    (
        Item<'v, 't>,
        Item<'v, 't>,
        Item<'v, 't>,
        Item<'v, 't>,
        Item<'v, 't>,
        Item<'v, 't>,
        Item<'v, 't>,
    ),
    ReadError,
>
    ensures { Gives (λ p. (
      view p.0.now,
      view p.1.now,
      view p.2.now,
      view p.3.now,
      view p.4.now,
      view p.5.now,
      view p.6.now,
    )) result (septuple_at (view value.now)) }
{
    seven(items(value)?)
}

/// Seven items.
#[tactic(auto, using(crate::proofs::OtherLength::not_seven), unfolding(crate::specs::View::view, crate::specs::View::items_view))]
pub fn seven<'v, 't>(
    items: &'v [Value<'t>],
) -> Result<
    (
        Item<'v, 't>,
        Item<'v, 't>,
        Item<'v, 't>,
        Item<'v, 't>,
        Item<'v, 't>,
        Item<'v, 't>,
        Item<'v, 't>,
    ),
    ReadError,
>
    ensures { Gives (λ p. (
      view p.0.now,
      view p.1.now,
      view p.2.now,
      view p.3.now,
      view p.4.now,
      view p.5.now,
      view p.6.now,
    )) result (seven_of (items_view items.now)) }
{
    if items.len() != 7 {
        return Err(ReadError::Refused);
    }
    Ok((
        &items[0], &items[1], &items[2], &items[3], &items[4], &items[5], &items[6],
    ))
}

/// A member of an object, none where it has no such member.
pub fn optional_member<'v, 't>(value: &'v Value<'t>, name: &str) -> Option<Item<'v, 't>>
    ensures { option_map (λ v. view v.now) result ≡ get name.now (view value.now) }
{
    value.get(name)
}

/// A member of an object.
pub fn member<'v, 't>(value: &'v Value<'t>, name: &str) -> Result<Item<'v, 't>, ReadError>
    ensures { Gives (λ v. view v.now) result (get name.now (view value.now)) }
{
    match optional_member(value, name) {
        Some(value) => Ok(value),
        None => Err(ReadError::Refused),
    }
}

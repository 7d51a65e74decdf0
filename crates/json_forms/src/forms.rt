//! Bytes, numbers and texts, as they are read and printed.
ghost use Rattle.std.specs.Prelude.{◌≡◌, IfOk, Bool, true, false, map};
ghost use Rattle.std.specs.List.{list_all};
ghost use Rattle.serde_json.specs.Data.{string};
ghost use Rattle.serde_json.specs.Find.{as_str};
ghost use Rattle.json_forms.specs.View.{view, items_view, members_view};
ghost use Rattle.json_forms.specs.JsonData.{data_of};
ghost use Rattle.json_forms.specs.Reading.{Reads, Gives};
ghost use Rattle.json_forms.specs.Forms.{says, first_says, starts, word_at, tagged_at, optional_at};
ghost use Rattle.json_forms.specs.Forms.{true_at, texts_at, is_lower_digit, hex_bytes, one_member};
ghost use Rattle.json_forms.specs.Forms.{only_at, hex_at, blob_at};
ghost use Rattle.json_forms.specs.Lists.{list_of};
ghost use Rattle.json_forms.specs.Plain.{number_at};
ghost use Rattle.json_forms.specs.Prints.{num, null_or, texts, is_shown, blob_data};

use crate::members::has_members;
use crate::read::{Item, Member};
use crate::{Json, ReadError, Row, Value, read};
use hex::FromHexError;
use smithy_types::{Blob, List, OutOfMemory, Text};
use std::alloc::Global;

/// Null where there is no number. It takes no memory.
pub fn print_optional_number(number: Option<u64>) -> Json
    ensures { data_of result ≡ null_or num number }
{
    match number {
        Some(number) => Json::number(number),
        None => Json::null(),
    }
}

/// A list of texts.
pub fn print_texts(alloc: Global, list: &List<Text>) -> Result<Json, OutOfMemory>
    ensures { IfOk result (λ j. data_of j ≡ texts list.now) }
{
    let items = list.as_slice();
    let mut row = Row::new(alloc);
    for text in items {
        row.push(Json::text(alloc, text.as_str())?)?;
    }
    Ok(row.finish())
}

/// Null where there is no text.
pub fn print_optional_text(alloc: Global, text: &Option<Text>) -> Result<Json, OutOfMemory>
    ensures { IfOk result (λ j. data_of j ≡ null_or string text.now) }
{
    match text {
        Some(text) => Json::text(alloc, text.as_str()),
        None => Ok(Json::null()),
    }
}

// Whether the byte stands for itself in a printed text.
#[tactic(auto, unfolding(crate::specs::Prints::is_shown))]
fn is_shown(byte: u8) -> bool
    ensures { result ≡ is_shown byte }
{
    (32 <= byte && byte <= 126) || byte == 9 || byte == 10 || byte == 13
}

/// Whether each byte stands for itself in a printed text.
pub fn all_shown(bytes: &[u8]) -> bool
    ensures { result ≡ list_all is_shown bytes.now }
{
    bytes.iter().all(|byte| is_shown(*byte))
}

/// Bytes: a text where each can be shown, and otherwise an object with them in hex.
#[tactic(auto, unfolding(crate::specs::Prints::blob_data))]
pub fn print_bytes(alloc: Global, bytes: &[u8]) -> Result<Json, OutOfMemory>
    ensures { IfOk result (λ j. data_of j ≡ blob_data bytes.now) }
{
    if all_shown(bytes) {
        print_shown(alloc, bytes)
    } else {
        let digits = hex::encode(alloc, bytes)?;
        Json::of_member(alloc, "hex", Json::text(alloc, digits.as_str())?)
    }
}

/// A blob's bytes.
pub fn print_blob(alloc: Global, blob: &Blob) -> Result<Json, OutOfMemory>
    ensures { IfOk result (λ j. data_of j ≡ blob_data blob.now) }
{
    print_bytes(alloc, blob.as_slice())
}

// The text of bytes that can be shown.
fn print_shown(alloc: Global, bytes: &[u8]) -> Result<Json, OutOfMemory>
    requires { list_all is_shown bytes.now ≡ true }
    ensures { IfOk result (λ j. data_of j ≡ string bytes.now) }
{
    match str::from_utf8(bytes) {
        Ok(text) => Json::text(alloc, text),
        Err(_) => unreachable!(),
    }
}

/// Whether the text is this word.
#[tactic(auto, unfolding(crate::specs::Forms::says, crate::specs::View::view))]
pub fn says(word: &str, value: &Value) -> bool
    ensures { result ≡ says word.now (view value.now) }
{
    match value {
        Value::String(text) => *text == word,
        _ => false,
    }
}

/// Whether the array begins with this word.
#[tactic(auto, unfolding(crate::specs::Forms::starts, crate::specs::View::view, crate::specs::View::items_view))]
pub fn starts(word: &str, value: &Value) -> bool
    ensures { result ≡ starts word.now (view value.now) }
{
    match value {
        Value::Array(items) => first_says(word, items.as_slice()),
        _ => false,
    }
}

#[tactic(auto, unfolding(crate::specs::Forms::first_says, crate::specs::View::view, crate::specs::View::items_view))]
fn first_says(word: &str, items: &[Value]) -> bool
    ensures { result ≡ first_says word.now (items_view items.now) }
{
    match items {
        [first, ..] => says(word, first),
        [] => false,
    }
}

/// The text that is this word.
#[tactic(auto, unfolding(crate::specs::Forms::word_at))]
pub fn read_word(word: &str, value: &Value) -> Result<(), ReadError>
    ensures { Reads result (word_at word.now (view value.now)) }
{
    let text = read::str(value)?;
    if text == word {
        Ok(())
    } else {
        Err(ReadError::Refused)
    }
}

/// What stands beside the tag in an array of two.
#[tactic(auto, unfolding(crate::specs::Forms::tagged_at))]
pub fn read_tagged<'v, 't>(tag: &str, value: &'v Value<'t>) -> Result<Item<'v, 't>, ReadError>
    ensures { Gives (λ v. view v.now) result (tagged_at tag.now (view value.now)) }
{
    let (found, inner) = read::pair(value)?;
    read_word(tag, found)?;
    Ok(inner)
}

/// A mark's value, which is true.
#[tactic(auto, unfolding(crate::specs::Forms::true_at))]
pub fn read_true(value: &Value) -> Result<(), ReadError>
    ensures { Reads result (true_at (view value.now)) }
{
    if read::boolean(value)? {
        Ok(())
    } else {
        Err(ReadError::Refused)
    }
}

/// A number, or null.
#[tactic(auto, unfolding(crate::specs::Forms::optional_at, crate::specs::View::view))]
pub fn read_optional_number(value: &Value) -> Result<Option<u64>, ReadError>
    ensures { Reads result (optional_at number_at (view value.now)) }
{
    match value {
        Value::Null => Ok(None),
        _ => Ok(Some(read::number(value)?)),
    }
}

/// A text, or null.
#[tactic(auto, unfolding(crate::specs::Forms::optional_at, crate::specs::View::view))]
pub fn read_optional_text(alloc: Global, value: &Value) -> Result<Option<Text>, ReadError>
    ensures { Reads result (optional_at as_str (view value.now)) }
{
    match value {
        Value::Null => Ok(None),
        _ => Ok(Some(read::text(alloc, value)?)),
    }
}

/// A list of texts.
#[tactic(auto, unfolding(crate::specs::Forms::texts_at))]
pub fn read_texts(alloc: Global, value: &Value) -> Result<List<Text>, ReadError>
    ensures { Reads result (texts_at (view value.now)) }
{
    text_items(alloc, read::items(value)?)
}

#[tactic(auto, using(crate::proofs::ReadLists::list_reading))]
fn text_items(alloc: Global, items: &[Value]) -> Result<List<Text>, ReadError>
    ensures { Reads result (list_of as_str (items_view items.now)) }
{
    let mut list = List::new();
    for value in items {
        match read::text(alloc, value) {
            Ok(text) => list.push(alloc, text)?,
            Err(error) => return Err(error),
        }
    }
    Ok(list)
}

/// A list of texts, or null.
#[tactic(auto, unfolding(crate::specs::Forms::optional_at, crate::specs::View::view))]
pub fn read_optional_texts(alloc: Global, value: &Value) -> Result<Option<List<Text>>, ReadError>
    ensures { Reads result (optional_at texts_at (view value.now)) }
{
    match value {
        Value::Null => Ok(None),
        _ => Ok(Some(read_texts(alloc, value)?)),
    }
}

// A digit of hex, its letters in lower case.
#[tactic(auto, unfolding(crate::specs::Forms::is_lower_digit))]
fn is_lower_digit(byte: u8) -> bool
    ensures { result ≡ is_lower_digit byte }
{
    (48 <= byte && byte <= 57) || (97 <= byte && byte <= 102)
}

fn all_lower_digits(bytes: &[u8]) -> bool
    ensures { result ≡ list_all is_lower_digit bytes.now }
{
    bytes.iter().all(|byte| is_lower_digit(*byte))
}

// The bytes that stand in hex.
#[tactic(auto, unfolding(crate::specs::Forms::hex_bytes))]
fn hex_bytes(alloc: Global, text: &str) -> Result<Vec<u8>, ReadError>
    ensures { Gives (λ v. v.items) result (hex_bytes text.now) }
{
    if !all_lower_digits(text.as_bytes()) {
        return Err(ReadError::Refused);
    }
    match hex::decode(alloc, text) {
        Ok(bytes) => Ok(bytes),
        Err(FromHexError::OutOfMemory) => Err(ReadError::Memory),
        Err(_) => Err(ReadError::Refused),
    }
}

/// A blob: a text, or an object with the bytes in hex.
#[tactic(auto, unfolding(crate::specs::Forms::blob_at, crate::specs::View::view))]
pub fn read_blob(alloc: Global, value: &Value) -> Result<Blob, ReadError>
    ensures { Reads result (blob_at (view value.now)) }
{
    match value {
        Value::String(text) => Ok(Blob::from_slice(alloc, text.as_bytes())?),
        _ => read_hex(alloc, value),
    }
}

#[tactic(auto, unfolding(crate::specs::Forms::hex_at))]
fn read_hex(alloc: Global, value: &Value) -> Result<Blob, ReadError>
    ensures { Reads result (hex_at (view value.now)) }
{
    only_member(alloc, value)?;
    let text = read::str(read::member(value, "hex")?)?;
    Ok(Blob::from_vec(hex_bytes(alloc, text)?)?)
}

#[tactic(auto, unfolding(crate::specs::Forms::only_at))]
fn only_member(alloc: Global, value: &Value) -> Result<(), ReadError>
    ensures { Reads result (only_at (view value.now)) }
{
    one_member(alloc, read::members(value)?)
}

fn one_member(alloc: Global, members: &[Member]) -> Result<(), ReadError>
    ensures { Reads result (one_member (members_view members.now)) }
{
    if has_members(alloc, 1, members)? {
        Ok(())
    } else {
        Err(ReadError::Refused)
    }
}

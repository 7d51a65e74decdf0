//! What is judged of a value before its parts.

use crate::finder::Finder;
use crate::form::Form;
use crate::items::{begins_with, form_of_key, is_among};
use crate::names::{hint_at, listed};
use crate::shape::{Bytes, Keys, Shape, Texts};
use crate::tables::answers::KINDS;
use crate::tables::settings::SETTING_KEYS;
use crate::tables::table;
use json::Value;
use smithy_types::OutOfMemory;

/// Whether the value is of the form, as far as that is told without its parts: what it is, how many
/// items it has, and the word or the key that it begins with.
pub fn head_fits(finder: &mut Finder, value: &Value, form: Form) -> Result<bool, OutOfMemory> {
    match table(form).shape {
        Shape::Null => plainly(finder, form, matches!(value, Value::Null)),
        Shape::Truth => plainly(finder, form, matches!(value, Value::Bool(_))),
        Shape::True => plainly(finder, form, matches!(value, Value::Bool(true))),
        Shape::Number(least, most) => plainly(finder, form, is_within(value, least, most)),
        Shape::BucketPlace => place_fits(finder, value, finder.buckets, "buckets"),
        Shape::ClientPlace => place_fits(finder, value, finder.clients, "clients"),
        Shape::Text(texts) => plainly(finder, form, is_text(value, texts)),
        Shape::Blob(bytes) => plainly(finder, form, is_blob(value, bytes)),
        Shape::Word(words) => word_fits(finder, value, form, words),
        Shape::List(_, least) => plainly(finder, form, has_at_least(value, least)),
        Shape::Row(forms) => count_fits(finder, value, form, forms.len()),
        Shape::Tagged(tag, forms) => tagged_fits(finder, value, form, tag, forms.len()),
        Shape::Keyed(keys) => keyed_fits(finder, value, form, keys),
        Shape::Object(_) => plainly(finder, form, matches!(value, Value::Object(_))),
        Shape::Choice(forms) => no_choice(finder, value, form, forms),
        Shape::ByLength(_, _) => plainly(finder, form, false),
    }
}

// Tells what is wanted where the value isn't so.
fn plainly(finder: &mut Finder, form: Form, fits: bool) -> Result<bool, OutOfMemory> {
    if fits {
        return Ok(true);
    }
    finder.expect(table(form).wanted)
}

fn is_within(value: &Value, least: u64, most: u64) -> bool {
    match value.as_u64() {
        Some(number) => least <= number && number <= most,
        None => false,
    }
}

// Whether it is the place of one of so many.
fn place_fits(
    finder: &mut Finder,
    value: &Value,
    count: u64,
    what: &str,
) -> Result<bool, OutOfMemory> {
    match value.as_u64() {
        Some(place) if place < count => Ok(true),
        _ => {
            let wanted = format!(in finder.alloc; "the place of one of {count} {what}, from 0 on")?;
            finder.expect(wanted.as_str())
        }
    }
}

fn is_text(value: &Value, texts: Texts) -> bool {
    match (value, texts) {
        (Value::String(_), Texts::Any) => true,
        (Value::String(text), Texts::HeaderName) => is_header_name(text.as_bytes()),
        _ => false,
    }
}

fn is_header_name(name: &[u8]) -> bool {
    !name.is_empty() && name.len() <= 65535 && name.iter().all(|byte| is_name_byte(*byte))
}

// Whether the byte may stand in a header's name.
fn is_name_byte(byte: u8) -> bool {
    match byte {
        b'0'..=b'9' | b'a'..=b'z' | b'A'..=b'Z' => true,
        _ => is_name_mark(byte),
    }
}

fn is_name_mark(byte: u8) -> bool {
    for mark in b"!#$%&'*+-.^_`|~" {
        if *mark == byte {
            return true;
        }
    }
    false
}

// Whether the byte may stand in a header's value.
fn is_value_byte(byte: u8) -> bool {
    byte == 9 || (32 <= byte && byte != 127)
}

fn is_blob(value: &Value, bytes: Bytes) -> bool {
    match value {
        Value::String(text) => bytes == Bytes::Any || are_value_bytes(text.as_bytes()),
        Value::Object(members) => is_hex(value, bytes) && only_hex(members.as_slice()),
        _ => false,
    }
}

fn are_value_bytes(bytes: &[u8]) -> bool {
    bytes.iter().all(|byte| is_value_byte(*byte))
}

// Whether each member is that of hex.
fn only_hex(members: &[(&str, Value)]) -> bool {
    for member in members {
        if member.0 != "hex" {
            return false;
        }
    }
    true
}

fn is_hex(value: &Value, bytes: Bytes) -> bool {
    match value.get("hex") {
        Some(Value::String(digits)) => are_pairs(digits.as_bytes(), bytes),
        _ => false,
    }
}

// Whether these are pairs of digits in lower case.
fn are_pairs(digits: &[u8], bytes: Bytes) -> bool {
    for pair in digits.chunks(2) {
        if !is_pair(pair, bytes) {
            return false;
        }
    }
    true
}

fn is_pair(pair: &[u8], bytes: Bytes) -> bool {
    match pair {
        [high, low] => match (digit_of(*high), digit_of(*low)) {
            (Some(high), Some(low)) => {
                bytes == Bytes::Any || is_value_byte(high.wrapping_mul(16).wrapping_add(low))
            },
            _ => false,
        },
        _ => false,
    }
}

// The value of a digit in lower case.
fn digit_of(byte: u8) -> Option<u8> {
    match byte {
        b'0'..=b'9' => Some(byte - b'0'),
        b'a'..=b'f' => Some(byte - b'a' + 10),
        _ => None,
    }
}

fn word_fits(
    finder: &mut Finder,
    value: &Value,
    form: Form,
    words: &[&str],
) -> Result<bool, OutOfMemory> {
    if let Value::String(text) = value {
        if is_among(words, text) {
            return Ok(true);
        }
        hint_at(finder, words, text)?;
    }
    let words = listed(finder.alloc, words)?;
    finder.shows_found = true;
    finder.refuse(&["expected ", table(form).wanted, ", one of ", words.as_str()])
}

fn has_at_least(value: &Value, least: usize) -> bool {
    match value {
        Value::Array(items) => items.len() >= least,
        _ => false,
    }
}

// Whether it is an array of so many items.
fn count_fits(
    finder: &mut Finder,
    value: &Value,
    form: Form,
    count: usize,
) -> Result<bool, OutOfMemory> {
    match value {
        Value::Array(items) if items.len() == count => Ok(true),
        Value::Array(items) => other_count(finder, form, count, items.len()),
        _ => finder.expect(table(form).wanted),
    }
}

// Tells that there are more or fewer items.
fn other_count(
    finder: &mut Finder,
    form: Form,
    count: usize,
    found: usize,
) -> Result<bool, OutOfMemory> {
    let counts = format!(in finder.alloc; ": {count} items, and there are {found}")?;
    finder.refuse(&["expected ", table(form).wanted, counts.as_str()])
}

fn tagged_fits(
    finder: &mut Finder,
    value: &Value,
    form: Form,
    tag: &str,
    count: usize,
) -> Result<bool, OutOfMemory> {
    match value {
        Value::Array(items) if items.is_empty() || begins_with(tag, items) => {
            count_fits(finder, value, form, count.saturating_add(1))
        }
        Value::Array(_) => {
            finder.enter(0)?;
            finder.expect(table(form).wanted)
        }
        _ => finder.expect(table(form).wanted),
    }
}

fn keyed_fits(
    finder: &mut Finder,
    value: &Value,
    form: Form,
    keys: Keys,
) -> Result<bool, OutOfMemory> {
    if !count_fits(finder, value, form, 2)? {
        return Ok(false);
    }
    match value.at(0) {
        Some(Value::String(key)) => key_fits(finder, keys, key),
        _ => {
            finder.enter(0)?;
            finder.expect(key_wanted(keys))
        }
    }
}

// Whether it is a key.
fn key_fits(finder: &mut Finder, keys: Keys, key: &str) -> Result<bool, OutOfMemory> {
    if form_of_key(keys, key).is_some() {
        return Ok(true);
    }
    finder.enter(0)?;
    hint_at(finder, keys_of(keys), key)?;
    finder.expect(key_wanted(keys))
}

/// The keys that are known by name.
pub fn keys_of(keys: Keys) -> &'static [&'static str] {
    match keys {
        Keys::Settings => SETTING_KEYS,
        Keys::Questions => KINDS,
    }
}

fn key_wanted(keys: Keys) -> &'static str {
    match keys {
        Keys::Settings => "the key of a setting, one of this program's or \"user.KEY\"",
        Keys::Questions => "the kind of a question",
    }
}

// The value is none of these forms. Of an array the first item tells which one is meant, so that
// one is wrong where there is one.
fn no_choice(
    finder: &mut Finder,
    value: &Value,
    form: Form,
    forms: &[Form],
) -> Result<bool, OutOfMemory> {
    match value {
        Value::Array(items) => {
            if !items.is_empty() && has_tags(forms) {
                finder.enter(0)?;
            }
            hint_at_first(finder, value.at(0), forms)?;
        }
        Value::String(word) => hint_at_words(finder, forms, word)?,
        _ => {}
    }
    finder.expect(table(form).wanted)
}

fn has_tags(forms: &[Form]) -> bool {
    forms
        .iter()
        .any(|form| matches!(table(*form).shape, Shape::Tagged(_, _)))
}

// Tells the word that is nearest to the first item.
fn hint_at_first(
    finder: &mut Finder,
    first: Option<&Value>,
    forms: &[Form],
) -> Result<(), OutOfMemory> {
    let mut tags = Vec::new(finder.alloc);
    for form in forms {
        if let Shape::Tagged(tag, _) = table(*form).shape {
            tags.push(tag)?;
        }
    }
    match first {
        Some(Value::String(word)) => hint_at(finder, &tags, *word),
        _ => Ok(()),
    }
}

// Tells the word of a choice that is nearest.
fn hint_at_words(finder: &mut Finder, forms: &[Form], word: &str) -> Result<(), OutOfMemory> {
    let mut known = Vec::new(finder.alloc);
    for form in forms {
        if let Shape::Word(words) = table(*form).shape {
            known.extend_from_slice(words)?;
        }
    }
    hint_at(finder, &known, word)
}

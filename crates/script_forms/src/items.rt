//! Which form an item of an array has, and which of some forms is meant.

use crate::form::Form;
use crate::shape::{Keys, Shape};
use crate::tables::answers::answer_form;
use crate::tables::settings::setting_form;
use crate::tables::table;
use json::Value;

/// The form of the item at this place of an array; none where nothing is left to be looked at.
pub fn item_form(items: &[Value], place: usize, form: Form) -> Option<Form> {
    match table(form).shape {
        Shape::List(item, _) => Some(item),
        Shape::Row(forms) => forms.get(place).copied(),
        Shape::Tagged(_, forms) => forms.get(place.checked_sub(1)?).copied(),
        Shape::Keyed(keys) if place == 1 => keyed_form(keys, items),
        _ => None,
    }
}

// The form of a pair's second item.
fn keyed_form(keys: Keys, items: &[Value]) -> Option<Form> {
    match items {
        [key, value] => form_of_pair(keys, key, value),
        _ => None,
    }
}

// A setting's value may be null.
fn form_of_pair(keys: Keys, key: &Value, value: &Value) -> Option<Form> {
    if keys == Keys::Settings && value.is_null() {
        return None;
    }
    match key {
        Value::String(key) => form_of_key(keys, *key),
        _ => None,
    }
}

/// The form that a key stands for, none where it is no key.
pub fn form_of_key(keys: Keys, key: &str) -> Option<Form> {
    match keys {
        Keys::Settings => setting_form(key),
        Keys::Questions => answer_form(key),
    }
}

/// The form that is meant by the value: of a choice the first that it may be, and the choice itself
/// where it is none.
pub fn meant(value: &Value, form: Form) -> Form {
    match table(form).shape {
        Shape::Choice(forms) => first_possible(value, forms, form),
        Shape::ByLength(short, long) => by_length(value, short, long),
        _ => form,
    }
}

fn first_possible(value: &Value, forms: &[Form], otherwise: Form) -> Form {
    for form in forms {
        if may_be(value, *form) {
            return *form;
        }
    }
    otherwise
}

// Two items are a failure, six a response. Of any other array its second item decides.
fn by_length(value: &Value, short: Form, long: Form) -> Form {
    match value {
        Value::Array(items) => match items.as_slice() {
            [_, _] => short,
            [_, _, _, _, _, _] => long,
            [_, Value::Array(_), ..] => short,
            _ => long,
        },
        _ => long,
    }
}

// Whether the value begins as one of this form.
fn may_be(value: &Value, form: Form) -> bool {
    match value {
        Value::Null => matches!(table(form).shape, Shape::Null),
        Value::Bool(_) => matches!(table(form).shape, Shape::Truth | Shape::True),
        Value::Number(_) => is_number(form),
        Value::String(text) => may_be_text(text, form),
        Value::Array(items) => may_be_array(items.as_slice(), form),
        Value::Object(_) => matches!(table(form).shape, Shape::Object(_) | Shape::Blob(_)),
    }
}

fn is_number(form: Form) -> bool {
    matches!(
        table(form).shape,
        Shape::Number(_, _) | Shape::BucketPlace | Shape::ClientPlace
    )
}

fn may_be_text(text: &str, form: Form) -> bool {
    match table(form).shape {
        Shape::Text(_) | Shape::Blob(_) => true,
        Shape::Word(words) => is_among(words, text),
        _ => false,
    }
}

fn may_be_array(items: &[Value], form: Form) -> bool {
    match table(form).shape {
        Shape::List(_, _) | Shape::Row(_) | Shape::Keyed(_) => true,
        Shape::Tagged(tag, _) => begins_with(tag, items) && is_certain(items, form),
        _ => false,
    }
}

// A failed load is one where its second item is a text; else it is an identity.
fn is_certain(items: &[Value], form: Form) -> bool {
    match (form, items) {
        (Form::FailedLoad, [_, Value::String(_)]) => true,
        (Form::FailedLoad, _) => false,
        _ => true,
    }
}

/// Whether the array's first item is this word.
pub fn begins_with(tag: &str, items: &[Value]) -> bool {
    match items {
        [first, ..] => says(tag, first),
        [] => false,
    }
}

// Whether the text is this word.
fn says(word: &str, value: &Value) -> bool {
    match value {
        Value::String(text) => *text == word,
        _ => false,
    }
}

/// Whether the word is one of these.
pub fn is_among(words: &[&str], word: &str) -> bool {
    for one in words {
        if *one == word {
            return true;
        }
    }
    false
}

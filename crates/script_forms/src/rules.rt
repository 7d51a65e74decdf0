//! What is asked of several values together.

use crate::finder::Finder;
use crate::form::Form;
use crate::items::begins_with;
use indexmap::IndexSet;
use json::Value;
use smithy_types::OutOfMemory;

/// Whether what is asked of the value's parts together holds.
pub fn rules_hold(finder: &mut Finder, value: &Value, form: Form) -> Result<bool, OutOfMemory> {
    match form {
        Form::WaitScript | Form::Waiter => delays_fit(finder, value),
        Form::Client => schemes_are_placed(finder, value),
        Form::ResponseRecord => frames_may_repeat(finder, value),
        Form::TaggedHook => hook_does_something(finder, value),
        Form::Layer => keys_stand_once(finder, value),
        Form::ApiKey => query_has_no_prefix(finder, value),
        Form::HostClient => length_is_free(finder, value),
        _ => Ok(true),
    }
}

// The greatest delay is at least the least one.
fn delays_fit(finder: &mut Finder, value: &Value) -> Result<bool, OutOfMemory> {
    match (number_at(value, "min"), number_at(value, "max")) {
        (Some(least), Some(most)) if most < least => {
            let least = format!(in finder.alloc; "{least}")?;
            finder.shows_found = true;
            finder.enter(last_place(value, "max"))?;
            finder.refuse(&["expected at least min, which is ", least.as_str()])
        }
        _ => Ok(true),
    }
}

fn number_at(value: &Value, name: &str) -> Option<u64> {
    value.get(name)?.as_u64()
}

// The place of the last member of this name.
fn last_place(value: &Value, name: &str) -> usize {
    let mut last = 0;
    if let Value::Object(members) = value {
        for place in 0..members.len() {
            if members[place].0 == name {
                last = place;
            }
        }
    }
    last
}

// The items of an array.
fn items_of<'v, 't>(value: &'v Value<'t>) -> Option<&'v [Value<'t>]> {
    match value {
        Value::Array(items) => Some(items.as_slice()),
        _ => None,
    }
}

// What is said of a client's schemes of HTTP.
fn http_schemes_of<'v, 't>(value: &'v Value<'t>) -> Option<&'v [Value<'t>]> {
    items_of(value.get("http_schemes")?)
}

// Whether the client has a scheme of this id.
fn has_scheme(value: &Value, id: &str) -> bool {
    match value.get("auth") {
        Some(auth) => is_listed(auth.at(1), id),
        None => false,
    }
}

// Whether the text is an item of the array.
fn is_listed(value: Option<&Value>, text: &str) -> bool {
    match value {
        Some(Value::Array(items)) => has_text(items, text),
        _ => false,
    }
}

// Each scheme of HTTP has an id of the client's schemes, and no two have the same.
fn schemes_are_placed(finder: &mut Finder, value: &Value) -> Result<bool, OutOfMemory> {
    let Some(schemes) = http_schemes_of(value) else {
        return Ok(true);
    };
    for place in 0..schemes.len() {
        let id = scheme_id(&schemes[place]);
        let wrong = if !has_scheme(value, id) {
            " isn't one of the schemes of auth"
        } else if stands_before(schemes, place) {
            " stands twice"
        } else {
            ""
        };
        if !wrong.is_empty() {
            finder.enter(last_place(value, "http_schemes"))?;
            return finder.refuse_at(place, &["the scheme ", id, wrong]);
        }
    }
    Ok(true)
}

// Whether one before this place is of the same id. There are two ids, so it is one of the first two.
fn stands_before(schemes: &[Value], place: usize) -> bool {
    if place >= schemes.len() {
        return false;
    }
    let id = scheme_id(&schemes[place]);
    (place > 0 && scheme_id(&schemes[0]) == id) || (place > 1 && scheme_id(&schemes[1]) == id)
}

// There are two such schemes.
fn scheme_id(value: &Value) -> &'static str {
    match value {
        Value::Array(items) if begins_with("bearer", items) => "http-bearer-auth",
        _ => "http-api-key-auth",
    }
}

fn has_text(items: &[Value], text: &str) -> bool {
    for item in items {
        if let Value::String(one) = item {
            if *one == text {
                return true;
            }
        }
    }
    false
}

// Frames that begin again at their end are at least one.
fn frames_may_repeat(finder: &mut Finder, value: &Value) -> Result<bool, OutOfMemory> {
    match (value.at(3), value.at(4)) {
        (Some(Value::Array(frames)), Some(Value::Bool(true))) if frames.is_empty() => {
            finder.refuse_at(4, &["there are no frames that could repeat"])
        }
        _ => Ok(true),
    }
}

// A hook that does nothing answers "Done".
fn hook_does_something(finder: &mut Finder, value: &Value) -> Result<bool, OutOfMemory> {
    match (value.at(1), value.at(2), value.at(3)) {
        (Some(Value::Null), Some(Value::Array(layer)), Some(Value::Null)) if layer.is_empty() => {
            finder.refuse(&["a hook that does nothing answers \"Done\""])
        }
        _ => Ok(true),
    }
}

// A layer names each key once.
fn keys_stand_once(finder: &mut Finder, value: &Value) -> Result<bool, OutOfMemory> {
    let mut keys = IndexSet::new(finder.alloc);
    let Value::Array(items) = value else {
        return Ok(true);
    };
    for place in 0..items.len() {
        if let Some(Value::String(key)) = items[place].at(0) {
            let key = String::from_str(finder.alloc, *key)?;
            let (_, is_new) = keys.insert_full(key)?;
            if !is_new {
                finder.enter(place)?;
                return finder.refuse_at(0, &["the key stands twice in this layer"]);
            }
        }
    }
    Ok(true)
}

// Nothing stands before an API key in the query.
fn query_has_no_prefix(finder: &mut Finder, value: &Value) -> Result<bool, OutOfMemory> {
    match (value.at(1), value.at(3)) {
        (Some(Value::String(location)), Some(Value::String(_))) if *location == "Query" => {
            finder.enter(3)?;
            finder.expect("null, since in the query nothing stands before the key")
        }
        _ => Ok(true),
    }
}

// A host's client doesn't hold a response's length to its header.
fn length_is_free(finder: &mut Finder, value: &Value) -> Result<bool, OutOfMemory> {
    let Some(client) = value.get("client") else {
        return Ok(true);
    };
    match client.get("enforce") {
        Some(Value::Bool(true)) => {
            finder.enter(last_place(value, "client"))?;
            finder.enter(last_place(client, "enforce"))?;
            finder.expect("false, since of a long body a part stays with the host")
        }
        _ => Ok(true),
    }
}

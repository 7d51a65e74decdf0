//! The limits of scripts.

use crate::finder::{FUEL_LIMIT, Finder, INVOCATION_LIMIT};
use crate::form::Form;
use json::Value;
use smithy_types::OutOfMemory;

/// The most tokens of a bucket.
const CAPACITY_LIMIT: u64 = 500_000_000;

/// The most bytes of a text.
const TEXT_LIMIT: u64 = 4096;

/// The most bytes of a body.
const BODY_LIMIT: u64 = 16384;

/// The most headers of a head.
const HEADER_LIMIT: u64 = 32;

/// The most bytes of a head's names and values together.
const HEAD_LIMIT: u64 = 8192;

/// The most callers of a script.
const CALLER_LIMIT: u64 = 16;

/// The most waiters of a script.
const WAITER_LIMIT: u64 = 64;

/// The most different keys in the layers of a script.
const KEY_LIMIT: u64 = 64;

/// Whether a value of the form is within its limit, where limits are judged.
pub fn within_limits(finder: &mut Finder, value: &Value, form: Form) -> Result<bool, OutOfMemory> {
    if !finder.judges_limits {
        return Ok(true);
    }
    match form {
        Form::ShortText => at_most(finder, text_bytes(value), "a text in bytes", TEXT_LIMIT),
        Form::BodyBlob => at_most(finder, blob_bytes(value), "a body in bytes", BODY_LIMIT),
        Form::Capacity => {
            let capacity = number(value);
            at_most(finder, capacity, "a capacity", CAPACITY_LIMIT)
        }
        Form::Callers => at_most(finder, count(value), "callers", CALLER_LIMIT),
        Form::Waiters => at_most(finder, count(value), "waiters", WAITER_LIMIT),
        Form::Headers => head_fits(finder, value),
        Form::Fuel => fuel_fits(finder, value),
        Form::Invocations | Form::CallerInvocations => invocations_fit(finder, value),
        Form::Setting => key_fits(finder, value),
        _ => Ok(true),
    }
}

fn at_most(finder: &mut Finder, found: u64, what: &str, limit: u64) -> Result<bool, OutOfMemory> {
    if found <= limit {
        return Ok(true);
    }
    finder.above(found, what, limit)
}

fn number(value: &Value) -> u64 {
    value.as_u64().unwrap_or(0)
}

fn count(value: &Value) -> u64 {
    match value {
        Value::Array(items) => items.len() as u64,
        _ => 0,
    }
}

fn text_bytes(value: &Value) -> u64 {
    match value {
        Value::String(text) => text.len() as u64,
        _ => 0,
    }
}

// The bytes of a text, or of pairs of digits.
fn blob_bytes(value: &Value) -> u64 {
    match value.get("hex") {
        Some(digits) => text_bytes(digits) / 2,
        None => text_bytes(value),
    }
}

// A head has so many headers, and so many bytes of names and values.
fn head_fits(finder: &mut Finder, value: &Value) -> Result<bool, OutOfMemory> {
    let headers = count(value);
    if headers > HEADER_LIMIT {
        return finder.above(headers, "headers", HEADER_LIMIT);
    }
    let bytes = head_bytes(value);
    at_most(finder, bytes, "a head in bytes", HEAD_LIMIT)
}

fn head_bytes(value: &Value) -> u64 {
    let mut sum = 0u64;
    if let Value::Array(headers) = value {
        for header in headers {
            if let (Some(name), Some(bytes)) = (header.at(0), header.at(1)) {
                sum = sum
                    .saturating_add(text_bytes(name))
                    .saturating_add(blob_bytes(bytes));
            }
        }
    }
    sum
}

// The fuel of all invocations together has a limit.
fn fuel_fits(finder: &mut Finder, value: &Value) -> Result<bool, OutOfMemory> {
    let fuel = number(value);
    match finder.fuel_left.checked_sub(fuel) {
        Some(left) => {
            finder.fuel_left = left;
            Ok(true)
        }
        None => {
            let sum = (FUEL_LIMIT - finder.fuel_left.min(FUEL_LIMIT)).saturating_add(fuel);
            finder.above(sum, "the script's fuel", FUEL_LIMIT)
        }
    }
}

// The invocations of all callers together have a limit.
fn invocations_fit(finder: &mut Finder, value: &Value) -> Result<bool, OutOfMemory> {
    let found = count(value);
    match finder.invocations_left.checked_sub(found) {
        Some(left) => {
            finder.invocations_left = left;
            Ok(true)
        }
        None => {
            let earlier = INVOCATION_LIMIT - finder.invocations_left.min(INVOCATION_LIMIT);
            finder.above(
                earlier.saturating_add(found),
                "invocations",
                INVOCATION_LIMIT,
            )
        }
    }
}

// The keys of all layers together have a limit, and the name of a caller's own that of a text.
fn key_fits(finder: &mut Finder, value: &Value) -> Result<bool, OutOfMemory> {
    let Some(Value::String(key)) = value.at(0) else {
        return Ok(true);
    };
    let bytes = match key.strip_prefix("user.") {
        Some(name) => name.len() as u64,
        None => 0,
    };
    if bytes > TEXT_LIMIT {
        return finder.above(bytes, "a text in bytes", TEXT_LIMIT);
    }
    let key = String::from_str(finder.alloc, *key)?;
    let _added = finder.keys.insert_full(key)?;
    let count = finder.key_count();
    at_most(finder, count, "different keys", KEY_LIMIT)
}

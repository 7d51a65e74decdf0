//! Why a text isn't JSON.

use crate::place::MAX_DEPTH;
use json::{Reader, Scratch, Token, Value};
use smithy_types::OutOfMemory;
use std::alloc::Global;

/// A place where a text isn't JSON.
#[derive(Clone, Copy)]
pub struct Flaw {
    /// Where it is, in bytes.
    pub offset: usize,
    /// What is expected there.
    pub expected: &'static str,
}

// What of a text was read.
#[derive(Drop)]
struct Reading {
    // What the text is to be.
    whole: &'static str,
    // The arrays and objects that are open: whether each is an object.
    open: Vec<bool>,
    // Whether a member's name stands before.
    is_named: bool,
    // Whether a value stands whole.
    is_done: bool,
}

/// The first place where the text isn't JSON, where there is one. Before its first value the whole
/// is expected, as "a JSON object".
pub fn first_flaw(
    alloc: Global,
    text: &str,
    whole: &'static str,
) -> Result<Option<Flaw>, OutOfMemory> {
    let mut scratch = Scratch::new(alloc);
    let mut reader = Reader::new(text, &mut scratch)?;
    let mut reading = Reading {
        whole,
        open: Vec::new(alloc),
        is_named: false,
        is_done: false,
    };
    for _token in 0..text.len().saturating_add(1) {
        let offset = reader.offset();
        match reader.next() {
            None if reading.is_done => return Ok(None),
            None => return Ok(Some(flaw_at(&reading, text, offset))),
            Some(token) => {
                if !reading.take(token)? {
                    return Ok(Some(flaw_at(&reading, text, offset)));
                }
            }
        }
    }
    Ok(None)
}

impl Reading {
    // Takes a token, and answers whether it may stand here.
    fn take(&mut self, token: Token<'_>) -> Result<bool, OutOfMemory> {
        match token {
            Token::Bad => Ok(false),
            Token::Key(_) => Ok(self.take_name()),
            Token::EndArray => Ok(self.close(false)),
            Token::EndObject => Ok(self.close(true)),
            Token::BeginArray => self.begin(false),
            Token::BeginObject => self.begin(true),
            Token::Number(text) => Ok(is_finite(text) && self.take_value()),
            _ => Ok(self.take_value()),
        }
    }

    // Whether an object is open, innermost.
    fn is_in_object(&self) -> bool {
        match self.open.last() {
            Some(is_object) => *is_object,
            None => false,
        }
    }

    // Whether a value may stand here.
    fn wants_value(&self) -> bool {
        !self.is_done && (!self.is_in_object() || self.is_named)
    }

    fn take_name(&mut self) -> bool {
        let fits = self.is_in_object() && !self.is_named;
        self.is_named = true;
        fits
    }

    fn take_value(&mut self) -> bool {
        let fits = self.wants_value();
        self.end_value();
        fits
    }

    // Behind a value.
    fn end_value(&mut self) {
        self.is_named = false;
        self.is_done = self.open.is_empty();
    }

    fn begin(&mut self, is_object: bool) -> Result<bool, OutOfMemory> {
        let fits = self.wants_value() && self.open.len() < MAX_DEPTH;
        if fits {
            self.open.push(is_object)?;
            self.is_named = false;
        }
        Ok(fits)
    }

    fn close(&mut self, is_object: bool) -> bool {
        if self.open.is_empty() || self.is_in_object() != is_object || self.is_named {
            return false;
        }
        let _closed = self.open.pop();
        self.end_value();
        true
    }
}

// Whether the number isn't too large for a float: no larger one is read.
fn is_finite(text: &str) -> bool {
    let number: Value = Value::Number(text);
    match number.as_f64() {
        Some(float) => float.is_finite(),
        None => false,
    }
}

// What is expected at this place.
fn flaw_at(reading: &Reading, text: &str, offset: usize) -> Flaw {
    let expected = if reading.open.len() >= MAX_DEPTH {
        "no deeper array or object: they nest at most 127 deep"
    } else {
        expected_behind(last_byte(text.as_bytes(), offset), reading)
    };
    Flaw { offset, expected }
}

// The last byte before a place that isn't a space.
fn last_byte(text: &[u8], offset: usize) -> Option<u8> {
    let mut last = None;
    for byte in text.iter().take(offset) {
        match *byte {
            b' ' | b'\t' | b'\n' | b'\r' => {}
            other => last = Some(other),
        }
    }
    last
}

// What may stand behind this byte.
fn expected_behind(last: Option<u8>, reading: &Reading) -> &'static str {
    let is_in_object = reading.is_in_object();
    match last {
        None => reading.whole,
        Some(b'{') => "a member's name in quotes and `:`, or `}`",
        Some(b'[') => "a value or `]`",
        Some(b',') if is_in_object && !reading.is_named => "a member's name in quotes and `:`",
        Some(b':') | Some(b',') => "a value",
        _ => expected_behind_value(is_in_object, reading.open.is_empty()),
    }
}

// What may stand behind a value.
fn expected_behind_value(is_in_object: bool, is_alone: bool) -> &'static str {
    if is_alone {
        "the end of the text"
    } else if is_in_object {
        "`,` or `}`"
    } else {
        "`,` or `]`"
    }
}

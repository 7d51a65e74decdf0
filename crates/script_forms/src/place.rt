//! Where in a text something stands.

use json::{Reader, Scratch, Token, Value};
use smithy_types::OutOfMemory;
use std::alloc::Global;

/// How deep arrays and objects may nest.
pub const MAX_DEPTH: usize = 127;

/// The most characters of what was found that are told.
const FOUND_LIMIT: usize = 60;

/// Where a part of a text begins, and a place at or behind its end, in bytes.
#[derive(Clone, Copy)]
pub struct Part {
    /// Where it begins.
    pub start: usize,
    /// Where the next part begins, or the end.
    pub end: usize,
}

/// The line and the column of a byte, each from 1 on. Columns count characters.
pub fn line_and_column(text: &[u8], offset: usize) -> (usize, usize) {
    let mut line = 1usize;
    let mut column = 1usize;
    for byte in text.iter().take(offset) {
        if *byte == b'\n' {
            line = line.saturating_add(1);
            column = 1;
        } else if *byte & 0xc0 != 0x80 {
            column = column.saturating_add(1);
        }
    }
    (line, column)
}

/// The part of a text at the end of a path: the value there, or its name.
pub fn part_at(
    alloc: Global,
    text: &str,
    path: &[usize],
    at_name: bool,
) -> Result<Part, OutOfMemory> {
    let mut scratch = Scratch::new(alloc);
    let mut reader = Reader::new(text, &mut scratch)?;
    let mut name = 0;
    for place in path {
        name = step_into(&mut reader, *place);
    }
    let value = reader.offset();
    let _passed = reader.skip_value(MAX_DEPTH);
    let end = reader.offset();
    Ok(Part {
        start: if at_name { name } else { value },
        end: if at_name { value } else { end },
    })
}

// Goes to the item or member at this place of what comes next. The offset of the member's name.
fn step_into(reader: &mut Reader<'_>, place: usize) -> usize {
    let is_object = match reader.next() {
        Some(Token::BeginObject) => true,
        _ => false,
    };
    for _earlier in 0..place {
        if is_object {
            let _name = reader.next();
        }
        let _passed = reader.skip_value(MAX_DEPTH);
    }
    let name = reader.offset();
    if is_object {
        let _name = reader.next();
    }
    name
}

/// The path in words: `clients[0].retry[1]`, and a word for the whole, as "the script".
pub fn path_text(
    alloc: Global,
    script: &Value,
    path: &[usize],
    whole: &str,
) -> Result<String, OutOfMemory> {
    let mut text = String::new(alloc);
    let mut value = script;
    for place in path {
        push_step(alloc, &mut text, value, *place)?;
        value = child_at(value, *place);
    }
    if text.is_empty() {
        text.push_str(whole)?;
    }
    Ok(text)
}

// What stands at this place of a value, and the value itself where nothing does.
fn child_at<'v, 't>(value: &'v Value<'t>, place: usize) -> &'v Value<'t> {
    match value {
        Value::Array(items) => {
            if place < items.len() {
                &items[place]
            } else {
                value
            }
        }
        Value::Object(members) => {
            if place < members.len() {
                &members[place].1
            } else {
                value
            }
        }
        _ => value,
    }
}

// Adds an index or a member's name.
fn push_step(
    alloc: Global,
    text: &mut String,
    value: &Value,
    place: usize,
) -> Result<(), OutOfMemory> {
    match value {
        Value::Object(members) => match members.get(place) {
            Some(member) => push_name(text, member.0),
            None => Ok(()),
        },
        _ => {
            let index = format!(in alloc; "[{place}]")?;
            text.push_str(index.as_str())?;
            Ok(())
        }
    }
}

// Adds a member's name, cut where it is long.
fn push_name(text: &mut String, name: &str) -> Result<(), OutOfMemory> {
    if !text.is_empty() {
        text.push_str(".")?;
    }
    push_shown(text, name)
}

/// What stands in a part of a text, in one line, cut where it is long.
pub fn found_text(alloc: Global, text: &[u8], part: Part) -> Result<String, OutOfMemory> {
    let mut found = String::new(alloc);
    if let Some(bytes) = text.get(part.start..part.end) {
        if let Ok(slice) = str::from_utf8(bytes) {
            push_shown(&mut found, without_end(slice))?;
        }
    }
    if found.is_empty() {
        found.push_str("the end of the text")?;
    }
    Ok(found)
}

// Without the spaces and the comma behind a value.
fn without_end(text: &str) -> &str {
    let text = text.trim_end();
    match text.strip_suffix(",") {
        Some(front) => front.trim_end(),
        None => text,
    }
}

// Adds the first characters of a text, with a space for what can't be shown.
fn push_shown(text: &mut String, added: &str) -> Result<(), OutOfMemory> {
    let mut count = 0usize;
    for character in added.chars() {
        if count == FOUND_LIMIT {
            text.push_str("..")?;
        }
        if count < FOUND_LIMIT {
            text.push(if character.is_control() {
                ' '
            } else {
                character
            })?;
        }
        count = count.saturating_add(1);
    }
    Ok(())
}

//! What is said of a text that isn't the print of a run.

use runcheck::{Cause, Flaw, flaw_of};
use script_forms::place::{Part, found_text};
use script_forms::syntax::first_flaw;
use smithy_types::OutOfMemory;
use std::alloc::Global;

/// Why a text isn't the print of a run: its first line that is wrong, and what is wrong there. None
/// where it is one.
pub fn print_line(alloc: Global, text: &[u8]) -> Result<Option<String>, OutOfMemory> {
    match flaw_of(alloc, text)? {
        Some(flaw) => Ok(Some(flaw_line(alloc, text, flaw)?)),
        None => Ok(None),
    }
}

// The line of what is wrong.
fn flaw_line(alloc: Global, text: &[u8], flaw: Flaw) -> Result<String, OutOfMemory> {
    let number = flaw.line.saturating_add(1);
    let cause = flaw.cause;
    let found = line_at(text, flaw.line);
    let mut line = format!(in alloc; "print, line {number}: {cause}")?;
    match &cause {
        Cause::NotUtf8 => {}
        Cause::NotJson => push_expected(alloc, &mut line, found)?,
        Cause::PrintsAs(printed) | Cause::EndsAs(printed) => {
            push_difference(alloc, &mut line, found, printed.as_str().as_bytes())?;
        }
        _ => push_found(alloc, &mut line, found, 0)?,
    }
    Ok(line)
}

// What was found in a line from this byte on.
fn push_found(
    alloc: Global,
    line: &mut String,
    found: &[u8],
    start: usize,
) -> Result<(), OutOfMemory> {
    line.push_str(", found ")?;
    line.push_str(shown(alloc, found, start)?.as_str())?;
    Ok(())
}

// What is expected in a line that isn't JSON, and what was found.
fn push_expected(alloc: Global, line: &mut String, found: &[u8]) -> Result<(), OutOfMemory> {
    let Ok(text) = str::from_utf8(found) else {
        return Ok(());
    };
    if let Some(flaw) = first_flaw(alloc, text, "a JSON array")? {
        let column = column_of(found, flaw.offset);
        let expected = flaw.expected;
        line.push_str(format!(in alloc; ": column {column}: expected {expected}")?.as_str())?;
        push_found(alloc, line, found, flaw.offset)?;
    }
    Ok(())
}

// How a line prints, and what was found, each from the first character on that differs.
fn push_difference(
    alloc: Global,
    line: &mut String,
    found: &[u8],
    printed: &[u8],
) -> Result<(), OutOfMemory> {
    let same = same_front(found, printed);
    let column = column_of(found, same);
    line.push_str(format!(in alloc; ": column {column}: expected ")?.as_str())?;
    line.push_str(shown(alloc, printed, same)?.as_str())?;
    push_found(alloc, line, found, same)
}

// How many bytes at the front are the same, up to a whole character.
fn same_front(one: &[u8], other: &[u8]) -> usize {
    let mut same = 0usize;
    let mut whole = 0usize;
    for (a, b) in one.iter().zip(other) {
        if *a & 0xc0 != 0x80 {
            whole = same;
        }
        if *a != *b {
            return whole;
        }
        same = same.saturating_add(1);
    }
    same
}

// The column of this byte, from 1 on. Columns count characters.
fn column_of(line: &[u8], offset: usize) -> usize {
    line.iter()
        .take(offset)
        .filter(|byte| **byte & 0xc0 != 0x80)
        .count()
        .saturating_add(1)
}

// A line from this byte on, cut where it is long.
fn shown(alloc: Global, line: &[u8], start: usize) -> Result<String, OutOfMemory> {
    if start >= line.len() {
        return Ok(String::from_str(alloc, "the end of the line")?);
    }
    let part = Part {
        start,
        end: line.len(),
    };
    found_text(alloc, line, part)
}

// The line of a text behind so many others, without its line feed; no bytes where there is none.
fn line_at(text: &[u8], place: usize) -> &[u8] {
    let start = start_of(text, place);
    match text.get(start..) {
        Some(rest) => first_line(rest),
        None => &[],
    }
}

// Where the line behind so many others starts.
fn start_of(text: &[u8], place: usize) -> usize {
    let mut left = place;
    let mut start = 0usize;
    for byte in text {
        if left == 0 {
            return start;
        }
        if *byte == b'\n' {
            left = left.saturating_sub(1);
        }
        start = start.saturating_add(1);
    }
    start
}

// The bytes up to the first line feed.
fn first_line(text: &[u8]) -> &[u8] {
    let end = text.iter().position(|byte| *byte == b'\n');
    match end {
        Some(end) => match text.get(..end) {
            Some(line) => line,
            None => text,
        },
        None => text,
    }
}

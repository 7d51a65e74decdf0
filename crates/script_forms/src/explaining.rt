//! Why a script, or a line of a host, is refused.
ghost use Rattle.std.specs.Prelude.{◌≤◌, IfOk, length, string_bytes};
ghost use Rattle.script_forms.specs.Refusal.{TellsNoMessage};

use crate::finder::Finder;
use crate::place::{MAX_DEPTH, Part, found_text, line_and_column, part_at, path_text};
use crate::shape::TextKind;
use crate::syntax::{Flaw, first_flaw};
use crate::walk::is_of_form;
use json::{Error, Reader, Scratch, Value};
use smithy_types::OutOfMemory;
use std::alloc::Global;

/// The most bytes of a line's place and reason behind "no message".
const PLACE_LIMIT: usize = 1024;

/// Why a command refused its input.
#[derive(Clone, Copy, PartialEq, Eq)]
pub enum Cause {
    /// It isn't a script of the command.
    Form,
    /// It is a script, and passes a limit.
    Limit,
}

/// Where and why the bytes aren't of this kind, or which limit they pass: `client script, line 7,
/// column 12: clients[0].retry[1]: ..`. A message is a line, so of its place the column alone is
/// told: `column 12: [1]: ..`. None where no place is found.
pub fn explain(
    alloc: Global,
    kind: TextKind,
    bytes: &[u8],
    cause: Cause,
) -> Result<Option<String>, OutOfMemory> {
    match str::from_utf8(bytes) {
        Ok(text) => explain_text(alloc, kind, text, cause),
        Err(error) => {
            let offset = error.valid_up_to();
            let place = place_text(alloc, kind, bytes, offset)?;
            Ok(Some(format!(in alloc; "{place}not UTF-8 from here on")?))
        }
    }
}

// The same of a text.
fn explain_text(
    alloc: Global,
    kind: TextKind,
    text: &str,
    cause: Cause,
) -> Result<Option<String>, OutOfMemory> {
    if let Some(flaw) = first_flaw(alloc, text, kind.json_kind())? {
        return Ok(Some(not_json(alloc, kind, text, flaw)?));
    }
    let mut scratch = Scratch::new(alloc);
    let mut reader = Reader::new(text, &mut scratch)?;
    match Value::read(alloc, &mut reader, MAX_DEPTH) {
        Ok(script) => explain_value(alloc, kind, text, &script, cause),
        Err(Error::OutOfMemory) => Err(OutOfMemory),
        Err(_) => Ok(None),
    }
}

// The same of a value.
fn explain_value(
    alloc: Global,
    kind: TextKind,
    text: &str,
    script: &Value,
    cause: Cause,
) -> Result<Option<String>, OutOfMemory> {
    let mut finder = Finder::new(alloc, kind, script, cause == Cause::Limit);
    if is_of_form(&mut finder, script, kind.form())? {
        return Ok(None);
    }
    Ok(Some(found_line(alloc, kind, text, script, &finder)?))
}

// The line of what was found.
fn found_line(
    alloc: Global,
    kind: TextKind,
    text: &str,
    script: &Value,
    finder: &Finder,
) -> Result<String, OutOfMemory> {
    let part = part_at(alloc, text, finder.path.as_slice(), finder.at_name)?;
    let mut line = place_text(alloc, kind, text.as_bytes(), part.start)?;
    let path = path_text(alloc, script, finder.path.as_slice(), kind.whole())?;
    line.push_str(path.as_str())?;
    line.push_str(": ")?;
    line.push_str(finder.reason.as_str())?;
    if finder.shows_found {
        let found = found_text(alloc, text.as_bytes(), part)?;
        line.push_str(", found ")?;
        line.push_str(found.as_str())?;
    }
    line.push_str(finder.hint.as_str())?;
    Ok(line)
}

// The line of a text that isn't JSON.
fn not_json(alloc: Global, kind: TextKind, text: &str, flaw: Flaw) -> Result<String, OutOfMemory> {
    let place = place_text(alloc, kind, text.as_bytes(), flaw.offset)?;
    let part = Part {
        start: flaw.offset,
        end: text.len(),
    };
    let found = found_text(alloc, text.as_bytes(), part)?;
    let expected = flaw.expected;
    Ok(format!(in alloc; "{place}not JSON: expected {expected}, found {found}")?)
}

// `client script, line 7, column 12: `, and of a message the column alone.
fn place_text(
    alloc: Global,
    kind: TextKind,
    text: &[u8],
    offset: usize,
) -> Result<String, OutOfMemory> {
    let (line, column) = line_and_column(text, offset);
    match kind {
        TextKind::Script(kind) => {
            let command = kind.command();
            Ok(format!(in alloc; "{command} script, line {line}, column {column}: ")?)
        }
        TextKind::Description => {
            Ok(format!(in alloc; "description, line {line}, column {column}: ")?)
        }
        TextKind::Message => Ok(format!(in alloc; "column {column}: ")?),
    }
}

/// What the host of a line that is no message is told: that it is none, and behind that the place
/// and the reason, as `no message: column 24: [3][0][2]: expected a status, ..`. "no message" alone
/// where no place is found.
#[tactic(auto, using(crate::proofs::Refusal::tells_place))]
pub fn refusal_of_line(alloc: Global, line: &[u8]) -> Result<String, OutOfMemory>
    ensures { IfOk result (λ text. TellsNoMessage (string_bytes text)) }
{
    let place = place_in_line(alloc, line)?;
    let mut text = String::from_str(alloc, "no message")?;
    text.push_str(place.as_str())?;
    Ok(text)
}

// The place and the reason behind a colon. No text where no place is found, or one that is too long.
fn place_in_line(alloc: Global, line: &[u8]) -> Result<String, OutOfMemory>
    ensures { IfOk result (λ text. length (string_bytes text) ≤ 1024) }
{
    let mut text = String::new(alloc);
    if let Some(why) = explain(alloc, TextKind::Message, line, Cause::Form)? {
        text.push_str(": ")?;
        text.push_str(why.as_str())?;
    }
    if text.as_str().len() <= PLACE_LIMIT {
        Ok(text)
    } else {
        Ok(String::new(alloc))
    }
}

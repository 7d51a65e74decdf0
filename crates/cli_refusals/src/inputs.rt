//! What is said of an input that was refused.

use crate::keeping::{Kept, ends_line};
use crate::refusals::Call;
use cli_shell::status::Status;
use cli_shell::streams::INPUT_LIMIT;
use script_forms::{Cause, ScriptKind, TextKind, explain};
use smithy_types::OutOfMemory;
use std::alloc::Global;

/// The kind of scripts that the command reads; none where it reads none.
pub fn script_kind(command: &str) -> Option<ScriptKind> {
    match command {
        "replay" => Some(ScriptKind::Replay),
        "client" => Some(ScriptKind::Client),
        "fleet" => Some(ScriptKind::Fleet),
        "wait" => Some(ScriptKind::Wait),
        "waiters" => Some(ScriptKind::Waiters),
        _ => None,
    }
}

/// What of a command's input is kept, so that it can be told why it was refused. A host says more
/// and more, so of its lines the description alone is.
pub fn kept_of(command: &str) -> Kept {
    match command {
        "serve" => Kept::FirstLine,
        _ => Kept::All,
    }
}

/// Why the input of a call was refused: where it isn't a script, or which limit it passes.
pub fn input_line(alloc: Global, call: Call<'_>, status: Status) -> Result<String, OutOfMemory> {
    let command = call.command;
    if command == "make" {
        return Ok(String::from_str(alloc, "make: N is at most 1000")?);
    }
    if command == "serve" {
        return served_line(alloc, call.input, status);
    }
    if call.input.len() > INPUT_LIMIT {
        return Ok(format!(in alloc;
            "{command}: the input has more than 16777216 bytes, its limit"
        )?);
    }
    match script_kind(command) {
        Some(kind) => script_line(alloc, kind, call.input, status),
        None => Ok(format!(in alloc; "{command}: the input was refused")?),
    }
}

// Why a host isn't served, or no longer: what is wrong with the description, of which this was read,
// or that a line is too long.
fn served_line(alloc: Global, input: &[u8], status: Status) -> Result<String, OutOfMemory> {
    let told = match input.strip_suffix(b"\n") {
        Some(first) => explain(alloc, TextKind::Description, first, cause_of(status))?,
        None => None,
    };
    match told {
        Some(line) => Ok(line),
        None => Ok(String::from_str(alloc, unread_line(input, status))?),
    }
}

// Why a host isn't served, where nothing is wrong with the description, or there is none.
fn unread_line(input: &[u8], status: Status) -> &'static str {
    match status {
        Status::TooLarge => "serve: a line has more than 16777216 bytes, its limit",
        _ if ends_line(input) => "description: it was refused, and no reason was found",
        _ => "description: the input ends before the line feed of its first line",
    }
}

// What may be wrong with an input, by the status.
fn cause_of(status: Status) -> Cause {
    match status {
        Status::TooLarge => Cause::Limit,
        _ => Cause::Form,
    }
}

// The same of a script.
fn script_line(
    alloc: Global,
    kind: ScriptKind,
    input: &[u8],
    status: Status,
) -> Result<String, OutOfMemory> {
    match explain(alloc, TextKind::Script(kind), input, cause_of(status))? {
        Some(line) => Ok(line),
        None => {
            let command = kind.command();
            Ok(format!(in alloc; "{command} script: it was refused, and no reason was found")?)
        }
    }
}

//! What is said of arguments that are no command.

use crate::inputs::script_kind;
use script_forms::nearest;
use smithy_types::OutOfMemory;
use std::alloc::Global;

// All commands.
const COMMANDS: &[&str] = &[
    "replay",
    "client",
    "wait",
    "waiters",
    "fleet",
    "serve",
    "check",
    "make",
    "--schema",
    "--help",
    "--version",
];

/// Why these arguments are no command, of which this is the first.
pub fn words_line(alloc: Global, command: &str, words: usize) -> Result<String, OutOfMemory> {
    if words == 0 {
        return Ok(String::from_str(alloc, "a command is missing; try --help")?);
    }
    if command == "make" {
        let line = String::from_str(alloc, "make N SEED: two decimal numbers, N at most 1000")?;
        return Ok(line);
    }
    if command == "--schema" {
        let line = String::from_str(
            alloc,
            "--schema COMMAND: replay, client, fleet, wait or waiters",
        )?;
        return Ok(line);
    }
    if command == "check" || command == "serve" || script_kind(command).is_some() {
        return Ok(format!(in alloc; "give the script on standard input: {command} < FILE")?);
    }
    unknown_command(alloc, command)
}

// No command has this name.
fn unknown_command(alloc: Global, command: &str) -> Result<String, OutOfMemory> {
    match nearest(alloc, COMMANDS, command)? {
        Some(name) if name == command => Ok(format!(in alloc; "{name} stands alone; try --help")?),
        Some(name) => Ok(format!(in alloc; "no such command; did you mean {name}? Try --help")?),
        None => Ok(String::from_str(alloc, "no such command; try --help")?),
    }
}

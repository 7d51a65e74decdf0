//! What is said of a call that was refused.

use crate::inputs::input_line;
use crate::prints::print_line;
use crate::word_list::words_line;
use cli_shell::status::Status;
use smithy_types::OutOfMemory;
use std::alloc::Global;

/// A call of the program, and what it read.
#[derive(Clone, Copy)]
pub struct Call<'c> {
    /// The first of its arguments.
    pub command: &'c str,
    /// How many arguments it has.
    pub words: usize,
    /// What was read of the input.
    pub input: &'c [u8],
}

/// Why a call that ended with this status was refused, in a line; of a text that isn't a print, why
/// it is none. None where it wasn't refused for its arguments or its input.
pub fn refusal_line(
    alloc: Global,
    call: Call<'_>,
    status: Status,
) -> Result<Option<String>, OutOfMemory> {
    match status {
        Status::BadWords => Ok(Some(words_line(alloc, call.command, call.words)?)),
        Status::BadScript | Status::TooLarge => Ok(Some(input_line(alloc, call, status)?)),
        Status::CheckNo => print_line(alloc, call.input),
        _ => Ok(None),
    }
}

//! The words `--schema COMMAND`.

use crate::inputs::script_kind;
use cli_shell::command::Answer;
use cli_shell::serve::give;
use cli_shell::standard::StdSink;
use cli_shell::status::{PrintStatus, Status};
use script_forms::{ScriptKind, write_schema};
use std::alloc::Global;
use std::io::Write;

/// The kind of scripts whose schema two arguments ask for; none where they ask for none.
pub fn schema_kind(first: &str, second: &str) -> Option<ScriptKind> {
    if first == "--schema" {
        script_kind(second)
    } else {
        None
    }
}

/// Writes the schema of a kind of scripts.
pub fn print_schema<W: Write>(alloc: Global, kind: ScriptKind, writer: W) -> (Status, StdSink<W>) {
    let mut sink = StdSink::new(writer);
    let answer = match write_schema(alloc, kind) {
        Ok(text) => Ok(Answer::Print(text, PrintStatus::Ok)),
        Err(error) => Err(error),
    };
    let ended = give(answer, &mut sink);
    (ended.status(), sink)
}

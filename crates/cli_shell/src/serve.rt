//! The shell: it reads the input, hands it to the command and writes what the command says.
ghost use Rattle.std.specs.Prelude.{◌≡◌, ◌≤◌};
ghost use Rattle.cli_shell.specs.Shell.{Gives, Served, IsAnswered};

use crate::command::{Answer, Command, Telling};
use crate::sink::Sink;
use crate::source::Source;
use crate::status::{Ended, ShellStatus};
use crate::streams::{SinkFault, read_all, write_all};
use smithy_types::OutOfMemory;
use std::alloc::Global;

/// Serves a command that reads.
pub fn serve<C: Command, S: Source, K: Sink>(
    alloc: Global,
    command: &C,
    source: &mut S,
    sink: &mut K,
) -> Ended
    ensures served { Served K.view (C.says command.now) result (S.view source.old)
        (S.view source.new) sink.old sink.new }
    ensures source_count { (S.view source.old).faults ≤ (S.view source.new).faults }
    ensures sink_count { (K.view sink.old).faults ≤ (K.view sink.new).faults }
{
    match read_all(alloc, source) {
        Ok(bytes) => give(command.answer(alloc, bytes.as_slice()), sink),
        Err(status) => Ended::Shell(status),
    }
}

/// Writes what a command says that reads nothing.
pub fn show<C: Telling, K: Sink>(alloc: Global, command: &C, sink: &mut K) -> Ended
    ensures given { Gives K.view (C.tells command.now) result sink.old sink.new }
    ensures count { (K.view sink.old).faults ≤ (K.view sink.new).faults }
{
    give(command.tell(alloc), sink)
}

/// Writes what was answered.
pub fn give<K: Sink>(answer: Result<Answer, OutOfMemory>, sink: &mut K) -> Ended
    ensures given { Gives K.view (IsAnswered answer) result sink.old sink.new }
    ensures count { (K.view sink.old).faults ≤ (K.view sink.new).faults }
{
    match answer {
        Ok(Answer::Print(text, outcome)) => match write_all(sink, text.as_slice()) {
            Ok(()) => Ended::Printed(outcome),
            Err(SinkFault) => Ended::Shell(ShellStatus::WriteFault),
        },
        Ok(Answer::Refusal(refusal)) => Ended::Refused(refusal),
        Err(OutOfMemory) => Ended::Shell(ShellStatus::OutOfMemory),
    }
}

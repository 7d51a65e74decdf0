//! The program over a reader and a writer.
ghost use Rattle.std.specs.Prelude.{◌≡◌, IfSome};
ghost use Rattle.cli_commands.specs.Run.{Ran};
ghost use Rattle.cli_commands.specs.Words.{command_of};
ghost use Rattle.cli_replay.specs.LeftOver.{ReadLeft};

use crate::run::run_noted;
use cli_replay::left_over::LeftOver;
use cli_shell::sink::Sink;
use cli_shell::source::Source;
use cli_shell::standard::{StdSink, StdSource};
use cli_shell::status::Status;
use smithy_types::Text;
use std::alloc::Global;
use std::io::{Read, Write};
use std::sync::Wait;
use std::thread::Threads;

/// What a run of the program leaves.
#[derive(Drop)]
pub struct Finished<I, O> {
    /// How it ended.
    pub status: Status,
    /// The reader, and how many reads failed.
    pub source: StdSource<I>,
    /// The writer, and how many writes failed.
    pub sink: StdSink<O>,
    /// What a run of `replay` left over of its script's answers.
    pub left_over: Option<LeftOver>,
}

/// Does what the words say, from the reader and to the writer.
pub fn program<R: Threads + Wait + Sync, I: Read, O: Write>(
    rt: &R,
    alloc: Global,
    words: &[Text],
    reader: I,
    writer: O,
) -> Finished<I, O>
    ensures ran { Ran ⟦<StdSource<I> as Source>⟧.view ⟦<StdSink<O> as Sink>⟧.view (command_of words.now)
        result.status
        (record { reader = reader; errors = 0 }) result.source
        (record { writer = writer; errors = 0 }) result.sink }
    ensures left { IfSome result.left_over (λ l. ReadLeft
        (⟦<StdSource<I> as Source>⟧.view (record { reader = reader; errors = 0 }))
        (⟦<StdSource<I> as Source>⟧.view result.source) l) }
{
    let mut source = StdSource::new(reader);
    let mut sink = StdSink::new(writer);
    let (status, left_over) = run_noted(rt, alloc, words, &mut source, &mut sink);
    Finished {
        status,
        source,
        sink,
        left_over,
    }
}

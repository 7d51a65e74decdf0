//! The program over a source and a sink.
ghost use Rattle.std.specs.Prelude.{◌≡◌, ◌≢◌, Some, IfSome};
ghost use Rattle.cli_commands.specs.Run.{Did, Ran};
ghost use Rattle.cli_commands.specs.Words.{command_of};
ghost use Rattle.cli_replay.specs.LeftOver.{ReadLeft};

use crate::help::{HELP, VERSION};
use crate::words::{Command, command_in};
use cli_client::{ClientCommand, MakeCommand, MomentsCommand};
use cli_fleet::{Gate, OpenGate, answer_fleet};
use cli_replay::command::{Replay, serve_replay};
use cli_replay::left_over::LeftOver;
use cli_serve::serve_host;
use cli_shell::fixed::Fixed;
use cli_shell::serve::{give, serve, show};
use cli_shell::sink::Sink;
use cli_shell::source::Source;
use cli_shell::status::{Ended, ShellStatus, Status};
use cli_shell::streams::read_all;
use cli_wait::WaitCommand;
use cli_waiters::WaitersCommand;
use runcheck::command::Check;
use smithy_types::Text;
use std::alloc::Global;
use std::sync::Wait;
use std::thread::Threads;

/// Does what the words say.
pub fn run<R: Threads + Wait + Sync, S: Source, K: Sink>(
    rt: &R,
    alloc: Global,
    words: &[Text],
    source: &mut S,
    sink: &mut K,
) -> Status
    ensures { Ran S.view K.view (command_of words.now) result source.old source.new sink.old
        sink.new }
{
    run_gated(rt, alloc, words, source, sink, &OpenGate)
}

/// The same, with a gate before each call of a caller of `fleet`. Every other command is handed to
/// `run_alone`.
pub fn run_gated<R: Threads + Wait + Sync, S: Source, K: Sink, G: Gate + Sync>(
    rt: &R,
    alloc: Global,
    words: &[Text],
    source: &mut S,
    sink: &mut K,
    gate: &G,
) -> Status
    ensures { Ran S.view K.view (command_of words.now) result source.old source.new sink.old
        sink.new }
{
    match command_in(words) {
        Some(Command::Fleet) => serve_fleet(rt, alloc, source, sink, gate).status(),
        _ => run_alone(alloc, words, source, sink),
    }
}

// Serves the command that starts threads.
fn serve_fleet<R: Threads + Wait + Sync, S: Source, K: Sink, G: Gate + Sync>(
    rt: &R,
    alloc: Global,
    source: &mut S,
    sink: &mut K,
    gate: &G,
) -> Ended
    ensures { Did S.view K.view (Some Command.Fleet) result source.old source.new sink.old
        sink.new }
{
    match read_all(alloc, source) {
        Ok(bytes) => give(answer_fleet(rt, alloc, bytes.as_slice(), gate), sink),
        Err(status) => Ended::Shell(status),
    }
}

/// Does what the words say, as `run` does. Beside that it tells what a run of `replay` left over of
/// its script, and None of every other command.
pub fn run_noted<R: Threads + Wait + Sync, S: Source, K: Sink>(
    rt: &R,
    alloc: Global,
    words: &[Text],
    source: &mut S,
    sink: &mut K,
) -> (Status, Option<LeftOver>)
    ensures ran { Ran S.view K.view (command_of words.now) result.0 source.old source.new sink.old
        sink.new }
    ensures left { IfSome result.1 (λ l. ReadLeft (S.view source.old) (S.view source.new) l) }
{
    match command_in(words) {
        Some(Command::Replay) => {
            let (ended, left_over) = serve_replay(alloc, source, sink);
            (ended.status(), left_over)
        }
        _ => (run(rt, alloc, words, source, sink), None),
    }
}

/// Does what the words say, in this thread.
pub fn run_alone<S: Source, K: Sink>(
    alloc: Global,
    words: &[Text],
    source: &mut S,
    sink: &mut K,
) -> Status
    requires { command_of words.now ≢ Some Command.Fleet }
    ensures { Ran S.view K.view (command_of words.now) result source.old source.new sink.old
        sink.new }
{
    ended_alone(alloc, command_in(words), source, sink).status()
}

// Does a command that starts no thread.
fn ended_alone<S: Source, K: Sink>(
    alloc: Global,
    command: Option<Command>,
    source: &mut S,
    sink: &mut K,
) -> Ended
    requires { command ≢ Some Command.Fleet }
    ensures { Did S.view K.view command result source.old source.new sink.old sink.new }
{
    match command {
        Some(Command::Help) => show(alloc, &Fixed { text: HELP }, sink),
        Some(Command::Version) => show(alloc, &Fixed { text: VERSION }, sink),
        Some(Command::Replay) => serve(alloc, &Replay, source, sink),
        Some(Command::Client) => serve(alloc, &ClientCommand, source, sink),
        Some(Command::Moments) => serve(alloc, &MomentsCommand, source, sink),
        Some(Command::Wait) => serve(alloc, &WaitCommand, source, sink),
        Some(Command::Waiters) => serve(alloc, &WaitersCommand, source, sink),
        Some(Command::Fleet) => unreachable!(),
        Some(Command::Serve) => serve_host(alloc, source, sink),
        Some(Command::Check) => serve(alloc, &Check, source, sink),
        Some(Command::Make { count, seed }) => show(alloc, &MakeCommand { count, seed }, sink),
        None => Ended::Shell(ShellStatus::BadWords),
    }
}

//! The command that replays one run from a script of answers.
ghost use Rattle.std.specs.Prelude.{◌≡◌, ◌≤◌, [], IfOk, IfSome, length};
ghost use Rattle.cli_shell.specs.Said.{said};
ghost use Rattle.cli_shell.specs.Scripts.{script_says};
ghost use Rattle.cli_shell.specs.Shell.{Served};
ghost use Rattle.json_print.specs.Endings.{Ends};
ghost use Rattle.cli_replay.specs.LeftOver.{ReadLeft, TellsLeft, script_tells, tells_left};
ghost use Rattle.cli_replay.specs.Replay.{IsReplay, replay_means, replay_says};
ghost use Rattle.cli_replay.specs.Taking.{Takes};

use crate::left_over::LeftOver;
use crate::script::replay::{Script, is_within, read_script};
use crate::world::ReplayWorld;
use cli_shell::command::{Answer, Command};
use cli_shell::serve::give;
use cli_shell::sink::Sink;
use cli_shell::source::Source;
use cli_shell::status::{Ended, PrintStatus, Refusal};
use cli_shell::streams::read_all;
use json_forms::ReadError;
use json_print::print::print_run;
use json_print::world::{PayloadOperation, outcome_of, run_over};
use json_print::{Ending, RunHead};
use smithy_types::{OutOfMemory, Text};
use std::alloc::Global;

/// Replays the script that the input is, and prints the run.
#[derive(Drop)]
pub struct Replay;

impl Command for Replay {
    ghost use Rattle.cli_replay.specs.Replay.{replay_says};

    ghost says = { λ _ bytes s. replay_says bytes s };

    fn answer(&self, alloc: Global, bytes: &[u8]) -> Result<Answer, OutOfMemory> {
        Ok(answer_noted(alloc, bytes)?.answer)
    }
}

/// What `replay` says of its input, and what its run left over.
#[derive(Drop)]
pub struct Noted {
    /// What it says.
    pub answer: Answer,
    /// The answers of the script that were left over. None where the run took all, and where
    /// nothing was run.
    pub left_over: Option<LeftOver>,
}

/// What is said of these bytes, and what the run of their script left over.
#[tactic(auto, using(cli_shell::proofs::Saying::script_said, crate::proofs::Saying::script_left))]
pub fn answer_noted(alloc: Global, bytes: &[u8]) -> Result<Noted, OutOfMemory>
    ensures said { IfOk result (λ n. replay_says bytes.now (said n.answer)) }
    ensures left { IfOk result (λ n. tells_left bytes.now (said n.answer) n.left_over) }
{
    match read_script(alloc, bytes) {
        Ok(script) => answer_to(alloc, script),
        Err(ReadError::Refused) => Ok(Noted {
            answer: Answer::Refusal(Refusal::BadScript),
            left_over: None,
        }),
        Err(ReadError::Memory) => Err(OutOfMemory),
    }
}

// What is said of a script, and what its run left over.
fn answer_to(alloc: Global, script: Script) -> Result<Noted, OutOfMemory>
    ensures said { IfOk result (λ n. script_says replay_means script (said n.answer)) }
    ensures left { IfOk result (λ n. script_tells script (said n.answer) n.left_over) }
{
    if !is_within(alloc, &script)? {
        return Ok(Noted {
            answer: Answer::Refusal(Refusal::TooLarge),
            left_over: None,
        });
    }
    let replayed = print_of_script(alloc, script)?;
    Ok(Noted {
        answer: Answer::Print(replayed.text, replayed.outcome),
        left_over: replayed.left_over,
    })
}

// A script's run: its print, what it came to, and what it left over.
#[derive(Drop)]
struct Replayed {
    text: Vec<u8>,
    outcome: PrintStatus,
    left_over: Option<LeftOver>,
}

// Runs the operation against the script's answers.
fn print_of_script(alloc: Global, script: Script) -> Result<Replayed, OutOfMemory>
    ensures print { IfOk result (λ r. IsReplay script r.text.items r.outcome) }
    ensures left { IfOk result (λ r. TellsLeft script r.left_over) }
{
    let Script { head, answers } = script;
    let count = answers.len();
    let mut world = ReplayWorld::with_capacity(alloc, answers, head.fuel as usize)?;
    let ending = run_script(alloc, &head, &mut world)?;
    let left_over = world.left_over(count);
    let entries = world.into_entries();
    let text = print_run(alloc, &head, entries.as_slice(), &ending)?;
    let outcome = outcome_of(&ending);
    Ok(Replayed {
        text,
        outcome,
        left_over,
    })
}

// Runs the operation to its end, or to its stop point.
fn run_script(alloc: Global, head: &RunHead, world: &mut ReplayWorld) -> Result<Ending, OutOfMemory>
    ensures ends { IfOk result (λ e. Ends head.now world.old.log world.new.log e) }
    ensures takes { IfOk result (λ e. world.old.log ≡ [] → world.old.until ≡ 0
        → Takes world.old.answers 0 0 world.new.log world.new.answers (length world.new.log)
        world.new.until) }
{
    let operation = PayloadOperation::named(Text::new(), Text::new());
    run_over(alloc, &operation, head, world)
}

/// Serves `replay`, and tells what the run of its input left over.
pub fn serve_replay<S: Source, K: Sink>(
    alloc: Global,
    source: &mut S,
    sink: &mut K,
) -> (Ended, Option<LeftOver>)
    ensures served { Served K.view replay_says result.0 (S.view source.old) (S.view source.new)
        sink.old sink.new }
    ensures source_count { (S.view source.old).faults ≤ (S.view source.new).faults }
    ensures sink_count { (K.view sink.old).faults ≤ (K.view sink.new).faults }
    ensures left { IfSome result.1 (λ l. ReadLeft (S.view source.old) (S.view source.new) l) }
{
    match read_all(alloc, source) {
        Ok(bytes) => match answer_noted(alloc, bytes.as_slice()) {
            Ok(noted) => (give(Ok(noted.answer), sink), noted.left_over),
            Err(error) => (give(Err(error), sink), None),
        },
        Err(status) => (Ended::Shell(status), None),
    }
}

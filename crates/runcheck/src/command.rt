//! The command that tells whether its input is the print of a run.
ghost use Rattle.std.specs.Prelude.{◌≡◌, IfOk};
ghost use Rattle.cli_shell.specs.Said.{prints, said};
ghost use Rattle.runcheck.specs.Check.{line_of, verdict_says};

use crate::{Verdict, check};
use cli_shell::command::{Answer, Command};
use cli_shell::status::PrintStatus;
use json_forms::Json;
use smithy_types::OutOfMemory;
use std::alloc::Global;

/// Tells whether the input is the print of a whole run and of its answer.
#[derive(Drop)]
pub struct Check;

impl Command for Check {
    ghost use Rattle.runcheck.specs.Check.{check_says};

    ghost says = { λ _ bytes s. check_says bytes s };

    #[tactic(auto, using(crate::proofs::CheckSaying::verdict_said))]
    fn answer(&self, alloc: Global, bytes: &[u8]) -> Result<Answer, OutOfMemory> {
        let verdict = check(alloc, bytes)?;
        let answer = answer_by(alloc, verdict)?;
        Ok(answer)
    }
}

// What is said by a verdict.
fn answer_by(alloc: Global, verdict: Verdict) -> Result<Answer, OutOfMemory>
    ensures { IfOk result (λ a. verdict_says verdict (said a)) }
{
    match verdict {
        Verdict::Yes => print_word(alloc, "yes", PrintStatus::Ok),
        Verdict::No => print_word(alloc, "no", PrintStatus::CheckNo),
    }
}

// A print of one word.
fn print_word(alloc: Global, word: &str, outcome: PrintStatus) -> Result<Answer, OutOfMemory>
    ensures { IfOk result (λ a. said a ≡ prints outcome (line_of word.now)) }
{
    let text = write_word(alloc, word)?;
    Ok(Answer::Print(text, outcome))
}

// The line of one word.
fn write_word(alloc: Global, word: &str) -> Result<Vec<u8>, OutOfMemory>
    ensures { IfOk result (λ v. v.items ≡ line_of word.now) }
{
    let mut text = Vec::new(alloc);
    Json::single(alloc, Json::text(alloc, word)?)?.write_line(alloc, &mut text)?;
    Ok(text)
}

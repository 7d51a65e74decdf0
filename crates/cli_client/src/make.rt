//! The command that runs clients over a script that is made from a number.
ghost use Rattle.std.specs.Prelude.{◌≡◌, ◌≤◌, IfOk};
ghost use Rattle.cli_client.specs.Client.{make_says};
ghost use Rattle.cli_shell.specs.Said.{said};

use crate::play::play_script;
use crate::report::Report;
use cli_client_runs::Notes;
use cli_shell::command::{Answer, Telling};
use cli_shell::status::Refusal;
use json_scripts::workload::made_script;
use smithy_types::OutOfMemory;
use std::alloc::Global;

/// The most invocations that are made.
const MOST_INVOCATIONS: u64 = 1000;

/// Makes a script of so many invocations by a seed, runs its client, and prints how many came out
/// well, how many calls they made, and the sums of their bucket.
#[derive(Debug, Drop)]
pub struct MakeCommand {
    /// How many invocations are made.
    pub count: u64,
    /// The seed of the words by which each invocation meets failures.
    pub seed: u64,
}

impl Telling for MakeCommand {
    ghost use Rattle.cli_client.specs.Client.{make_says};

    ghost tells = { λ make s. make_says make.count make.seed s };

    fn tell(&self, alloc: Global) -> Result<Answer, OutOfMemory> {
        if self.count > MOST_INVOCATIONS {
            return Ok(Answer::Refusal(Refusal::TooLarge));
        }
        let answer = played(alloc, self.count, self.seed)?;
        Ok(answer)
    }
}

// What is told of the made script.
fn played(alloc: Global, count: u64, seed: u64) -> Result<Answer, OutOfMemory>
    requires { count ≤ 1000 }
    ensures { IfOk result (λ a. make_says count seed (said a)) }
{
    let script = made_script(alloc, count, seed)?;
    let notes = Notes::new(false);
    let played = play_script(alloc, script, Report::Counts { count, seed }, notes)?;
    Ok(Answer::Print(played.text, played.outcome))
}

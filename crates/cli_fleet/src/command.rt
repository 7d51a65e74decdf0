//! What `fleet` answers to the bytes of its input. It starts threads, so it is no `Command`.
ghost use Rattle.std.specs.Prelude.{◌≡◌, IfOk};
ghost use Rattle.cli_fleet.specs.Fleet.{fleet_means, fleet_says};
ghost use Rattle.json_scripts.specs.Fleet.Placed.{IsPlaced};
ghost use Rattle.cli_shell.specs.Said.{said};
ghost use Rattle.cli_shell.specs.Scripts.{script_says};

use crate::gate::Gate;
use crate::play::play_fleet;
use cli_shell::command::Answer;
use cli_shell::status::Refusal;
use json_forms::ReadError;
use json_scripts::fleet::{FleetScript, fleet_script_fits, read_fleet_script};
use smithy_types::OutOfMemory;
use std::alloc::Global;
use std::sync::Wait;
use std::thread::Threads;

/// Runs the callers of the script that the input is, and prints each with its invocations, the sums
/// of the bucket, and how many steps it made. Each call of a caller's outside passes the gate.
#[tactic(auto, using(cli_shell::proofs::Saying::script_said))]
pub fn answer_fleet<R: Threads + Wait + Sync, G: Gate + Sync>(
    rt: &R,
    alloc: Global,
    bytes: &[u8],
    gate: &G,
) -> Result<Answer, OutOfMemory>
    ensures { IfOk result (λ a. fleet_says bytes.now (said a)) }
{
    match read_fleet_script(alloc, bytes) {
        Ok(script) => answer_to(rt, alloc, script, gate),
        Err(ReadError::Refused) => Ok(Answer::Refusal(Refusal::BadScript)),
        Err(ReadError::Memory) => Err(OutOfMemory),
    }
}

// What is said of a script.
fn answer_to<R: Threads + Wait + Sync, G: Gate + Sync>(
    rt: &R,
    alloc: Global,
    script: FleetScript,
    gate: &G,
) -> Result<Answer, OutOfMemory>
    requires { IsPlaced script }
    ensures { IfOk result (λ a. script_says fleet_means script (said a)) }
{
    if !fleet_script_fits(&script) {
        return Ok(Answer::Refusal(Refusal::TooLarge));
    }
    let (text, outcome) = play_fleet(rt, alloc, script, gate)?;
    Ok(Answer::Print(text, outcome))
}

//! The command that runs a waiter over a script.
ghost use Rattle.std.specs.Prelude.{◌≡◌, ◌≤◌, true, IfOk};
ghost use Rattle.cli_wait.specs.Wait.{IsWait};
ghost use Rattle.cli_wait.specs.Walk.{EndsBy};
ghost use Rattle.cli_wait.specs.Script.{IsBuildable, is_within};

use crate::ending::WaitEnding;
use crate::print::print_wait;
use crate::walk::walked;
use crate::{ScriptedTimers, WaitScript, is_within, read_script};
use cli_shell::script_command::ScriptCommand;
use cli_shell::status::PrintStatus;
use json_forms::ReadError;
use smithy_types::OutOfMemory;
use std::alloc::Global;

/// Runs the waiter of the script that the input is, and prints its polls and sleeps.
#[derive(Drop)]
pub struct WaitCommand;

impl ScriptCommand for WaitCommand {
    ghost use Rattle.cli_wait.specs.Wait.{wait_means};

    type Script = WaitScript;

    ghost means = { wait_means };

    fn read(&self, alloc: Global, bytes: &[u8]) -> Result<WaitScript, ReadError> {
        read_script(alloc, bytes)
    }

    fn fits(&self, script: &WaitScript) -> bool {
        is_within(script)
    }

    fn play(
        &self,
        alloc: Global,
        script: WaitScript,
    ) -> Result<(Vec<u8>, PrintStatus), OutOfMemory> {
        print_of(alloc, script)
    }
}

// Runs the waiter, and prints it.
fn print_of(alloc: Global, script: WaitScript) -> Result<(Vec<u8>, PrintStatus), OutOfMemory>
    requires buildable { IsBuildable script }
    requires within { is_within script ≡ true }
    ensures { IfOk result (λ p. IsWait script p.0.items p.1) }
{
    let WaitScript {
        min,
        max,
        max_wait,
        start,
        fuel,
        words,
        polls,
    } = script;
    let mut timers = ScriptedTimers::new(alloc, start, words, polls);
    let ending = ending_by(alloc, min, max, max_wait, &mut timers, fuel)?;
    let text = print_wait(alloc, timers.notes.as_slice(), &ending)?;
    Ok((text, ending.status()))
}

// Runs a waiter of these delays, and tells how it ended.
fn ending_by(
    alloc: Global,
    min: u64,
    max: u64,
    max_wait: u64,
    timers: &mut ScriptedTimers,
    fuel: u64,
) -> Result<WaitEnding, OutOfMemory>
    requires a_second { 1000000000 ≤ min }
    requires in_order { min ≤ max }
    requires nothing_counted { timers.old.unready ≡ 0 }
    requires few { fuel ≤ 100000 }
    ensures { IfOk result (λ e. EndsBy min max max_wait timers.old fuel e timers.new) }
{
    let waited = walked(alloc, min, max, max_wait, timers, fuel);
    WaitEnding::of(&waited)
}

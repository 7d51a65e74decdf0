//! The command that runs a script's waiters under one bucket.
ghost use Rattle.std.specs.Prelude.{◌≡◌, true, IfOk};
ghost use Rattle.cli_waiters.specs.Waiters.{IsWaiters};
ghost use Rattle.cli_waiters.specs.Script.Script.{are_good, is_within};

use crate::fleet::{ScriptedFleet, plans_of};
use crate::print::{print_fleet, status_of};
use crate::running::waited;
use crate::script::{WaitersScript, is_within, read_script};
use cli_shell::script_command::ScriptCommand;
use cli_shell::status::PrintStatus;
use json_forms::ReadError;
use retry_quota::TokenBucket;
use smithy_types::OutOfMemory;
use std::alloc::Global;

/// Runs the waiters of the script that the input is, and prints what happened.
#[derive(Drop)]
pub struct WaitersCommand;

impl ScriptCommand for WaitersCommand {
    ghost use Rattle.cli_waiters.specs.Waiters.{waiters_means};

    type Script = WaitersScript;

    ghost means = { waiters_means };

    fn read(&self, alloc: Global, bytes: &[u8]) -> Result<WaitersScript, ReadError> {
        read_script(alloc, bytes)
    }

    fn fits(&self, script: &WaitersScript) -> bool {
        is_within(script)
    }

    fn play(
        &self,
        alloc: Global,
        script: WaitersScript,
    ) -> Result<(Vec<u8>, PrintStatus), OutOfMemory> {
        print_of(alloc, script)
    }
}

// Runs the waiters, and prints what happened.
fn print_of(alloc: Global, script: WaitersScript) -> Result<(Vec<u8>, PrintStatus), OutOfMemory>
    requires good { are_good script.waiters ≡ true }
    requires within { is_within script ≡ true }
    ensures { IfOk result (λ p. IsWaiters script p.0.items p.1) }
{
    let WaitersScript {
        bucket,
        start,
        fuel,
        words,
        waiters,
    } = script;
    let plans = plans_of(alloc, waiters.as_slice())?;
    let mut bucket = TokenBucket::with_terms(bucket);
    let mut world = ScriptedFleet::new(alloc, start, words, waiters)?;
    let events = waited(alloc, plans.as_slice(), &mut bucket, &mut world, fuel)?;
    let text = print_fleet(alloc, events.as_slice(), bucket.sums())?;
    Ok((text, status_of(events.as_slice())))
}

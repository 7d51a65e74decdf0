//! The command that runs clients over a script, and prints the moments of their entries too.
ghost use Rattle.std.specs.Prelude.{IfOk};
ghost use Rattle.cli_client.specs.Moments.{IsMarkedRun};
ghost use Rattle.json_scripts.specs.Client.Placed.{IsPlaced};

use crate::marks::with_moments;
use crate::play::play_script;
use crate::report::Report;
use cli_client_runs::Notes;
use cli_shell::script_command::ScriptCommand;
use cli_shell::status::PrintStatus;
use json_forms::ReadError;
use json_scripts::client::{ClientScript, client_script_fits, read_client_script};
use smithy_types::OutOfMemory;
use std::alloc::Global;

/// Prints what `ClientCommand` prints, with a line `["at",ns]` before each entry whose moment is
/// another than that of the entry before it. The moment is that of the clock once the question was
/// answered.
#[derive(Drop)]
pub struct MomentsCommand;

impl ScriptCommand for MomentsCommand {
    ghost use Rattle.cli_client.specs.Moments.{moments_means};

    type Script = ClientScript;

    ghost means = { moments_means };

    fn read(&self, alloc: Global, bytes: &[u8]) -> Result<ClientScript, ReadError> {
        read_client_script(alloc, bytes)
    }

    fn fits(&self, script: &ClientScript) -> bool {
        client_script_fits(script)
    }

    fn play(
        &self,
        alloc: Global,
        script: ClientScript,
    ) -> Result<(Vec<u8>, PrintStatus), OutOfMemory> {
        print_script(alloc, script)
    }
}

// The print of the script's invocations, with their moments.
fn print_script(alloc: Global, script: ClientScript) -> Result<(Vec<u8>, PrintStatus), OutOfMemory>
    requires { IsPlaced script }
    ensures { IfOk result (λ p. IsMarkedRun script p.0.items p.1) }
{
    let played = play_script(alloc, script, Report::Print, Notes::new(true))?;
    let text = with_moments(alloc, played.text.as_slice(), played.moments.as_slice())?;
    Ok((text, played.outcome))
}

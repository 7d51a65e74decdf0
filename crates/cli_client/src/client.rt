//! The command that runs clients over a script.
use crate::play::play_script;
use crate::report::Report;
use cli_client_runs::Notes;
use cli_shell::script_command::ScriptCommand;
use cli_shell::status::PrintStatus;
use json_forms::ReadError;
use json_scripts::client::{ClientScript, client_script_fits, read_client_script};
use smithy_types::OutOfMemory;
use std::alloc::Global;

/// Runs the clients of the script that the input is, and prints each invocation, the sums of the
/// buckets, and how many loads of identities were begun.
#[derive(Drop)]
pub struct ClientCommand;

impl ScriptCommand for ClientCommand {
    ghost use Rattle.cli_client.specs.Client.{client_means};

    type Script = ClientScript;

    ghost means = { client_means };

    fn read(&self, alloc: Global, bytes: &[u8]) -> Result<ClientScript, ReadError> {
        read_client_script(alloc, bytes)
    }

    fn fits(&self, script: &ClientScript) -> bool {
        client_script_fits(script)
    }

    fn play(
        &self,
        alloc: Global,
        script: ClientScript,
    ) -> Result<(Vec<u8>, PrintStatus), OutOfMemory> {
        let played = play_script(alloc, script, Report::Print, Notes::new(false))?;
        Ok((played.text, played.outcome))
    }
}

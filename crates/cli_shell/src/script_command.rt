//! Commands whose input is a script.
ghost use Rattle.std.specs.Prelude.{◌≡◌, true, IfOk, IsErrOf};
ghost use Rattle.cli_shell.specs.Said.{said};
ghost use Rattle.cli_shell.specs.Scripts.{bytes_say, script_says};

use crate::command::{Answer, Command};
use crate::status::{PrintStatus, Refusal};
use json_forms::ReadError;
use smithy_types::OutOfMemory;
use std::alloc::Global;

/// A command whose input is a script. What it says to bytes follows from what its scripts are and
/// what it prints of each: no script is `BadScript`, one past its limits `TooLarge`, and all others
/// are played.
pub trait ScriptCommand {
    ghost use Rattle.cli_shell.specs.Scripts.{ScriptMeaning};

    /// What it plays.
    type Script: Drop;

    /// What its scripts are, and what is printed of each.
    ghost means: { ScriptMeaning Self.Script };

    /// The script that the bytes are the text of. It is refused exactly where they are the text of
    /// none.
    fn read(&self, alloc: Global, bytes: &[u8]) -> Result<Self::Script, ReadError>
        ensures found { IfOk result (λ s. means.is_script bytes.now s) }
        ensures sound { IfOk result (λ s. means.is_sound s) }
        ensures refused { IsErrOf result ReadError.Refused →
            (s : _) → means.is_script bytes.now s → ⊥ };

    /// Whether the script is within its limits.
    fn fits(&self, script: &Self::Script) -> bool
        ensures { result ≡ means.fits script.now };

    /// Plays the script. The print is what came of it, and the status what that comes to.
    fn play(
        &self,
        alloc: Global,
        script: Self::Script,
    ) -> Result<(Vec<u8>, PrintStatus), OutOfMemory>
        requires sound { means.is_sound script }
        requires fits { means.fits script ≡ true }
        ensures { IfOk result (λ p. means.is_print script p.0.items p.1) };
}

impl<C: ScriptCommand> Command for C {
    ghost use Rattle.cli_shell.specs.Scripts.{bytes_say};

    ghost says = { λ _ bytes s. bytes_say C.means bytes s };

    fn answer(&self, alloc: Global, bytes: &[u8]) -> Result<Answer, OutOfMemory> {
        answer_bytes(self, alloc, bytes)
    }
}

// What is said of the bytes.
#[tactic(auto, using(crate::proofs::Saying::script_said))]
fn answer_bytes<C: ScriptCommand>(
    command: &C,
    alloc: Global,
    bytes: &[u8],
) -> Result<Answer, OutOfMemory>
    ensures { IfOk result (λ a. bytes_say C.means bytes.now (said a)) }
{
    match command.read(alloc, bytes) {
        Ok(script) => answer_script(command, alloc, script),
        Err(ReadError::Refused) => Ok(Answer::Refusal(Refusal::BadScript)),
        Err(ReadError::Memory) => Err(OutOfMemory),
    }
}

// What is said of a script.
fn answer_script<C: ScriptCommand>(
    command: &C,
    alloc: Global,
    script: C::Script,
) -> Result<Answer, OutOfMemory>
    requires { C.means.is_sound script }
    ensures { IfOk result (λ a. script_says C.means script (said a)) }
{
    if !command.fits(&script) {
        return Ok(Answer::Refusal(Refusal::TooLarge));
    }
    let (text, status) = command.play(alloc, script)?;
    Ok(Answer::Print(text, status))
}

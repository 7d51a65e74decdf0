//! Commands that read nothing: a text of the program's own, and what isn't built yet.
ghost use Rattle.std.specs.Prelude.{◌≡◌};

use crate::command::{Answer, Telling};
use crate::status::{PrintStatus, Refusal};
use smithy_types::OutOfMemory;
use std::alloc::Global;

/// Prints a text of the program's own.
#[derive(Drop)]
pub struct Fixed {
    /// What is printed.
    pub text: &'static str,
}

impl Telling for Fixed {
    ghost use Rattle.cli_shell.specs.Fixed.{tells_text};

    ghost tells = { λ command s. tells_text command.text.now s };

    fn tell(&self, alloc: Global) -> Result<Answer, OutOfMemory> {
        let mut text = Vec::new(alloc);
        text.extend_from_slice(self.text.as_bytes())?;
        Ok(Answer::Print(text, PrintStatus::Ok))
    }
}

/// A command that isn't built yet.
#[derive(Drop)]
pub struct Unbuilt;

impl Telling for Unbuilt {
    ghost use Rattle.cli_shell.specs.Fixed.{tells_unbuilt};

    ghost tells = { λ _ s. tells_unbuilt s };

    fn tell(&self, _alloc: Global) -> Result<Answer, OutOfMemory> {
        Ok(Answer::Refusal(Refusal::NotBuilt))
    }
}

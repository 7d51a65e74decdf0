//! What a command is.
ghost use Rattle.std.specs.Prelude.{◌≡◌, ◌≤◌, length, IfOk};

use crate::status::{PrintStatus, Refusal};
use smithy_types::OutOfMemory;
use std::alloc::Global;

/// What a command answers.
#[derive(Debug, Drop)]
pub enum Answer {
    /// A text to be written, and what it came to.
    Print(Vec<u8>, PrintStatus),
    /// There is nothing to be written.
    Refusal(Refusal),
}

/// A command that answers to the bytes of its input. It knows nothing of sources, sinks, faults
/// and words.
pub trait Command {
    ghost use Rattle.std.specs.Prelude.{List, ℕ};
    ghost use Rattle.cli_shell.specs.Said.{Said, said};

    /// What it may say to these bytes: a print, or that they are no script or pass a limit.
    ghost says: { Self → List ℕ → Said → Type 0 };

    /// What the command says to these bytes.
    fn answer(&self, alloc: Global, bytes: &[u8]) -> Result<Answer, OutOfMemory>
        ensures { IfOk result (λ a. says self.now bytes.now (said a)) };
}

/// A command that reads nothing.
pub trait Telling {
    ghost use Rattle.cli_shell.specs.Said.{Said, said};

    /// What it may say.
    ghost tells: { Self → Said → Type 0 };

    /// What the command says.
    fn tell(&self, alloc: Global) -> Result<Answer, OutOfMemory>
        ensures { IfOk result (λ a. tells self.now (said a)) };
}

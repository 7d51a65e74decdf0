//! What holds of every command that says one thing to the same bytes.
ghost use Rattle.cli_shell.specs.Determined.{OneStatus, OneText};

use crate::command::Command;
use crate::sink::Sink;

/// A command that says one thing to the same bytes.
pub trait Settled: Command {
    ghost use Rattle.cli_shell.specs.Determined.{IsFunctional};

    /// It says one thing at most.
    ghost one_says: { (command : Self) → IsFunctional (Self.says command) };
}

/// Of two servings of such a command over the same bytes, faults and want of memory aside, the
/// statuses are the same, and so is what was written.
pub fn servings_are_determined<C: Settled, K: Sink>()
    ensures status { (command : C) → OneStatus K.view (C.says command) }
    ensures text { (command : C) → OneText K.view (C.says command) }
{}

//! Two runs of `wait` over the same bytes print the same. The function does nothing: its contract
//! is the law.

ghost use Rattle.cli_shell.specs.Determined.{OneStatus, OneText};
ghost use Rattle.cli_wait.specs.Wait.{wait_says};

use cli_shell::sink::Sink;

/// Of two runs of `wait` over the same bytes, neither of which had a fault or ran out of memory,
/// the statuses are the same, and so is what was written.
pub fn waits_are_determined<K: Sink>()
    ensures status { OneStatus K.view wait_says }
    ensures text { OneText K.view wait_says }
{}

//! What holds of every run of `waiters`. The function does nothing: its contract is the law.
ghost use Rattle.cli_shell.specs.Determined.{OneStatus, OneText};
ghost use Rattle.cli_waiters.specs.Waiters.{waiters_says};

use cli_shell::sink::Sink;

/// Of two runs of `waiters` over the same bytes, neither of which had a fault or ran out of memory,
/// the statuses are the same, and so is what was written.
pub fn waiters_are_determined<K: Sink>()
    ensures status { OneStatus K.view waiters_says }
    ensures text { OneText K.view waiters_says }
{}

//! What holds of every replay. Each law is the contract of a function without a body.
ghost use Rattle.cli_shell.specs.Determined.{OneStatus, OneText};
ghost use Rattle.cli_replay.specs.Laws.{EachScriptIsReplayed, ReplaysAreChecked, ReplaysAreReached};
ghost use Rattle.cli_replay.specs.Replay.{replay_says};

use cli_shell::sink::Sink;

/// Of two runs of `replay` over the same bytes, neither of which had a fault or ran out of
/// memory, the statuses are the same, and so is what was written.
pub fn replays_are_determined<K: Sink>()
    ensures status { OneStatus K.view replay_says }
    ensures text { OneText K.view replay_says }
{}

/// Faults and want of memory aside, every script that is within its limits is replayed: it is
/// neither refused nor too large.
pub fn scripts_are_replayed<K: Sink>()
    ensures { EachScriptIsReplayed K.view }
{}

/// What `replay` prints with the statuses 0, 10 and 12 is the print of a whole run, to which
/// `check` answers Yes. What it prints with the status 11 is not, and `check` answers No to it.
pub fn replays_are_reached()
    ensures reached { ReplaysAreReached }
    ensures checked { ReplaysAreChecked }
{}

//! What a guard's log keeps of a body's answers.
ghost use Rattle.std.specs.Prelude.{◌≡◌, List};
ghost use Rattle.stream_guard.specs.Logs.{Keeps, SameSettings};
ghost use Rattle.stream_guard.specs.Report.{Came};
ghost use Rattle.body_guard.specs.Events.{Sees, with_event};

use smithy_types::Polled;
use stream_guard::{ThroughputLogs, ThroughputReport};

/// Adds the event of an answer, where it is one: bytes, or nothing yet.
pub(crate) fn push_event(logs: &mut ThroughputLogs, now: u64, answer: &Polled)
    ensures settings { SameSettings logs.old logs.new }
    ensures kept { (came : List Came) → Keeps logs.old came
        → Keeps logs.new (with_event came now answer.now) }
{
    match answer {
        Polled::Data(bytes) => logs.push_bytes_transferred(now, bytes.len() as u64),
        Polled::Pending => logs.push_pending(now),
        _ => {}
    }
}

/// Adds the event of an answer, where it is one, and looks at what came.
pub(crate) fn see(logs: &mut ThroughputLogs, now: u64, answer: &Polled) -> ThroughputReport
    ensures { Sees logs.old answer.now now result logs.new }
{
    push_event(logs, now, answer);
    logs.report(now)
}

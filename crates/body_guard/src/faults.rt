//! How a guard fails a body.
ghost use Rattle.std.specs.Prelude.{◌≡◌, Some, IfOk};
ghost use Rattle.body_guard.specs.Texts.{below_text, no_sleep, response_fault};

use smithy_types::{Fault, FaultKind, OutOfMemory, Text};
use std::alloc::Global;
use std::error::Error;
use std::fmt;
use stream_guard::Throughput;

/// A stream was slower than it has to be for longer than it may.
#[derive(Clone, Copy, Debug, PartialEq)]
pub struct ThroughputBelowMinimum {
    /// How fast it has to be.
    pub expected: Throughput,
    /// How fast it was.
    pub actual: Throughput,
}

impl ThroughputBelowMinimum {
    /// The text of the error.
    pub fn text(&self, alloc: Global) -> Result<Text, OutOfMemory>
        ensures { IfOk result (λ t. t ≡ below_text self.now.expected self.now.actual) }
    {
        let text = format!(in alloc; "{self}")?;
        Text::from_string(text)
    }
}

/// The text of the Rust crate.
impl fmt::Display for ThroughputBelowMinimum {
    ghost use Rattle.std.specs.Prelude.{Some};
    ghost use Rattle.body_guard.specs.Texts.{below_text};

    ghost output = { λ e. Some (below_text e.expected e.actual) };

    fn fmt<W: fmt::Write>(&self, f: &mut fmt::Formatter<W>) -> fmt::Result {
        write!(
            f,
            "minimum throughput was specified at {}, but throughput of {} was observed",
            self.expected, self.actual
        )
    }
}

impl Error for ThroughputBelowMinimum {}

/// A failure of a body that is read.
pub(crate) fn response_fault(text: Text) -> Fault
    ensures { result ≡ response_fault text }
{
    Fault {
        kind: FaultKind::Response,
        text,
    }
}

/// The failure where a sleep is needed and there is none. It takes no memory.
pub(crate) fn no_sleep() -> Fault
    ensures { result ≡ no_sleep }
{
    response_fault(Text::from_static("absent"))
}

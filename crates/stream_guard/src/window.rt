//! The window of time that a throughput is taken over.
ghost use Rattle.std.specs.Prelude.{◌≡◌, ◌/◌, []};
ghost use Rattle.stream_guard.specs.Logs.{Keeps, empty_log};

use crate::ThroughputLogs;
use std::alloc::AllocError;
use std::marker::Model;

/// A window of time that ten bins fit into.
#[derive(Drop)]
pub(crate) struct CheckWindow {
    /// In ns.
    nanos: u64,
}

impl Model for CheckWindow {
    ghost use Rattle.std.specs.Prelude.{ℕ, ◌≤◌};

    ghost Value = { ℕ };

    ghost view = { λ window. window.nanos };

    ghost invariant = { λ window. 10 ≤ window.nanos };
}

impl Clone for CheckWindow {
    ghost is_clone = { λ window copy. copy ≡ window };

    fn clone(&self) -> Result<CheckWindow, AllocError> {
        Ok(CheckWindow { nanos: self.nanos })
    }
}

impl CheckWindow {
    /// One second.
    pub(crate) fn one_second() -> CheckWindow
        ensures { result ≡ 1000000000 }
    {
        CheckWindow {
            nanos: 1_000_000_000,
        }
    }

    /// A log that starts now and judges by this window.
    pub(crate) fn start_log(&self, now: u64) -> ThroughputLogs
        ensures log { result ≡ empty_log now (self.now / 10) }
        ensures kept { Keeps result [] }
    {
        ThroughputLogs::with_resolution(self.nanos / 10, now)
    }
}

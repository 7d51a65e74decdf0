//! How far a waiter of a fleet has come.
ghost use Rattle.std.specs.Prelude.{◌≤◌};

use waiters::Backoff;

/// How far a waiter of a fleet has come.
#[derive(Clone, Copy, Drop)]
pub(crate) struct Seat {
    /// The delays of its plan.
    pub backoff: Backoff,
    /// The number of its next poll.
    pub number: u32,
    /// Whether a delay of 0 was used.
    pub zero_used: bool,
    /// The sleep that it started after its last poll, if its delay wasn't 0.
    pub sleep: Option<u64>,
    /// Whether it ended.
    pub ended: bool,
    ghost counted: { 1 ≤ number },
}

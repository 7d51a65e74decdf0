//! The plan of a waiter.
ghost use Rattle.std.specs.Prelude.{◌≡◌};

use waiters::backoff::SECOND;

/// The delays of a waiter, in nanoseconds.
#[derive(Clone, Copy, Debug, PartialEq, Eq)]
pub struct Plan {
    /// The least delay between two polls, at least a second.
    pub min_delay: u64,
    /// The greatest delay between two polls, at least the least.
    pub max_delay: u64,
    /// The longest wait in all.
    pub max_wait: u64,
}

impl Plan {
    ghost use Rattle.waiter_fleet.specs.Plans.{is_good};

    /// Whether a waiter can follow it.
    pub fn is_good(&self) -> bool
        ensures { result ≡ is_good self.now }
    {
        self.min_delay >= SECOND && self.max_delay >= self.min_delay
    }
}

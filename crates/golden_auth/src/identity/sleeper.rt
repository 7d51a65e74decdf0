//! A clock that stands until it is set, with sleeps or without.

use smithy_types::{OutOfMemory, Timers};
use std::alloc::Global;

/// Timers whose clock is set by hand. They keep the latest sleep alone.
#[derive(Drop)]
pub struct Sleeper {
    /// The present moment.
    pub moment: u64,
    /// Whether there are sleeps.
    pub sleeps: bool,
    due: u64,
    /// How many sleeps were given up.
    pub given_up: u64,
}

impl Sleeper {
    /// Timers at moment 0.
    pub fn new(sleeps: bool) -> Sleeper {
        Sleeper {
            moment: 0,
            sleeps,
            due: 0,
            given_up: 0,
        }
    }
}

impl Timers for Sleeper {
    ghost use Rattle.std.specs.Prelude.{◌≡◌, Some};
    ghost use Rattle.smithy_types.specs.Starting.{StartsWhere};

    ghost moment = { λ t. Some t.moment };

    ghost sleeps = { λ t. t.sleeps };

    ghost relates = { λ old call new. (new.sleeps ≡ old.sleeps) × StartsWhere old.sleeps call };

    fn has_sleep(&self) -> bool {
        self.sleeps
    }

    fn now(&mut self) -> u64 {
        self.moment
    }

    fn start(&mut self, _alloc: Global, nanos: u64) -> Result<Option<u64>, OutOfMemory> {
        if !self.sleeps {
            return Ok(None);
        }
        self.due = self.moment.saturating_add(nanos);
        Ok(Some(0))
    }

    fn ready(&mut self, _sleep: u64) -> bool {
        self.due <= self.moment
    }

    fn give_up(&mut self, _sleep: u64) {
        self.given_up = self.given_up.saturating_add(1);
    }

    ghost keeps_sleeps = { λ old call new made. made.0 };

    ghost starts_where_sleeps = { λ old nanos sleep new made. made.1 };
}

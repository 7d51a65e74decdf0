//! The strategy that never retries.
ghost use Rattle.std.specs.Prelude.{◌≡◌, None};

use crate::{Decision, Initial};
use smithy_types::{Choice, Reason};

/// Begins every operation at once, and makes no further attempt.
#[derive(Clone, Debug, Drop)]
pub struct NeverRetryStrategy {}

impl NeverRetryStrategy {
    /// The strategy. It takes no memory.
    pub fn new() -> NeverRetryStrategy {
        NeverRetryStrategy {}
    }

    /// An operation is begun at once.
    pub fn should_attempt_initial_request(&self) -> Initial
        ensures { result ≡ Initial.Go }
    {
        Initial::Go
    }

    /// There is no further attempt, since no retry is indicated.
    pub fn should_attempt_retry(&self) -> Decision
        ensures choice { result.choice ≡ Choice.No }
        ensures reason { result.reason ≡ Reason.NotIndicated }
        ensures long_poll { result.long_poll ≡ None }
    {
        Decision {
            choice: Choice::No,
            reason: Reason::NotIndicated,
            long_poll: None,
        }
    }
}

/// The same as `new`.
impl Default for NeverRetryStrategy {
    fn default() -> NeverRetryStrategy {
        NeverRetryStrategy::new()
    }
}

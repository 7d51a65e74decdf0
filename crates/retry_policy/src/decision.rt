//! What a strategy answers.
ghost use Rattle.std.specs.Prelude.{◌≡◌};

use smithy_types::{Choice, OutOfMemory, Reason};
use thiserror::Error;

/// Whether an operation is begun.
#[derive(Clone, Copy, Debug, PartialEq, Eq)]
pub enum Initial {
    /// It is begun at once.
    Go,
    /// It isn't begun.
    No,
    /// After so many nanoseconds.
    Delay(u64),
}

/// Whether there is a further attempt, and why.
#[derive(Clone, Copy, Debug, PartialEq, Eq)]
pub struct Decision {
    /// Never `NoAfter`: `long_poll` says that.
    pub choice: Choice,
    /// Why.
    pub reason: Reason,
    /// For how many nanoseconds an operation that polls for long pauses, though there is no
    /// further attempt.
    pub long_poll: Option<u64>,
}

/// Why a strategy can't answer.
#[derive(Clone, Copy, Debug, PartialEq, Eq, Error)]
pub enum StrategyError {
    /// Retry isn't set, or no bucket that is there, or a limiter is to be asked and no partition is
    /// set.
    #[error("a setting that the retry strategy needs isn't there")]
    MissingSetting,
    /// An allocation was refused.
    #[error("out of memory")]
    OutOfMemory,
}

impl From<OutOfMemory> for StrategyError {
    ghost use Rattle.retry_policy.specs.declared.decision.StrategyError.TheVariants as error;

    ghost from_gives = { λ _ e. e ≡ error.OutOfMemory };

    fn from(_refused: OutOfMemory) -> StrategyError {
        StrategyError::OutOfMemory
    }
}

//! What a world notes beside its answers, for whoever reads the log.
use crate::{ErrorKind, Sums};

/// What a retry classifier says.
#[derive(Clone, Copy, Debug, PartialEq, Eq)]
pub enum RetryAction {
    /// Nothing is said of a retry.
    NoActionIndicated,
    /// A retry would help.
    RetryIndicated {
        /// What it would have to do with.
        kind: ErrorKind,
        /// How long the service asks to wait, in nanoseconds.
        retry_after: Option<u64>,
    },
    /// No retry, whatever later classifiers say.
    RetryForbidden,
}

/// Where an identity came from.
#[derive(Clone, Copy, Debug, PartialEq, Eq)]
pub enum ChooseNote {
    /// The cache held it.
    Hit,
    /// It was loaded for this question.
    Load,
    /// There is no cache.
    Uncached,
}

/// Whether a further attempt is made.
#[derive(Clone, Copy, Debug, PartialEq, Eq)]
pub enum Choice {
    /// A further attempt is made at once.
    Yes,
    /// No further attempt is made.
    No,
    /// No, but the caller pauses for so many nanoseconds before it is told.
    NoAfter(u64),
    /// Yes, after so many nanoseconds.
    Delay(u64),
}

/// Why a retry strategy chose so.
#[derive(Clone, Copy, Debug, PartialEq, Eq)]
pub enum Reason {
    /// No classifier indicated a retry.
    NotIndicated,
    /// As many attempts were made as are allowed.
    OutOfAttempts,
    /// The bucket didn't hold the cost, in tokens.
    NoQuota { cost: u32 },
    /// The bucket granted this amount, in tokens.
    Granted { amount: u32 },
}

/// What a decision was made from.
#[derive(Clone, Copy, Debug, PartialEq, Eq)]
pub struct DecideNote {
    /// What the classifiers said.
    pub verdict: RetryAction,
    /// The moment in nanoseconds, where the client has a time source.
    pub moment: Option<u64>,
    /// The random word that the backoff was drawn with.
    pub word: u64,
    /// Why it was chosen so.
    pub reason: Reason,
    /// The bucket's sums after the decision, where the quota tells them.
    pub sums: Option<Sums>,
}

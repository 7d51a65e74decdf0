//! A bucket's numbers by themselves: those that no step changes, and those that steps change.
ghost use Rattle.std.specs.Prelude.{◌≡◌};
ghost use Rattle.retry_quota.specs.Book.{cost_under, plain_terms};

use smithy_types::ErrorKind;

/// The capacity where none is set.
const DEFAULT_CAPACITY: u64 = 500;

/// What a retry costs where nothing else is set, after throttling too.
const DEFAULT_RETRY_COST: u32 = 5;

/// What a retry after a transient failure costs where nothing else is set.
const DEFAULT_TIMEOUT_RETRY_COST: u32 = 10;

/// What no step of a bucket changes.
#[derive(Clone, Copy, Debug, PartialEq, Eq)]
pub struct BucketTerms {
    /// How many tokens the bucket opened with, and above which it isn't refilled.
    pub capacity: u64,
    /// What a retry costs, in tokens, where nothing else is said.
    pub retry_cost: u32,
    /// What a retry after throttling costs, in tokens.
    pub throttling_retry_cost: u32,
    /// What a retry after a transient failure costs, in tokens.
    pub timeout_retry_cost: u32,
    /// What a success adds, in thousandths of a token.
    pub success_reward: u64,
    /// What a second adds, in thousandths of a token.
    pub refill_rate: u64,
}

impl BucketTerms {
    // The default costs with this capacity, without a reward and without a refill.
    pub(crate) fn plain(capacity: u64) -> BucketTerms
        ensures { result ≡ plain_terms capacity }
    {
        BucketTerms {
            capacity,
            retry_cost: DEFAULT_RETRY_COST,
            throttling_retry_cost: DEFAULT_RETRY_COST,
            timeout_retry_cost: DEFAULT_TIMEOUT_RETRY_COST,
            success_reward: 0,
            refill_rate: 0,
        }
    }

    /// What a retry after a failure of this kind costs, in tokens.
    pub fn cost(&self, kind: ErrorKind) -> u32
        ensures { result ≡ cost_under kind self.now }
    {
        match kind {
            ErrorKind::TransientError => self.timeout_retry_cost,
            ErrorKind::ThrottlingError => self.throttling_retry_cost,
            ErrorKind::ServerError | ErrorKind::ClientError => self.retry_cost,
        }
    }
}

/// A capacity of 500 tokens, a cost of 5 for a retry, 5 after throttling and 10 after a transient
/// failure, without a reward and without a refill.
impl Default for BucketTerms {
    ghost is_default = { λ t. t ≡ plain_terms 500 };

    fn default() -> BucketTerms {
        BucketTerms::plain(DEFAULT_CAPACITY)
    }
}

/// What the steps of a bucket change.
#[derive(Clone, Copy, Debug, PartialEq, Eq)]
pub struct BucketState {
    /// How many tokens were added since the bucket opened.
    pub granted: u64,
    /// How many can be acquired now.
    pub available: u64,
    /// How many are acquired and neither released nor forgotten.
    pub held: u64,
    /// How many were acquired and never come back.
    pub forgotten: u64,
    /// What has come of a further token, in thousandths of a token.
    pub fraction: u64,
    /// The second up to which time has been counted.
    pub last_refill_secs: u64,
}

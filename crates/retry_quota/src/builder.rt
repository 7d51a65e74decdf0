//! The builder of a token bucket.
ghost use Rattle.std.specs.Prelude.{◌≡◌, min, IsOkAnd};
ghost use Rattle.retry_quota.specs.Book.{plain_book};
ghost use Rattle.retry_quota.specs.declared.TheConstants.{MAXIMUM_CAPACITY};

use crate::{BucketTerms, TokenBucket};
use std::alloc::AllocError;
use std::marker::Model;

/// Builds a token bucket. A part that isn't set has the default of `BucketTerms::default`.
#[derive(Debug, Drop)]
pub struct TokenBucketBuilder {
    terms: BucketTerms,
}

/// A builder is seen as the book that it would build.
impl Model for TokenBucketBuilder {
    ghost use Rattle.retry_quota.specs.Book.{Book, book_of};

    ghost Value = { Book };

    ghost view = { λ b. book_of b.terms };
}

impl TokenBucketBuilder {
    /// A builder with nothing set.
    pub fn new() -> TokenBucketBuilder
        ensures { result ≡ plain_book 500 }
    {
        TokenBucketBuilder {
            terms: BucketTerms::default(),
        }
    }

    /// Sets the capacity. One above the maximum counts as the maximum.
    pub fn capacity(mut self, capacity: u64) -> TokenBucketBuilder
        ensures { let most = min capacity MAXIMUM_CAPACITY in result ≡
            record self { capacity = most; available = most } }
    {
        self.terms.capacity = capacity;
        self
    }

    /// Sets the cost of a retry after a failure that is neither transient nor throttling.
    pub fn retry_cost(mut self, retry_cost: u32) -> TokenBucketBuilder
        ensures { result ≡ record self { retry_cost = retry_cost } }
    {
        self.terms.retry_cost = retry_cost;
        self
    }

    /// Sets the cost of a retry after throttling.
    pub fn throttling_retry_cost(mut self, throttling_retry_cost: u32) -> TokenBucketBuilder
        ensures { result ≡ record self { throttling_cost = throttling_retry_cost } }
    {
        self.terms.throttling_retry_cost = throttling_retry_cost;
        self
    }

    /// Sets the cost of a retry after a transient failure.
    pub fn timeout_retry_cost(mut self, timeout_retry_cost: u32) -> TokenBucketBuilder
        ensures { result ≡ record self { transient_cost = timeout_retry_cost } }
    {
        self.terms.timeout_retry_cost = timeout_retry_cost;
        self
    }

    /// Sets the reward of a success, in thousandths of a token.
    pub fn success_reward(mut self, success_reward: u64) -> TokenBucketBuilder
        ensures { result ≡ record self { reward = success_reward } }
    {
        self.terms.success_reward = success_reward;
        self
    }

    /// Sets what a second adds, in thousandths of a token. With 0 time adds nothing.
    pub fn refill_rate(mut self, refill_rate: u64) -> TokenBucketBuilder
        ensures { result ≡ record self { rate = refill_rate } }
    {
        self.terms.refill_rate = refill_rate;
        self
    }

    /// The bucket, which nobody has used yet.
    pub fn build(self) -> TokenBucket
        ensures { result ≡ self }
    {
        TokenBucket::with_terms(self.terms)
    }
}

impl Clone for TokenBucketBuilder {
    ghost is_clone = { λ builder copy. copy ≡ builder };

    fn clone(&self) -> Result<TokenBucketBuilder, AllocError>
        ensures { IsOkAnd result (λ copy. copy ≡ self.now) }
    {
        Ok(TokenBucketBuilder { terms: self.terms })
    }
}

/// The same as `new`.
impl Default for TokenBucketBuilder {
    ghost is_default = { λ b. b ≡ plain_book 500 };

    fn default() -> TokenBucketBuilder {
        TokenBucketBuilder::new()
    }
}

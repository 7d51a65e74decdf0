//! The retry strategy of a client.
ghost use Rattle.client_retries.specs.Strategies.{Closes};

use crate::QuotaMeaning;
use retry_policy::{NeverRetryStrategy, StandardRetryStrategy};
use retry_quota::Quota;
use std::mem;

/// Whether a client retries, and how. P is a permit of its quota.
#[derive(Drop)]
pub enum RetryStrategy<P: Drop> {
    /// It never does.
    Never(NeverRetryStrategy),
    /// It does, and pays for each retry.
    Standard(StandardRetryStrategy<P>),
}

impl<P: Drop> RetryStrategy<P> {
    /// Gives a held permit back to its bucket. The strategy may be used on, and holds none.
    pub fn close<Q: Quota<Permit = P>>(&mut self, quota: &mut Q)
        ensures { Closes ⟦<Q as QuotaMeaning>⟧.means self.old quota.old
            self.new quota.new }
    {
        match self {
            RetryStrategy::Never(_) => {}
            RetryStrategy::Standard(standard) => {
                mem::replace(standard, StandardRetryStrategy::new()).close(quota);
            }
        }
    }
}

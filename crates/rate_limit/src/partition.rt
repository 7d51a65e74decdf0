//! Which clients share a limiter.
ghost use Rattle.std.specs.Prelude.{◌≡◌, ◌++◌, is_some};
ghost use Rattle.std.specs.Cmp.Rules.{comparing, hashing};
ghost use Rattle.std.specs.Hash as fed;
ghost use Rattle.std.proofs.Common.{rules};
ghost use Rattle.smithy_types.specs.Partition.{same_partition};

use smithy_types::RetryPartition;
use std::alloc::AllocError;
use std::hash::{Hash, Hasher};

/// The partition under which clients share a limiter. It is equal to another where their retry
/// partitions are.
#[derive(Debug, Drop)]
pub struct ClientRateLimiterPartition {
    /// The retry partition that it is known by.
    pub retry_partition: RetryPartition,
}

impl ClientRateLimiterPartition {
    /// The limiter's partition of clients that share this retry partition.
    pub fn new(retry_partition: RetryPartition) -> ClientRateLimiterPartition
        ensures { result.retry_partition ≡ retry_partition }
    {
        ClientRateLimiterPartition { retry_partition }
    }
}

impl Clone for ClientRateLimiterPartition {
    ghost is_clone = { λ partition copy. copy ≡ partition };

    fn clone(&self) -> Result<ClientRateLimiterPartition, AllocError> {
        Ok(ClientRateLimiterPartition {
            retry_partition: self.retry_partition.clone()?,
        })
    }
}

impl PartialEq for ClientRateLimiterPartition {
    ghost eq = { λ p q. same_partition p.retry_partition q.retry_partition };

    ghost laws = { Prim.search (comparing, rules) };

    fn eq(&self, other: &ClientRateLimiterPartition) -> bool {
        self.retry_partition == other.retry_partition
    }
}

impl Eq for ClientRateLimiterPartition {
    ghost laws = { Prim.search (comparing, rules) };
}

impl Hash for ClientRateLimiterPartition {
    ghost hash_input = { λ p. fed.bool (is_some p.retry_partition.custom)
        ++ fed.str p.retry_partition.name };

    ghost respects_eq = { Prim.search (hashing, rules) };

    fn hash<H: Hasher>(&self, state: &mut H) {
        self.retry_partition.hash(state);
    }
}

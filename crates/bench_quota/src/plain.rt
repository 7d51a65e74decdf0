//! One caller at a bucket of its own.

use crate::form::Load;
use crate::rounds::pay;
use anyhow::{Context, Result};
use rate_limit::ClientRateLimiter;
use retry_quota::{Quota, Registry, Sums, TokenBucket};
use std::alloc::Global;

/// Lets one caller spend, and answers the sums and the number of steps.
pub fn spend(alloc: Global, bucket: TokenBucket, load: Load) -> Result<(Sums, u64)> {
    let mut registry: Registry<ClientRateLimiter> = Registry::new(alloc)?;
    registry.add_bucket(alloc, bucket)?;
    pay(&mut registry, load.rounds);
    let sums = registry.sums(0).context("reading the sums")?;
    Ok((sums, load.rounds as u64 * 2))
}

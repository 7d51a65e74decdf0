//! What is told of a bucket.
use anyhow::Result;
use retry_quota::{Sums, TokenBucket};
use std::alloc::Global;

/// The sums in their order, or that the bucket isn't there.
pub fn sums(alloc: Global, sums: Option<Sums>) -> Result<String> {
    match sums {
        Some(sums) => known_sums(alloc, sums),
        None => Ok(format!(in alloc; "not there")?),
    }
}

fn known_sums(alloc: Global, sums: Sums) -> Result<String> {
    Ok(format!(in alloc;
        "[{},{},{},{},{}]",
        sums.capacity, sums.granted, sums.available, sums.held, sums.forgotten
    )?)
}

/// The bucket's sums, its fraction and the second up to which time is counted.
pub fn state(alloc: Global, bucket: &TokenBucket) -> Result<String> {
    let sums = known_sums(alloc, bucket.sums())?;
    let state = bucket.state();
    Ok(format!(in alloc;
        "{sums}, fraction {}, second {}",
        state.fraction, state.last_refill_secs
    )?)
}

//! How buckets open.
use crate::quota::registry::lines;
use anyhow::Result;
use retry_quota::{QuotaError, TokenBucket, TokenBucketBuilder};
use smithy_types::ErrorKind;
use std::alloc::Global;

/// Prints buckets that were made in each way, and initial quotas up to the maximum and above it.
pub fn print(rt: &HostRuntime) -> Result<()> {
    println!(rt; "buckets that open")?;
    print_opened(rt, "by default", TokenBucket::default())?;
    print_opened(rt, "of a default builder", by_default(rt.alloc())?)?;
    print_opened(rt, "of 500", TokenBucket::builder().capacity(500).build())?;
    print_opened(
        rt,
        "of all that a number holds",
        TokenBucketBuilder::new().capacity(u64::MAX).build(),
    )?;
    print_opened(rt, "unlimited", TokenBucket::unlimited())?;
    print_quota(rt, 500_000_000)?;
    print_quota(rt, 500_000_001)
}

// The bucket of a copy of the default builder.
fn by_default(alloc: Global) -> Result<TokenBucket> {
    let builder = TokenBucketBuilder::default();
    Ok(builder.clone()?.build())
}

fn print_opened(rt: &HostRuntime, name: &'static str, bucket: TokenBucket) -> Result<()> {
    let state = lines::state(rt.alloc(), &bucket)?;
    let costs = costs(rt.alloc(), &bucket)?;
    println!(rt;
        "  {name}: {state}; {costs}; reward {}",
        bucket.success_reward()
    )?;
    Ok(())
}

// What a retry after a failure of each kind costs.
fn costs(alloc: Global, bucket: &TokenBucket) -> Result<String> {
    Ok(format!(in alloc;
        "transient {}, throttling {}, server {}, client {}",
        cost(bucket, ErrorKind::TransientError),
        cost(bucket, ErrorKind::ThrottlingError),
        cost(bucket, ErrorKind::ServerError),
        cost(bucket, ErrorKind::ClientError)
    )?)
}

fn cost(bucket: &TokenBucket, kind: ErrorKind) -> u32 {
    bucket.cost(kind)
}

fn print_quota(rt: &HostRuntime, quota: u64) -> Result<()> {
    match TokenBucket::new(quota) {
        Ok(bucket) => print_opened(rt, "by the maximum as its quota", bucket),
        Err(refused) => print_refused(rt, quota, refused),
    }
}

fn print_refused(rt: &HostRuntime, quota: u64, refused: QuotaError) -> Result<()> {
    println!(rt; "  by a quota of {quota}: {refused:?}, {refused}")?;
    Ok(())
}

//! A registry's buckets by their numbers, through the trait of quotas.
use crate::quota::registry::lines;
use anyhow::Result;
use retry_quota::free_limiter::FreeLimiter;
use retry_quota::{Permit, Quota, Registry, Sums, TokenBucket};
use smithy_types::{ErrorKind, OutOfMemory};
use std::alloc::Global;

/// What is done with a bucket, where it is there.
#[derive(Clone, Copy, Debug)]
enum Use {
    AcquireAndRelease,
    AcquireAndForget,
    Reward,
    Regenerate,
    Acquire,
}

const USES: &[Use] = &[
    Use::AcquireAndRelease,
    Use::AcquireAndForget,
    Use::Reward,
    Use::Regenerate,
    Use::Acquire,
];

/// Permits that the second bucket, which holds 5 tokens, didn't grant.
const FOREIGN: &[(u32, u32)] = &[(1, 6), (7, 0), (7, 5)];

/// A registry of a bucket of 20 tokens, and one of 10 with a reward of two tokens.
pub fn two_buckets(alloc: Global) -> Result<Registry<FreeLimiter>, OutOfMemory> {
    let mut registry = empty(alloc)?;
    let _ = add(alloc, &mut registry, bucket(20, 0))?;
    let _ = add(alloc, &mut registry, bucket(10, 2000))?;
    Ok(registry)
}

fn empty(alloc: Global) -> Result<Registry<FreeLimiter>, OutOfMemory> {
    Registry::new(alloc)
}

fn add(
    alloc: Global,
    registry: &mut Registry<FreeLimiter>,
    bucket: TokenBucket,
) -> Result<u32, OutOfMemory> {
    registry.add_bucket(alloc, bucket)
}

// The numbers of two buckets that are added to a new registry.
fn added(alloc: Global) -> Result<(u32, u32), OutOfMemory> {
    let mut registry = empty(alloc)?;
    let first = add(alloc, &mut registry, bucket(20, 0))?;
    let second = add(alloc, &mut registry, bucket(10, 2000))?;
    Ok((first, second))
}

fn bucket(capacity: u64, reward: u64) -> TokenBucket {
    TokenBucket::builder()
        .capacity(capacity)
        .success_reward(reward)
        .build()
}

/// Acquires for a retry after a server's failure, where the bucket is there.
pub fn acquire<Q: Quota>(quota: &mut Q, bucket: u32) -> Option<Q::Permit> {
    if !quota.has(bucket) {
        return None;
    }
    quota.acquire(bucket, ErrorKind::ServerError, 9)
}

fn acquire_and_release<Q: Quota>(quota: &mut Q, bucket: u32) {
    if let Some(permit) = acquire(quota, bucket) {
        quota.release(permit);
    }
}

fn acquire_and_forget<Q: Quota>(quota: &mut Q, bucket: u32) {
    if let Some(permit) = acquire(quota, bucket) {
        quota.forget(permit);
    }
}

/// Counts a success, where the bucket is there.
pub fn reward<Q: Quota>(quota: &mut Q, bucket: u32) {
    if quota.has(bucket) {
        quota.reward_success(bucket);
    }
}

/// Gives a token back, where the bucket is there.
pub fn regenerate<Q: Quota>(quota: &mut Q, bucket: u32) {
    if quota.has(bucket) {
        quota.regenerate_a_token(bucket);
    }
}

fn use_bucket<Q: Quota>(quota: &mut Q, bucket: u32, used: Use) {
    match used {
        Use::AcquireAndRelease => acquire_and_release(quota, bucket),
        Use::AcquireAndForget => acquire_and_forget(quota, bucket),
        Use::Reward => reward(quota, bucket),
        Use::Regenerate => regenerate(quota, bucket),
        Use::Acquire => {
            let _ = acquire(quota, bucket);
        }
    }
}

fn sums<Q: Quota>(quota: &Q, bucket: u32) -> Option<Sums> {
    if !quota.has(bucket) {
        return None;
    }
    quota.sums(bucket)
}

/// What a retry after a failure of this kind costs in the bucket, where it is there.
pub fn cost<Q: Quota>(quota: &Q, bucket: u32, kind: ErrorKind) -> Option<u32> {
    if !quota.has(bucket) {
        return None;
    }
    Some(quota.cost(bucket, kind))
}

fn success_reward<Q: Quota>(quota: &Q, bucket: u32) -> Option<u64> {
    if !quota.has(bucket) {
        return None;
    }
    Some(quota.success_reward(bucket))
}

/// Prints numbers, prices, what is done with buckets by their numbers, and what permits change that
/// a bucket didn't grant.
pub fn print(rt: &HostRuntime) -> Result<()> {
    print_added(rt)?;
    print_used(rt, &mut two_buckets(rt.alloc())?)?;
    println!(rt; "a permit that the bucket didn't grant changes nothing")?;
    for (bucket, amount) in FOREIGN {
        print_foreign(rt, *bucket, *amount)?;
    }
    Ok(())
}

fn print_added(rt: &HostRuntime) -> Result<()> {
    let (first, second) = added(rt.alloc())?;
    println!(rt; "buckets are numbered as they are added")?;
    println!(rt; "  {first}, {second}")?;
    Ok(())
}

fn print_used<Q: Quota>(rt: &HostRuntime, quota: &mut Q) -> Result<()> {
    print_prices(rt, quota)?;
    print_spent(rt, quota)
}

fn print_prices<Q: Quota>(rt: &HostRuntime, quota: &Q) -> Result<()> {
    println!(rt; "a transient failure's cost and a success's reward")?;
    for bucket in 0..3 {
        let cost = cost(quota, bucket, ErrorKind::TransientError);
        let reward = success_reward(quota, bucket);
        println!(rt; "  bucket {bucket}: {cost:?}, {reward:?}")?;
    }
    Ok(())
}

fn print_spent<Q: Quota>(rt: &HostRuntime, quota: &mut Q) -> Result<()> {
    println!(rt; "each bucket is spent by its number")?;
    for bucket in 1..3 {
        print_uses(rt, quota, bucket)?;
    }
    print_sums(rt, "in the end", quota, 0)?;
    print_sums(rt, "in the end", quota, 1)
}

fn print_uses<Q: Quota>(rt: &HostRuntime, quota: &mut Q, bucket: u32) -> Result<()> {
    for used in USES {
        use_bucket(quota, bucket, *used);
        let told = lines::sums(rt.alloc(), sums(quota, bucket))?;
        println!(rt; "  bucket {bucket}, {used:?}: {told}")?;
    }
    Ok(())
}

/// Prints the bucket's sums.
pub fn print_sums<Q: Quota>(
    rt: &HostRuntime,
    name: &'static str,
    quota: &Q,
    bucket: u32,
) -> Result<()> {
    let told = lines::sums(rt.alloc(), sums(quota, bucket))?;
    println!(rt; "  bucket {bucket}, {name}: {told}")?;
    Ok(())
}

fn print_foreign(rt: &HostRuntime, bucket: u32, amount: u32) -> Result<()> {
    let mut registry = two_buckets(rt.alloc())?;
    println!(rt; "  {amount} tokens of bucket {bucket}")?;
    settle_foreign(rt, &mut registry, bucket, amount)
}

// Gives such permits back and up while the second bucket holds 5 tokens.
fn settle_foreign<Q: Quota<Permit = Permit>>(
    rt: &HostRuntime,
    quota: &mut Q,
    bucket: u32,
    amount: u32,
) -> Result<()> {
    let _ = acquire(quota, 1);
    release(quota, Permit { bucket, amount });
    print_sums(rt, "released", quota, 1)?;
    forget(quota, Permit { bucket, amount });
    print_sums(rt, "forgotten", quota, 1)
}

/// Gives a permit back.
pub fn release<Q: Quota>(quota: &mut Q, permit: Q::Permit) {
    quota.release(permit);
}

/// Gives a permit up.
pub fn forget<Q: Quota>(quota: &mut Q, permit: Q::Permit) {
    quota.forget(permit);
}

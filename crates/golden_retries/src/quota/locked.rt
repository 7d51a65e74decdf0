//! Prints how two handles take turns on one bucket behind a lock, what a caller's quota pays from
//! it, and what is earned, to be compared with a print that was worked out by hand. Each call of a
//! handle is made at least once.

ghost use Rattle.std.specs.Prelude.{◌≡◌};

use crate::quota::cell::{amount_of, print_sums};
use crate::quota::registry::registers::{acquire, forget, regenerate, release, reward};
use anyhow::Result;
use retry_quota::free_limiter::FreeLimiter;
use retry_quota::{Permit, Quota, TokenBucket};
use retry_quota_locked::{SharedBucket, SharedQuota};
use smithy_types::{ErrorKind, OutOfMemory, RetryPartition, Text};
use std::alloc::Global;
use std::marker::Brand;
use std::sync::Wait;
use std::sync::ledger::{Blank, Ledger};

const CAPACITY: u64 = 12;

pub fn print<R: Wait>(rt: HostRuntime, wait: &R) -> Result<()> {
    print_two::<Brand, R>(rt, wait, Blank::new(2))?;
    print_paid::<Brand, R>(rt, wait, Blank::new(1))?;
    print_earned::<Brand, R>(rt, wait, Blank::new(1))?;
    print_called::<Brand, R>(rt, wait, Blank::new(2))
}

// Two handles take turns, and are joined.
fn print_two<L: Ledger, R: Wait>(rt: HostRuntime, wait: &R, blank: Blank) -> Result<()>
    requires name { blank.name ≡ L.name }
    requires parts { blank.parts ≡ L.parts }
    requires two { blank.parts ≡ 2 }
{
    println!(rt; "two handles take turns on one bucket")?;
    let bucket = TokenBucket::builder().capacity(CAPACITY).build();
    let mut first = SharedBucket::<L>::new(rt.alloc(), blank, bucket)?;
    let mut second = first.split(rt.alloc())?;
    print_turns(rt, wait, &mut first, &mut second)?;
    first.join(wait, second);
    print_joined(rt, wait, &mut first)
}

// One gives its permit back, and the other gives it up.
fn print_turns<L: Ledger, R: Wait>(
    rt: HostRuntime,
    wait: &R,
    first: &mut SharedBucket<L>,
    second: &mut SharedBucket<L>,
) -> Result<()> {
    let permit = first.acquire(wait, ErrorKind::TransientError, 0);
    println!(rt; "first, a transient failure: {}", amount_of(&permit))?;
    let refused = second.acquire(wait, ErrorKind::ThrottlingError, 0);
    println!(rt; "second, a throttled one: {}", amount_of(&refused))?;
    print_sums(rt, second.sums(wait))?;
    if let Some(permit) = permit {
        first.release(wait, permit);
    }
    let permit = second.acquire(wait, ErrorKind::ThrottlingError, 0);
    println!(rt; "second, once first gave it back: {}", amount_of(&permit))?;
    print_sums(rt, first.sums(wait))?;
    if let Some(permit) = permit {
        second.forget(wait, permit);
    }
    Ok(())
}

// One has all parts.
fn print_joined<L: Ledger, R: Wait>(
    rt: HostRuntime,
    wait: &R,
    handle: &mut SharedBucket<L>,
) -> Result<()> {
    let refused = handle.acquire(wait, ErrorKind::TransientError, 0);
    println!(rt;
        "behind the join, a transient failure: {}",
        amount_of(&refused)
    )?;
    let permit = handle.acquire(wait, ErrorKind::ServerError, 0);
    println!(rt; "a failure of the server: {}", amount_of(&permit))?;
    print_state(rt, wait, handle)
}

// Whether the bucket is full and empty, and its sums and steps.
fn print_state<L: Ledger, R: Wait>(
    rt: HostRuntime,
    wait: &R,
    handle: &mut SharedBucket<L>,
) -> Result<()> {
    let full = handle.is_full(wait);
    let empty = handle.is_empty(wait);
    print_sums(rt, handle.sums(wait))?;
    println!(rt;
        "full: {full}, empty: {empty}, steps: {}",
        handle.steps_made(wait)
    )?;
    Ok(())
}

// A caller pays by its quota, and then its handle is given a permit of more than it holds.
fn print_paid<L: Ledger, R: Wait>(rt: HostRuntime, wait: &R, blank: Blank) -> Result<()>
    requires name { blank.name ≡ L.name }
    requires parts { blank.parts ≡ L.parts }
    requires one { blank.parts ≡ 1 }
{
    println!(rt; "a caller pays by its quota, and a foreign permit changes nothing")?;
    let bucket = TokenBucket::builder().capacity(CAPACITY).build();
    let handle = SharedBucket::<L>::new(rt.alloc(), blank, bucket)?;
    let mut quota = SharedQuota::new(wait, handle, FreeLimiter);
    let partition = RetryPartition::new(Text::from_static("any"));
    let paid = pay_and_release(&mut quota, rt.alloc(), &partition)?;
    println!(rt; "paid: {paid}")?;
    let mut handle = quota.into_handle();
    handle.forget(wait, foreign());
    handle.reward_success(wait);
    handle.regenerate_a_token(wait);
    print_state(rt, wait, &mut handle)
}

// A permit that the handle was never granted.
fn foreign() -> Permit {
    Permit {
        bucket: 0,
        amount: 1,
    }
}

// What a caller pays after a failure of the server, and gives back; 0 is nothing.
fn pay_and_release<Q: Quota>(
    quota: &mut Q,
    alloc: Global,
    partition: &RetryPartition,
) -> Result<u32, OutOfMemory> {
    let bucket = quota.bucket_for(alloc, partition, None)?;
    if !quota.has(bucket) {
        return Ok(0);
    }
    match quota.acquire(bucket, ErrorKind::ServerError, 0) {
        Some(permit) => {
            quota.release(permit);
            Ok(quota.cost(bucket, ErrorKind::ServerError))
        }
        None => Ok(0),
    }
}

// A success counts once the bucket is looked at, and a token at once.
fn print_earned<L: Ledger, R: Wait>(rt: HostRuntime, wait: &R, blank: Blank) -> Result<()>
    requires name { blank.name ≡ L.name }
    requires parts { blank.parts ≡ L.parts }
    requires one { blank.parts ≡ 1 }
{
    println!(rt; "a reward counts at the next look, and a token at once")?;
    let bucket = TokenBucket::builder()
        .capacity(CAPACITY)
        .timeout_retry_cost(12)
        .success_reward(1000)
        .build();
    let mut handle = SharedBucket::<L>::new(rt.alloc(), blank, bucket)?;
    spend(wait, &mut handle);
    print_state(rt, wait, &mut handle)?;
    handle.reward_success(wait);
    println!(rt; "a success")?;
    print_sums(rt, handle.sums(wait))?;
    print_state(rt, wait, &mut handle)?;
    handle.regenerate_a_token(wait);
    println!(rt; "a token")?;
    print_sums(rt, handle.sums(wait))
}

// Gives up a permit of all tokens.
fn spend<L: Ledger, R: Wait>(wait: &R, handle: &mut SharedBucket<L>) {
    if let Some(permit) = handle.acquire(wait, ErrorKind::TransientError, 0) {
        handle.forget(wait, permit);
    }
}

// A caller's quota makes each of its calls on the bucket, and another handle tells what it leaves.
fn print_called<L: Ledger, R: Wait>(rt: HostRuntime, wait: &R, blank: Blank) -> Result<()>
    requires name { blank.name ≡ L.name }
    requires parts { blank.parts ≡ L.parts }
    requires two { blank.parts ≡ 2 }
{
    println!(rt; "each call of a caller's quota, and the bucket behind it")?;
    let bucket = TokenBucket::builder()
        .capacity(CAPACITY)
        .success_reward(1000)
        .build();
    let mut handle = SharedBucket::<L>::new(rt.alloc(), blank, bucket)?;
    let mut other = handle.split(rt.alloc())?;
    let mut quota = SharedQuota::new(wait, handle, FreeLimiter);
    print_permits(rt, wait, &mut quota, &mut other)?;
    print_earnings(rt, wait, &mut quota, &mut other)
}

// A permit goes back, and another one is given up.
fn print_permits<Q: Quota, L: Ledger, R: Wait>(
    rt: HostRuntime,
    wait: &R,
    quota: &mut Q,
    other: &mut SharedBucket<L>,
) -> Result<()> {
    let permit = acquire(quota, 0);
    print_behind(rt, wait, "acquire", other)?;
    if let Some(permit) = permit {
        release(quota, permit);
    }
    print_behind(rt, wait, "release", other)?;
    let permit = acquire(quota, 0);
    print_behind(rt, wait, "acquire", other)?;
    if let Some(permit) = permit {
        forget(quota, permit);
    }
    print_behind(rt, wait, "forget", other)
}

// A reward of a token counts once the bucket is looked at, and a token at once.
fn print_earnings<Q: Quota, L: Ledger, R: Wait>(
    rt: HostRuntime,
    wait: &R,
    quota: &mut Q,
    other: &mut SharedBucket<L>,
) -> Result<()> {
    reward(quota, 0);
    print_behind(rt, wait, "reward", other)?;
    other.is_full(wait);
    print_behind(rt, wait, "a look", other)?;
    regenerate(quota, 0);
    print_behind(rt, wait, "regenerate", other)
}

fn print_behind<L: Ledger, R: Wait>(
    rt: HostRuntime,
    wait: &R,
    name: &str,
    other: &mut SharedBucket<L>,
) -> Result<()> {
    println!(rt; "{name}")?;
    print_sums(rt, other.sums(wait))
}

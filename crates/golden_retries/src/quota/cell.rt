//! Prints how two passes take turns on one bucket in a cell, to be compared with a print that was
//! worked out by hand. Each call of the bucket is made at least once.

ghost use Rattle.std.specs.Prelude.{IfOk};
ghost use Rattle.retry_quota_cell.specs.Known.{IsOf};

use anyhow::Result;
use retry_quota::{Permit, Sums, TokenBucket};
use retry_quota_cell::{CellBucket, Pass};
use smithy_types::ErrorKind;
use std::sync::Wait;

const CAPACITY: u64 = 12;

pub fn print<R: Wait>(rt: HostRuntime, wait: &R) -> Result<()> {
    let bucket = TokenBucket::builder().capacity(CAPACITY).build();
    let (bucket, mut first) = CellBucket::new(wait, rt.alloc(), bucket, 2)?;
    let mut second = bucket.split(wait, &mut first);
    print_turns(rt, wait, &bucket, &mut first, &mut second)?;
    bucket.join(wait, &mut first, second);
    println!(rt; "parts behind the join: {}", first.parts())?;
    print_joined(rt, wait, &bucket, &mut first)
}

// The two take turns: one gives its permit back, and the other gives it up.
fn print_turns<R: Wait>(
    rt: HostRuntime,
    wait: &R,
    bucket: &CellBucket,
    first: &mut Pass,
    second: &mut Pass,
) -> Result<()>
    requires { IsOf bucket.now first.old × IsOf bucket.now second.old }
    ensures { IfOk result (λ _. IsOf bucket.now first.new × IsOf bucket.now second.new) }
{
    let permit = bucket.acquire(wait, first, ErrorKind::TransientError, 0);
    println!(rt; "first, a transient failure: {}", amount_of(&permit))?;
    let refused = bucket.acquire(wait, second, ErrorKind::ThrottlingError, 0);
    println!(rt; "second, a throttled one: {}", amount_of(&refused))?;
    print_sums(rt, bucket.sums(wait, second))?;
    if let Some(permit) = permit {
        bucket.release(wait, first, permit);
    }
    let permit = bucket.acquire(wait, second, ErrorKind::ThrottlingError, 0);
    println!(rt; "second, once first gave it back: {}", amount_of(&permit))?;
    print_sums(rt, bucket.sums(wait, first))?;
    if let Some(permit) = permit {
        bucket.forget(wait, second, permit);
    }
    Ok(())
}

// One has all parts, and makes the other steps.
fn print_joined<R: Wait>(
    rt: HostRuntime,
    wait: &R,
    bucket: &CellBucket,
    pass: &mut Pass,
) -> Result<()>
    requires { IsOf bucket.now pass.old }
{
    let refused = bucket.acquire(wait, pass, ErrorKind::TransientError, 0);
    println!(rt; "a transient failure: {}", amount_of(&refused))?;
    let permit = bucket.acquire(wait, pass, ErrorKind::ServerError, 0);
    println!(rt; "a failure of the server: {}", amount_of(&permit))?;
    bucket.regenerate_a_token(wait, pass);
    bucket.reward_success(wait, pass);
    println!(rt; "full: {}", bucket.is_full(wait, pass))?;
    println!(rt; "empty: {}", bucket.is_empty(wait, pass))?;
    let (sums, length) = bucket.sums_and_length(wait, pass);
    print_sums(rt, sums)?;
    println!(rt; "steps: {length}")?;
    Ok(())
}

/// What a permit is for; 0 is none.
pub fn amount_of(permit: &Option<Permit>) -> u32 {
    match permit {
        Some(permit) => permit.amount,
        None => 0,
    }
}

/// Prints the sums but for the capacity.
pub fn print_sums(rt: HostRuntime, sums: Sums) -> Result<()> {
    println!(rt;
        "{} granted, {} available, {} held, {} forgotten",
        sums.granted, sums.available, sums.held, sums.forgotten
    )?;
    Ok(())
}

//! Callers at a bucket behind a lock, each with a handle.
ghost use Rattle.std.specs.Prelude.{◌≡◌, ◌≤◌, ◌-◌, IfOk};
ghost use Rattle.std.specs.Thread.{IsSync};

use crate::form::Load;
use crate::rounds::pay;
use rate_limit::ClientRateLimiter;
use retry_quota::{Sums, TokenBucket};
use retry_quota_locked::{SharedBucket, SharedQuota};
use smithy_types::OutOfMemory;
use std::alloc::Global;
use std::marker::Brand;
use std::sync::Wait;
use std::sync::ledger::{Blank, Ledger};
use std::thread::{Threads, join};

// Makes so many rounds over a handle.
fn pay_by_handle<L: Ledger, R: Wait>(
    rt: &R,
    handle: SharedBucket<L>,
    rounds: u32,
) -> SharedBucket<L> {
    let mut quota = SharedQuota::new(rt, handle, ClientRateLimiter::default());
    pay(&mut quota, rounds);
    quota.into_handle()
}

// Lets so many callers pay in threads of their own, and joins their handles.
fn gather<L: Ledger + Send + Sync, R: Threads + Wait + Sync>(
    rt: &R,
    alloc: Global,
    mut handle: SharedBucket<L>,
    callers: u32,
    rounds: u32,
) -> Result<SharedBucket<L>, OutOfMemory>
    requires parts { handle.parts ≡ callers }
    requires some { 1 ≤ callers }
{
    if callers == 1 {
        return Ok(pay_by_handle(rt, handle, rounds));
    }
    let other = handle.split(alloc)?;
    let (first, rest) = join(
        rt,
        move || -> SharedBucket<L> { pay_by_handle(rt, other, rounds) },
        move || -> Result<SharedBucket<L>, OutOfMemory>
            requires { IsSync R.row × (handle.parts ≡ callers - 1) × (2 ≤ callers) }
        { gather(rt, alloc, handle, callers - 1, rounds) },
    );
    let mut rest = rest?;
    rest.join(rt, first);
    Ok(rest)
}

fn spend_by_ledger<L: Ledger + Send + Sync, R: Threads + Wait + Sync>(
    rt: &R,
    alloc: Global,
    blank: Blank,
    bucket: TokenBucket,
    load: Load,
) -> Result<(Sums, u64), OutOfMemory>
    requires name { blank.name ≡ L.name }
    requires ledger { blank.parts ≡ L.parts }
    requires parts { blank.parts ≡ load.callers }
    requires some { 1 ≤ load.callers }
{
    let handle = SharedBucket::<L>::new(alloc, blank, bucket)?;
    let mut handle = gather(rt, alloc, handle, load.callers, load.rounds)?;
    Ok((handle.sums(rt), handle.steps_made(rt)))
}

/// Lets the callers spend in threads, and answers the sums and the number of steps.
pub fn spend<R: Threads + Wait + Sync>(
    rt: &R,
    alloc: Global,
    bucket: TokenBucket,
    load: Load,
) -> Result<(Sums, u64), OutOfMemory>
    requires { 1 ≤ load.callers }
{
    let blank = Blank::new(load.callers as u64);
    spend_by_ledger::<Brand, R>(rt, alloc, blank, bucket, load)
}

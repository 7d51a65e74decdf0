//! Prints what fleets of waiters do over scripted worlds.

mod lines;
mod script;
mod world;

ghost use Rattle.std.specs.Prelude.{◌<◌, ◌^◌, length};

use crate::fleets::lines::{print_bucket, print_event};
use crate::fleets::script::{
    FAILURE, FOREVER, PLAN, SECOND_TIME, ScriptedPoll, THIRD_TIME, UNMATCHED, UNMODELED,
};
use crate::fleets::world::ScriptedWorld;
use anyhow::Result;
use retry_quota::{TokenBucket, TokenBucketBuilder};
use waiter_fleet::{FleetEnd, FleetError, FleetEvent, Plan, wait_all};
use waiters::backoff::SECOND;

/// Lets so many waiters wait that are paid for, and prints how many events that makes.
pub fn print_many(rt: HostRuntime, count: u32) -> Result<()> {
    let plans = vec![in rt.alloc(); PLAN; count as usize]?;
    let mut bucket = bucket(500_000_000, 0);
    let mut world = ScriptedWorld::new(rt.alloc(), THIRD_TIME, count)?;
    let events = wait_all(
        rt.alloc(),
        plans.as_slice(),
        &mut bucket,
        &mut world,
        u64::MAX,
    )?;
    println!(rt; "{count} waiters, {} events", events.len())?;
    Ok(())
}

/// Prints the rows.
pub fn print(rt: HostRuntime) -> Result<()> {
    let pair = [PLAN, PLAN];
    run(
        rt,
        "one of two is paid for",
        &pair,
        bucket(5, 0),
        SECOND_TIME,
        100,
    )?;
    run(
        rt,
        "both are paid for",
        &pair,
        bucket(10, 0),
        SECOND_TIME,
        100,
    )?;
    run(rt, "a failure", &[PLAN], bucket(5, 0), FAILURE, 100)?;
    run(rt, "unmatched", &[PLAN], bucket(5, 0), UNMATCHED, 100)?;
    run(rt, "unmodeled", &[PLAN], bucket(5, 0), UNMODELED, 100)?;
    let short = Plan {
        max_wait: 5 * SECOND,
        ..PLAN
    };
    run(
        rt,
        "the longest wait",
        &[short],
        bucket(50, 0),
        FOREVER,
        100,
    )?;
    let half = Plan {
        min_delay: SECOND / 2,
        ..PLAN
    };
    run(
        rt,
        "a bad plan",
        &[PLAN, half],
        bucket(5, 0),
        SECOND_TIME,
        100,
    )?;
    for fuel in 0..8 {
        summary(rt, &pair, bucket(5, 0), SECOND_TIME, fuel)?;
    }
    summary(rt, &[PLAN; 64], bucket(320, 50_000), THIRD_TIME, 1000)
}

// A bucket of this capacity with the default costs, into which so many thousandths of a token come
// each second.
fn bucket(capacity: u64, refill_rate: u64) -> TokenBucket {
    TokenBucketBuilder::new()
        .capacity(capacity)
        .refill_rate(refill_rate)
        .build()
}

// Prints each event of a fleet.
fn run(
    rt: HostRuntime,
    name: &str,
    plans: &[Plan],
    mut bucket: TokenBucket,
    polls: &'static [ScriptedPoll],
    fuel: u64,
) -> Result<()>
    requires { length plans.now < 2 ^ 32 }
{
    println!(rt; "{name}")?;
    let mut world = ScriptedWorld::new(rt.alloc(), polls, plans.len() as u32)?;
    match wait_all(rt.alloc(), plans, &mut bucket, &mut world, fuel) {
        Ok(events) => {
            for event in events.as_slice() {
                print_event(rt, event)?;
            }
        }
        Err(FleetError::BadPlan { waiter }) => println!(rt; "bad plan {waiter}")?,
        Err(FleetError::OutOfMemory) => println!(rt; "out of memory")?,
    }
    print_bucket(rt, &bucket)
}

// Prints how many waiters of a fleet ended in each way.
fn summary(
    rt: HostRuntime,
    plans: &[Plan],
    mut bucket: TokenBucket,
    polls: &'static [ScriptedPoll],
    fuel: u64,
) -> Result<()>
    requires { length plans.now < 2 ^ 32 }
{
    let mut world = ScriptedWorld::new(rt.alloc(), polls, plans.len() as u32)?;
    let events = wait_all(rt.alloc(), plans, &mut bucket, &mut world, fuel)?;
    let mut done: u32 = 0;
    let mut refused: u32 = 0;
    let mut unfinished: u32 = 0;
    for event in events.as_slice() {
        match event {
            FleetEvent::End { end, .. } => match end {
                FleetEnd::Ok => done = done.saturating_add(1),
                FleetEnd::NoQuota { .. } => refused = refused.saturating_add(1),
                FleetEnd::Unfinished => unfinished = unfinished.saturating_add(1),
                _ => {}
            },
            _ => {}
        }
    }
    println!(rt; "fuel {fuel}: {done} Ok, {refused} NoQuota, {unfinished} Unfinished")?;
    print_bucket(rt, &bucket)
}

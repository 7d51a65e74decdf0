//! What a strategy leaves in its bucket.
use crate::policy::strategy::{Asked, STATIC, TRANSIENT, decide, registry, sums};
use anyhow::Result as Told;
use retry_policy::{StandardRetryStrategy, StrategyError};
use retry_quota::{Quota, TokenBucket};
use smithy_types::RetryAction;
use std::alloc::Global;

// Asks behind a first attempt with this verdict.
fn settle<Q: Quota>(
    alloc: Global,
    strategy: &mut StandardRetryStrategy<Q::Permit>,
    verdict: RetryAction,
    quota: &mut Q,
) -> Result<(), StrategyError> {
    let asked = Asked {
        retry: STATIC,
        attempt: 1,
        verdict,
        word: 0,
    };
    let _ = decide(alloc, strategy, asked, quota)?;
    Ok(())
}

fn close<Q: Quota>(strategy: StandardRetryStrategy<Q::Permit>, quota: &mut Q) {
    strategy.close(quota);
}

/// Prints the sums of a bucket behind two grants, the strategy's close, and a success of another.
pub fn print(rt: &HostRuntime) -> Told<()> {
    println!(rt; "a further grant forgets the former, and closing gives the last back")?;
    let mut quota = registry(rt.alloc(), TokenBucket::default())?;
    print_first(rt, &mut quota)?;
    print_second(rt, &mut quota)
}

// A success of a strategy that holds no permit.
fn print_second<Q: Quota>(rt: &HostRuntime, quota: &mut Q) -> Told<()> {
    let mut strategy = StandardRetryStrategy::new();
    settle(
        rt.alloc(),
        &mut strategy,
        RetryAction::NoActionIndicated,
        quota,
    )?;
    print_sums(rt, "a success without a permit", quota)
}

// Two grants of a strategy, and its close.
fn print_first<Q: Quota>(rt: &HostRuntime, quota: &mut Q) -> Told<()> {
    let mut strategy = StandardRetryStrategy::default();
    print_grant(rt, "a grant", &mut strategy, quota)?;
    print_grant(rt, "a further grant", &mut strategy, quota)?;
    close(strategy, quota);
    print_sums(rt, "closed", quota)
}

fn print_grant<Q: Quota>(
    rt: &HostRuntime,
    name: &'static str,
    strategy: &mut StandardRetryStrategy<Q::Permit>,
    quota: &mut Q,
) -> Told<()> {
    settle(rt.alloc(), strategy, TRANSIENT, quota)?;
    print_sums(rt, name, quota)
}

fn print_sums<Q: Quota>(rt: &HostRuntime, name: &'static str, quota: &Q) -> Told<()> {
    match sums(quota) {
        Some(sums) => println!(rt;
            "  {name}: [{},{},{},{},{}]",
            sums.capacity, sums.granted, sums.available, sums.held, sums.forgotten
        )?,
        None => println!(rt; "  {name}: no bucket")?,
    }
    Ok(())
}

//! A registry's limiters by their numbers, through the trait of quotas.
use retry_quota::free_limiter::FreeLimiter;
use retry_quota::{Limiter, Quota, Registry, RequestReason};
use smithy_types::OutOfMemory;
use std::alloc::Global;

fn one_limiter(alloc: Global) -> Result<Registry<FreeLimiter>, OutOfMemory> {
    let mut registry = Registry::new(alloc)?;
    let _ = registry.add_limiter(alloc, FreeLimiter::zero())?;
    Ok(registry)
}

fn throttle<Q: Quota>(quota: &mut Q, limiter: u32) {
    quota.limiter_update(limiter, 5, true);
}

fn ask<Q: Quota>(quota: &mut Q, limiter: u32) -> Result<(), u64> {
    quota.limiter_acquire(limiter, 6, RequestReason::Retry)
}

/// Prints what a limiter and one that isn't there answer.
pub fn print(rt: &HostRuntime) -> anyhow::Result<()> {
    println!(rt; "a free limiter and one that isn't there refuse nothing")?;
    print_asked(rt, &mut one_limiter(rt.alloc())?)
}

fn print_asked<Q: Quota>(rt: &HostRuntime, quota: &mut Q) -> anyhow::Result<()> {
    for limiter in 0..2 {
        throttle(quota, limiter);
        println!(rt; "  limiter {limiter}: {:?}", ask(quota, limiter))?;
    }
    Ok(())
}

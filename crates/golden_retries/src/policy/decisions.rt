//! Retries that a bucket grants or refuses.
use crate::policy::strategy::{Asked, STATIC, TRANSIENT, begin, decide, registry};
use anyhow::Result as Told;
use retry_policy::{Decision, Initial, StandardRetryStrategy, StrategyError};
use retry_quota::{Permit, TokenBucket};
use smithy_types::{RetryConfig, RetrySpec, RetrySpecVersion};
use std::alloc::Global;

/// A failed first attempt under a setting, paid for from a bucket of so many tokens whose transient
/// retries cost 14.
struct Row {
    name: &'static str,
    capacity: u64,
    retry: RetryConfig,
}

/// Version 2.1 with a first backoff of 50 ms where nothing was throttled.
const VERSION_2_1: RetrySpec = RetrySpec {
    version: RetrySpecVersion::V2_1,
    long_polling: false,
    non_throttling_initial_backoff: 50_000_000,
};

const ROWS: &[Row] = &[
    Row {
        name: "attempts run out",
        capacity: 10,
        retry: RetryConfig {
            max_attempts: 0,
            ..STATIC
        },
    },
    Row {
        name: "tokens run out, with a pause where the operation polls for long",
        capacity: 10,
        retry: RetryConfig {
            spec: Some(RetrySpec {
                long_polling: true,
                ..VERSION_2_1
            }),
            ..STATIC
        },
    },
    Row {
        name: "tokens run out",
        capacity: 10,
        retry: RetryConfig {
            spec: Some(VERSION_2_1),
            ..STATIC
        },
    },
    Row {
        name: "a retry under version 2.1 waits the backoff of what isn't throttling",
        capacity: 14,
        retry: RetryConfig {
            spec: Some(VERSION_2_1),
            ..STATIC
        },
    },
];

fn bucket(capacity: u64) -> TokenBucket {
    TokenBucket::builder()
        .capacity(capacity)
        .timeout_retry_cost(14)
        .build()
}

// Whether the operation is begun, and what is decided behind its first attempt.
fn decided(alloc: Global, row: &Row) -> Result<(Initial, Decision), StrategyError> {
    let mut quota = registry(alloc, bucket(row.capacity))?;
    let mut strategy = StandardRetryStrategy::<Permit>::new();
    let begun = begin(alloc, &mut strategy, row.retry, &mut quota, Some(0))?;
    let asked = Asked {
        retry: row.retry,
        attempt: 1,
        verdict: TRANSIENT,
        word: 0,
    };
    Ok((begun, decide(alloc, &mut strategy, asked, &mut quota)?))
}

/// Prints how each row's operation begins and what is decided.
pub fn print(rt: &HostRuntime) -> Told<()> {
    for row in ROWS {
        let (begun, decision) = decided(rt.alloc(), row)?;
        println!(rt; "{}", row.name)?;
        println!(rt; "  {begun:?}, {decision:?}")?;
    }
    Ok(())
}

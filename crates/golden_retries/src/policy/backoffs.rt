//! How long retries wait.
use crate::policy::strategy::{Asked, STANDARD, STATIC, decide, registry};
use anyhow::Result as Told;
use retry_policy::{Decision, StandardRetryStrategy, StrategyError};
use retry_quota::{Permit, TokenBucket};
use smithy_types::{ErrorKind, RetryAction, RetryConfig, RetrySpec, RetrySpecVersion};
use std::alloc::Global;

/// Retries behind attempts, under one setting and with one word.
struct Row {
    name: &'static str,
    retry: RetryConfig,
    kind: ErrorKind,
    word: u64,
    /// The attempts' numbers, and the delays that the service asks for.
    attempts: &'static [(u64, Option<u64>)],
}

/// Backoffs that are used whole, for as many attempts as a row has.
const MANY: RetryConfig = RetryConfig {
    max_attempts: 40,
    ..STATIC
};

/// Version 2.1 with a first backoff of a second.
const VERSION_2_1: RetryConfig = RetryConfig {
    spec: Some(RetrySpec {
        version: RetrySpecVersion::V2_1,
        long_polling: false,
        non_throttling_initial_backoff: 1_000_000_000,
    }),
    ..STATIC
};

const ROWS: &[Row] = &[
    Row {
        name: "a backoff doubles up to the longest",
        retry: MANY,
        kind: ErrorKind::TransientError,
        word: 0,
        attempts: &[
            (1, None),
            (2, None),
            (3, None),
            (4, None),
            (5, None),
            (6, None),
        ],
    },
    Row {
        name: "a backoff that begins with a nanosecond",
        retry: RetryConfig {
            initial_backoff: 1,
            ..MANY
        },
        kind: ErrorKind::ServerError,
        word: 0,
        attempts: &[(33, None)],
    },
    Row {
        name: "a word takes its part of a backoff",
        retry: STANDARD,
        kind: ErrorKind::ServerError,
        word: 9_223_372_036_854_775_807,
        attempts: &[(1, None)],
    },
    Row {
        name: "what the service asks for is followed up to the longest",
        retry: STANDARD,
        kind: ErrorKind::TransientError,
        word: 0,
        attempts: &[(1, Some(30_000_000_000))],
    },
    Row {
        name: "under version 2.1 it is followed from the own backoff to five seconds past it",
        retry: VERSION_2_1,
        kind: ErrorKind::TransientError,
        word: 0,
        attempts: &[
            (1, Some(30_000_000_000)),
            (1, Some(500_000_000)),
            (1, Some(3_000_000_000)),
        ],
    },
];

// What is decided, where every retry is paid for.
fn decided(alloc: Global, asked: Asked) -> Result<Decision, StrategyError> {
    let mut quota = registry(alloc, TokenBucket::unlimited())?;
    let mut strategy = StandardRetryStrategy::<Permit>::new();
    decide(alloc, &mut strategy, asked, &mut quota)
}

/// Prints what is chosen behind each attempt.
pub fn print(rt: &HostRuntime) -> Told<()> {
    for row in ROWS {
        println!(rt; "{}", row.name)?;
        print_row(rt, row)?;
    }
    Ok(())
}

fn print_row(rt: &HostRuntime, row: &Row) -> Told<()> {
    for (attempt, retry_after) in row.attempts {
        let asked = Asked {
            retry: row.retry,
            attempt: *attempt,
            verdict: RetryAction::RetryIndicated {
                kind: row.kind,
                retry_after: *retry_after,
            },
            word: row.word,
        };
        print_decided(rt, asked)?;
    }
    Ok(())
}

fn print_decided(rt: &HostRuntime, asked: Asked) -> Told<()> {
    let decision = decided(rt.alloc(), asked)?;
    println!(rt;
        "  {}, {:?}: {:?}",
        asked.attempt, asked.verdict, decision.choice
    )?;
    Ok(())
}

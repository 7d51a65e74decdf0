//! What the two interceptors of retries set.
use crate::policy::seen::{Seen, seen_at};
use crate::policy::strategy::{STANDARD, TRANSIENT};
use anyhow::Result as Told;
use retry_policy::{ConnectionPoisoningInterceptor, TokenBucketProvider};
use smithy_types::{
    ErrorKind, Hook, OutOfMemory, ReconnectMode, RetryAction, RetryConfig, RetrySpec,
    RetrySpecVersion,
};
use std::alloc::Global;

/// A verdict that is offered, and the retry setting that stands.
struct Row {
    name: &'static str,
    verdict: RetryAction,
    retry: RetryConfig,
}

const ROWS: &[Row] = &[
    Row {
        name: "nothing is indicated",
        verdict: RetryAction::NoActionIndicated,
        retry: STANDARD,
    },
    Row {
        name: "a transient retry",
        verdict: TRANSIENT,
        retry: STANDARD,
    },
    Row {
        name: "a transient retry with a delay",
        verdict: RetryAction::RetryIndicated {
            kind: ErrorKind::TransientError,
            retry_after: Some(5),
        },
        retry: STANDARD,
    },
    Row {
        name: "a retry after a server's failure",
        verdict: RetryAction::RetryIndicated {
            kind: ErrorKind::ServerError,
            retry_after: None,
        },
        retry: STANDARD,
    },
    Row {
        name: "a transient retry under version 2.1",
        verdict: TRANSIENT,
        retry: RetryConfig {
            spec: Some(RetrySpec {
                version: RetrySpecVersion::V2_1,
                long_polling: false,
                non_throttling_initial_backoff: 50_000_000,
            }),
            ..STANDARD
        },
    },
    Row {
        name: "a transient retry where all connections are used again",
        verdict: TRANSIENT,
        retry: RetryConfig {
            reconnect: ReconnectMode::ReuseAllConnections,
            ..STANDARD
        },
    },
];

/// The hooks of an attempt's connection.
const HOOKS: &[Hook] = &[Hook::ModifyBeforeTransmit, Hook::ReadAfterDeserialization];

// What is set once the response is read, where this verdict was offered.
fn read_after(
    alloc: Global,
    verdict: RetryAction,
    retry: RetryConfig,
) -> Result<Seen, OutOfMemory> {
    let mut interceptor = ConnectionPoisoningInterceptor::new();
    interceptor.offer(verdict);
    seen_at(
        alloc,
        &mut interceptor,
        Hook::ReadAfterDeserialization,
        retry,
    )
}

/// Prints what the interceptors set.
pub fn print(rt: &HostRuntime) -> Told<()> {
    print_buckets(rt)?;
    print_quiet(rt)?;
    println!(rt; "a connection is left after a plain transient retry")?;
    for row in ROWS {
        let seen = read_after(rt.alloc(), row.verdict, row.retry)?;
        println!(rt; "  {}: {seen:?}", row.name)?;
    }
    Ok(())
}

// The bucket, before one is offered and once one is.
fn print_buckets(rt: &HostRuntime) -> Told<()> {
    let hook = Hook::ModifyBeforeRetryLoop;
    let mut provider = TokenBucketProvider::new();
    println!(rt; "the bucket is set that was offered")?;
    let seen = seen_at(rt.alloc(), &mut provider, hook, STANDARD)?;
    println!(rt; "  none: {seen:?}")?;
    provider.offer(7);
    let seen = seen_at(rt.alloc(), &mut provider, hook, STANDARD)?;
    println!(rt; "  7: {seen:?}")?;
    Ok(())
}

// The connection of an attempt, for which no verdict is offered.
fn print_quiet(rt: &HostRuntime) -> Told<()> {
    let mut quiet = ConnectionPoisoningInterceptor::default();
    println!(rt; "an attempt's connection is captured")?;
    for hook in HOOKS {
        let seen = seen_at(rt.alloc(), &mut quiet, *hook, STANDARD)?;
        println!(rt; "  {hook:?}: {seen:?}")?;
    }
    Ok(())
}

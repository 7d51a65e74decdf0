//! The longest loads, with the settings that stand.

use crate::identity::builders::terms_of;
use anyhow::Result;
use identity_cell::{LazyCacheBuilder, load_timeout};
use smithy_context::{Layer, Setting, Settings};
use smithy_types::{OutOfMemory, ReconnectMode, RetryConfig, RetryMode, TimeoutConfig};
use std::alloc::Global;

/// The most attempts, the first backoff and the longest, in nanoseconds.
type Retries = (u32, u64, u64);

/// What stands: retries, and how long connecting and an attempt may take, in nanoseconds.
#[derive(Clone, Copy, Debug)]
struct Standing {
    retries: Option<Retries>,
    connect: Option<u64>,
    attempt: Option<u64>,
}

const ROWS: [Standing; 8] = [
    Standing {
        retries: None,
        connect: None,
        attempt: None,
    },
    Standing {
        retries: Some((3, 1_000_000_000, 20_000_000_000)),
        connect: None,
        attempt: None,
    },
    Standing {
        retries: Some((0, 1_000_000_000, 20_000_000_000)),
        connect: None,
        attempt: None,
    },
    Standing {
        retries: Some((u32::MAX, 1_000_000_000, u64::MAX)),
        connect: None,
        attempt: None,
    },
    Standing {
        retries: Some((6, 1_000_000_000, 5_000_000_000)),
        connect: None,
        attempt: None,
    },
    Standing {
        retries: Some((1, 1_000_000_000, 20_000_000_000)),
        connect: Some(1_000_000_000),
        attempt: Some(7_000_000_000),
    },
    Standing {
        retries: None,
        connect: Some(4_000_000_000),
        attempt: None,
    },
    Standing {
        retries: None,
        connect: None,
        attempt: Some(10_000_000_000),
    },
];

fn retry_config(retries: Retries) -> RetryConfig {
    RetryConfig {
        mode: RetryMode::Standard,
        max_attempts: retries.0,
        initial_backoff: retries.1,
        max_backoff: retries.2,
        reconnect: ReconnectMode::ReconnectOnTransientError,
        static_base: false,
        spec: None,
    }
}

fn timeout_config(standing: Standing) -> TimeoutConfig {
    let mut config = TimeoutConfig::disabled();
    config.connect = standing.connect;
    config.attempt = standing.attempt;
    config
}

fn layer(alloc: Global, standing: Standing) -> Result<Layer, OutOfMemory> {
    let mut layer = Layer::new();
    if let Some(retries) = standing.retries {
        layer.put(alloc, Setting::Retry(retry_config(retries)))?;
    }
    if standing.connect.is_some() || standing.attempt.is_some() {
        layer.put(alloc, Setting::Timeouts(timeout_config(standing)))?;
    }
    Ok(layer)
}

fn settings(alloc: Global, standing: Standing) -> Result<Settings, OutOfMemory> {
    let mut settings = Settings::new();
    settings.push_layer(alloc, layer(alloc, standing)?.freeze())?;
    Ok(settings)
}

// How long a load may take, by the settings and by a cache's number.
fn timeouts(alloc: Global, standing: Standing) -> Result<(u64, u64)> {
    let terms = terms_of(LazyCacheBuilder::new().load_timeout(1_000_000_000))?;
    let settings = settings(alloc, standing)?;
    Ok((load_timeout(&settings), terms.timeout_in(&settings)))
}

/// Prints how long loads may take.
pub fn print(rt: &HostRuntime) -> Result<()> {
    for standing in ROWS {
        let (by_settings, by_terms) = timeouts(rt.alloc(), standing)?;
        println!(rt; "timeout {standing:?}: {by_settings}, given {by_terms}")?;
    }
    Ok(())
}

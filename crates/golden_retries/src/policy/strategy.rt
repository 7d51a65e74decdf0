//! What strategies are asked.
use anyhow::Result as Told;
use retry_policy::{Decision, Initial, NeverRetryStrategy, StandardRetryStrategy, StrategyError};
use retry_quota::free_limiter::FreeLimiter;
use retry_quota::{Quota, Registry, Sums, TokenBucket};
use smithy_context::{InterceptorContext, Layer, Setting, Settings};
use smithy_types::{
    Blob, ErrorKind, Fault, FaultKind, OutOfMemory, Payload, ReconnectMode, RetryAction,
    RetryConfig, RetryMode, Text,
};
use std::alloc::Global;

/// The standard retry setting.
pub const STANDARD: RetryConfig = RetryConfig {
    mode: RetryMode::Standard,
    max_attempts: 3,
    initial_backoff: 1_000_000_000,
    max_backoff: 20_000_000_000,
    reconnect: ReconnectMode::ReconnectOnTransientError,
    static_base: false,
    spec: None,
};

/// The standard one with backoffs that are used whole.
pub const STATIC: RetryConfig = RetryConfig {
    static_base: true,
    ..STANDARD
};

/// A transient retry for which the service asks for no delay.
pub const TRANSIENT: RetryAction = RetryAction::RetryIndicated {
    kind: ErrorKind::TransientError,
    retry_after: None,
};

/// What a strategy goes by behind an attempt.
#[derive(Clone, Copy)]
pub struct Asked {
    /// The retry setting.
    pub retry: RetryConfig,
    /// The attempt's number.
    pub attempt: u64,
    /// What the classifiers said. Where it indicates nothing, nothing failed.
    pub verdict: RetryAction,
    /// The random word.
    pub word: u64,
}

/// Settings with this retry and bucket 0.
pub fn settings(alloc: Global, retry: RetryConfig) -> Result<Settings, OutOfMemory> {
    let mut layer = Layer::new();
    layer.put(alloc, Setting::Retry(retry))?;
    layer.put(alloc, Setting::Bucket(0))?;
    let mut settings = Settings::new();
    settings.push_layer(alloc, layer.freeze())?;
    Ok(settings)
}

// The context of an attempt, in which a deadline passed or nothing failed.
fn context(alloc: Global, attempt: u64, failed: bool) -> Result<InterceptorContext, OutOfMemory> {
    let input = Payload {
        kind: 0,
        bytes: Blob::new(),
    };
    let mut ctx = InterceptorContext::new(alloc, input)?;
    ctx.view.attempt = attempt;
    if failed {
        let fault = Fault {
            kind: FaultKind::Timeout,
            text: Text::new(),
        };
        ctx.fail(alloc, fault)?;
    }
    Ok(ctx)
}

fn is_failed(verdict: RetryAction) -> bool {
    match verdict {
        RetryAction::NoActionIndicated => false,
        RetryAction::RetryIndicated { .. } | RetryAction::RetryForbidden => true,
    }
}

/// What the strategy decides.
pub fn decide<Q: Quota>(
    alloc: Global,
    strategy: &mut StandardRetryStrategy<Q::Permit>,
    asked: Asked,
    quota: &mut Q,
) -> Result<Decision, StrategyError> {
    let settings = settings(alloc, asked.retry)?;
    let context = context(alloc, asked.attempt, is_failed(asked.verdict))?;
    strategy.should_attempt_retry(
        alloc,
        &context,
        &asked.verdict,
        &settings,
        quota,
        None,
        asked.word,
    )
}

/// Whether the strategy begins an operation under this setting, at this moment.
pub fn begin<Q: Quota>(
    alloc: Global,
    strategy: &mut StandardRetryStrategy<Q::Permit>,
    retry: RetryConfig,
    quota: &mut Q,
    now: Option<u64>,
) -> Result<Initial, StrategyError> {
    let settings = settings(alloc, retry)?;
    strategy.should_attempt_initial_request(alloc, &settings, quota, now)
}

/// A registry of one bucket.
pub fn registry(alloc: Global, bucket: TokenBucket) -> Result<Registry<FreeLimiter>, OutOfMemory> {
    let mut registry = Registry::new(alloc)?;
    let _ = registry.add_bucket(alloc, bucket)?;
    Ok(registry)
}

/// The sums of bucket 0, where it is there.
pub fn sums<Q: Quota>(quota: &Q) -> Option<Sums> {
    if !quota.has(0) {
        return None;
    }
    quota.sums(0)
}

/// Prints what the strategy without retries answers.
pub fn print_never(rt: &HostRuntime) -> Told<()> {
    let strategy = NeverRetryStrategy::default();
    println!(rt; "the strategy without retries begins and never goes on")?;
    println!(rt; "  {:?}", strategy.should_attempt_initial_request())?;
    println!(rt; "  {:?}", strategy.should_attempt_retry())?;
    Ok(())
}

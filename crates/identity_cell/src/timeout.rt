//! How long a load of an identity may take, where nobody says it.
ghost use Rattle.std.specs.Prelude.{◌≡◌, ◌+◌, ◌*◌, min};
ghost use Rattle.identity_cell.specs.Timeout.{retry_in, timeouts_in, attempt_ceiling, backoffs};
ghost use Rattle.identity_cell.specs.Timeout.{load_timeout};

use smithy_context::{Setting, SettingKey, Settings};
use smithy_types::{RetryConfig, TimeoutConfig};

// What connecting may take at least, and where no deadline is set, in nanoseconds.
const CONNECT_DEADLINE: u64 = 3_100_000_000;

// A backoff that doubles so often is above every greatest one, or zero.
const DOUBLINGS: u32 = 64;

/// The longest that a load may take with these settings, in nanoseconds: each attempt runs to its
/// deadline, and each backoff is the greatest. It stops at `u64::MAX`.
pub fn load_timeout(settings: &Settings) -> u64
    ensures { result ≡ load_timeout settings.now }
{
    let retry = retry_in(settings);
    let ceiling = attempt_ceiling(&timeouts_in(settings));
    let retries = retry.max_attempts.saturating_sub(1);
    let pauses = backoffs(retry.initial_backoff, retry.max_backoff, retries);
    let work = u128::from(retry.max_attempts) * ceiling;
    let longest = pauses.saturating_add(work).max(ceiling);
    longest.min(u128::from(u64::MAX)) as u64
}

// The retries that stand, or the standard ones.
fn retry_in(settings: &Settings) -> RetryConfig
    ensures { result ≡ retry_in settings.now }
{
    match settings.load(&SettingKey::Retry) {
        Some(Setting::Retry(retry)) => *retry,
        _ => RetryConfig::standard(),
    }
}

// The deadlines that stand, or none.
fn timeouts_in(settings: &Settings) -> TimeoutConfig
    ensures { result ≡ timeouts_in settings.now }
{
    match settings.load(&SettingKey::Timeouts) {
        Some(Setting::Timeouts(timeouts)) => *timeouts,
        _ => TimeoutConfig::disabled(),
    }
}

// The longest that one attempt may take, in nanoseconds.
fn attempt_ceiling(timeouts: &TimeoutConfig) -> u128
    ensures { result ≡ attempt_ceiling timeouts.now }
{
    let connect = timeouts
        .connect
        .unwrap_or(CONNECT_DEADLINE)
        .max(CONNECT_DEADLINE);
    let attempt = timeouts.attempt.unwrap_or(0);
    (2 * u128::from(connect)).max(u128::from(attempt))
}

// The greatest backoffs before so many retries, together, in nanoseconds.
fn backoffs(first: u64, most: u64, retries: u32) -> u128
    ensures { result ≡ backoffs first most retries }
{
    let doubling = retries.min(DOUBLINGS);
    let mut total: u128 = 0;
    let mut backoff = u128::from(first.min(most));
    for _step in 0..doubling {
        total += backoff;
        backoff = (2 * backoff).min(u128::from(most));
    }
    total + u128::from(retries - doubling) * backoff
}

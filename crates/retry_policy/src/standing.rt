//! What a strategy reads of the settings that stand.
ghost use Rattle.std.specs.Prelude.{◌≡◌, true, false, IfOk, IfErr, IsErr, OnErr, ◌↔◌, IsTrue};
ghost use Rattle.std.specs.Prelude.{is_some, option_copied};
ghost use Rattle.retry_quota.specs.Calls.{limiters_by};
ghost use Rattle.retry_quota.specs.Meaning.{IsKept};
ghost use Rattle.retry_policy.specs.Decision.{FindsLimiter};
ghost use Rattle.retry_policy.specs.Standing.{
  is_adaptive,
  lacks_partition,
  lacks_setting,
  standing_bucket,
  standing_partition,
  standing_retry,
  uses_limiter,
};

use crate::StrategyError;
use retry_quota::Quota;
use smithy_context::{Setting, SettingKey, Settings};
use smithy_types::{RetryConfig, RetryMode, RetryPartition};
use std::alloc::Global;

/// The settings that a strategy goes by.
#[derive(Clone, Copy)]
pub(crate) struct Terms {
    pub retry: RetryConfig,
    /// The bucket in force.
    pub bucket: u32,
}

/// A limiter that is asked and told, by its number, and the moment in nanoseconds.
#[derive(Clone, Copy)]
pub struct Paced {
    /// The limiter's number.
    pub limiter: u32,
    /// The moment in nanoseconds.
    pub now: u64,
}

pub(crate) fn standing_retry(settings: &Settings) -> Option<RetryConfig>
    ensures { result ≡ standing_retry settings.now }
{
    match settings.load(&SettingKey::Retry) {
        Some(Setting::Retry(retry)) => Some(*retry),
        _ => None,
    }
}

fn standing_bucket(settings: &Settings) -> Option<u32>
    ensures { result ≡ standing_bucket settings.now }
{
    match settings.load(&SettingKey::Bucket) {
        Some(Setting::Bucket(bucket)) => Some(*bucket),
        _ => None,
    }
}

fn standing_partition(settings: &Settings) -> Option<&RetryPartition>
    ensures { option_copied result ≡ standing_partition settings.now }
{
    match settings.load(&SettingKey::Partition) {
        Some(Setting::Partition(partition)) => Some(partition),
        _ => None,
    }
}

fn uses_limiter(retry: RetryConfig, now: Option<u64>) -> bool
    ensures { result ≡ uses_limiter retry now }
{
    match retry.mode {
        RetryMode::Adaptive => now.is_some(),
        RetryMode::Standard => false,
    }
}

/// Whether a limiter is used and no partition is set.
fn lacks_partition(settings: &Settings, retry: RetryConfig, now: Option<u64>) -> bool
    ensures { result ≡ lacks_partition retry now (standing_partition settings.now) }
{
    uses_limiter(retry, now) && standing_partition(settings).is_none()
}

/// The settings that a strategy goes by, where none is missing.
pub(crate) fn standing_terms<Q: Quota>(
    settings: &Settings,
    quota: &Q,
    now: Option<u64>,
) -> Result<Terms, StrategyError>
    ensures retry { IfOk result (λ t. standing_retry settings.now ≡ Some t.retry) }
    ensures bucket { IfOk result (λ t. standing_bucket settings.now ≡ Some t.bucket) }
    ensures there { IfOk result (λ t. (Q.meaning quota.now).has t.bucket ≡ true) }
    ensures partition { IfOk result
        (λ t. lacks_partition t.retry now (standing_partition settings.now) ≡ false) }
    ensures missing { IsErr result
        ↔ IsTrue (lacks_setting settings.now now (Q.meaning quota.now).has) }
    ensures error { IfErr result (λ e. e ≡ StrategyError.MissingSetting) }
{
    let Some(retry) = standing_retry(settings) else {
        return Err(StrategyError::MissingSetting);
    };
    let Some(bucket) = standing_bucket(settings) else {
        return Err(StrategyError::MissingSetting);
    };
    if !quota.has(bucket) || lacks_partition(settings, retry, now) {
        return Err(StrategyError::MissingSetting);
    }
    Ok(Terms { retry, bucket })
}

/// The limiter of the standing partition, where one is used.
pub(crate) fn find_limiter<Q: Quota>(
    alloc: Global,
    settings: &Settings,
    retry: RetryConfig,
    quota: &mut Q,
    now: Option<u64>,
) -> Result<Option<Paced>, StrategyError>
    requires { lacks_partition retry now (standing_partition settings.now) ≡ false }
    ensures found { IfOk result (λ paced. FindsLimiter
        (limiters_by Q.Limiter.at Q.Limiter.after_acquire Q.Limiter.reply_to Q.Limiter.after_update)
        (Q.meaning quota.old) (uses_limiter retry now) now (standing_partition settings.now) paced
        (Q.meaning quota.new)) }
    ensures kept { OnErr result (IsKept (Q.meaning quota.old) (Q.meaning quota.new)) }
    ensures error { IfErr result (λ e. e ≡ StrategyError.OutOfMemory) }
{
    if !uses_limiter(retry, now) {
        return Ok(None);
    }
    let Some(moment) = now else {
        return Ok(None);
    };
    let Some(partition) = standing_partition(settings) else {
        return Ok(None);
    };
    match quota.limiter_for(alloc, partition, moment) {
        Ok(limiter) => Ok(Some(Paced {
            limiter,
            now: moment,
        })),
        Err(_) => Err(StrategyError::OutOfMemory),
    }
}

//! What is read of the settings that stand, and of those that a hook sets.
ghost use Rattle.std.specs.Prelude.{◌≡◌, option_copied};
ghost use Rattle.client_retries.specs.Hooking.{poisoned_in};
ghost use Rattle.client_retries.specs.Offering.{standing_spec};
ghost use Rattle.retry_policy.specs.Standing.{standing_bucket, standing_partition};

use smithy_context::{Layer, Setting, SettingKey, Settings};
use smithy_types::{RetryPartition, RetrySpec};

// The bucket in force.
pub(crate) fn standing_bucket(settings: &Settings) -> Option<u32>
    ensures { result ≡ standing_bucket settings.now }
{
    match settings.load(&SettingKey::Bucket) {
        Some(Setting::Bucket(bucket)) => Some(*bucket),
        _ => None,
    }
}

// The partition in force.
pub(crate) fn standing_partition(settings: &Settings) -> Option<&RetryPartition>
    ensures { option_copied result ≡ standing_partition settings.now }
{
    match settings.load(&SettingKey::Partition) {
        Some(Setting::Partition(partition)) => Some(partition),
        _ => None,
    }
}

// The specification of retries that stands.
pub(crate) fn standing_spec(settings: &Settings) -> Option<RetrySpec>
    ensures { result ≡ standing_spec settings.now }
{
    match settings.load(&SettingKey::Retry) {
        Some(Setting::Retry(retry)) => retry.spec,
        _ => None,
    }
}

// The number of the attempt whose connection a layer gives up.
pub(crate) fn poisoned_in(layer: &Layer) -> Option<u64>
    ensures { result ≡ poisoned_in layer.now }
{
    match layer.load(&SettingKey::Poisoned) {
        Some(Setting::Poisoned(number)) => Some(*number),
        _ => None,
    }
}

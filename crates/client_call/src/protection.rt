//! How the settings that stand protect a body.
ghost use Rattle.std.specs.Prelude.{◌≡◌};
ghost use Rattle.client_call.specs.Protection.{download_options, enforces_length, standing_stall};
ghost use Rattle.client_call.specs.Protection.{upload_marked, upload_options};

use smithy_context::{Setting, SettingKey, Settings};
use smithy_types::StalledStreamProtectionConfig;
use stream_guard::MinimumThroughputBodyOptions;

/// Which streams are given up where they stall, where it is set.
pub(crate) fn standing_stall(settings: &Settings) -> Option<StalledStreamProtectionConfig>
    ensures { result ≡ standing_stall settings.now }
{
    match settings.load(&SettingKey::Stall) {
        Some(Setting::Stall(config)) => Some(*config),
        _ => None,
    }
}

/// When a response's body stalls, where it is watched.
pub(crate) fn download_options(settings: &Settings) -> Option<MinimumThroughputBodyOptions>
    ensures { result ≡ download_options (standing_stall settings.now) }
{
    match standing_stall(settings) {
        Some(config) => {
            if config.download {
                Some(MinimumThroughputBodyOptions::from(config))
            } else {
                None
            }
        }
        None => None,
    }
}

/// When an upload stalls, where it is watched.
pub(crate) fn upload_options(settings: &Settings) -> Option<MinimumThroughputBodyOptions>
    ensures { result ≡ upload_options (upload_marked settings.now) (standing_stall settings.now) }
{
    match standing_stall(settings) {
        Some(config) => {
            if upload_marked(settings) && (config.upload || config.download) {
                Some(MinimumThroughputBodyOptions::from(config))
            } else {
                None
            }
        }
        None => None,
    }
}

// Whether the mark stands that the upload is watched.
fn upload_marked(settings: &Settings) -> bool
    ensures { result ≡ upload_marked settings.now }
{
    matches!(settings.load(&SettingKey::Upload), Some(Setting::Upload))
}

/// Whether a response's body is held to the length that it declares.
pub(crate) fn enforces_length(settings: &Settings) -> bool
    ensures { result ≡ enforces_length settings.now }
{
    matches!(
        settings.load(&SettingKey::EnforceLength),
        Some(Setting::EnforceLength)
    )
}

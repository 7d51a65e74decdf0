//! What is read of the settings that stand.
ghost use Rattle.std.specs.Prelude.{◌≡◌, option_copied};
ghost use Rattle.client_auth.specs.Reading.{has_v2, standing_preference, standing_prefix};

use smithy_context::{Setting, SettingKey, Settings};
use smithy_types::{List, Text};

// Whether the mark V2 stands: the endpoint is resolved once a scheme is chosen, and not before.
pub(crate) fn has_v2(settings: &Settings) -> bool
    ensures { result ≡ has_v2 settings.now }
{
    matches!(settings.load(&SettingKey::V2), Some(Setting::V2))
}

// The schemes that are preferred.
pub(crate) fn standing_preference(settings: &Settings) -> Option<&List<Text>>
    ensures { option_copied result ≡ standing_preference settings.now }
{
    match settings.load(&SettingKey::Preference) {
        Some(Setting::Preference(names)) => Some(names),
        _ => None,
    }
}

// What is put before the endpoint's authority.
pub(crate) fn standing_prefix(settings: &Settings) -> Option<&str>
    ensures { option_copied result ≡ standing_prefix settings.now }
{
    match settings.load(&SettingKey::Prefix) {
        Some(Setting::Prefix(text)) => Some(text.as_str()),
        _ => None,
    }
}

//! What an interceptor sets.
use crate::policy::strategy::settings;
use smithy_base::Intercept;
use smithy_context::{HookView, Layer, Setting, Settings};
use smithy_types::{Hook, OutOfMemory, RetryConfig};
use std::alloc::Global;

/// What an interceptor sets first.
#[derive(Clone, Copy, Debug)]
pub enum Seen {
    /// It sets nothing.
    Nothing,
    /// The bucket's number.
    Bucket(u32),
    /// The attempt's number, for its connection.
    Capture(u64),
    /// The attempt whose connection is left.
    Poisoned(u64),
    /// Another setting.
    Other,
}

fn seen_first(layer: &Layer) -> Seen {
    match layer.entries().first() {
        Some(entry) => match &entry.value {
            Some(value) => seen_setting(value.get()),
            None => Seen::Other,
        },
        None => Seen::Nothing,
    }
}

fn seen_setting(setting: &Setting) -> Seen {
    match setting {
        Setting::Bucket(bucket) => Seen::Bucket(*bucket),
        Setting::Capture(attempt) => Seen::Capture(*attempt),
        Setting::Poisoned(attempt) => Seen::Poisoned(*attempt),
        _ => Seen::Other,
    }
}

// What a hook sees of a second attempt with these settings.
fn second_attempt(settings: Settings) -> HookView {
    HookView {
        input: None,
        request: None,
        response: None,
        outcome: None,
        attempt: 2,
        settings,
    }
}

/// What an interceptor sets at a hook of the second attempt.
pub fn seen_at<I: Intercept>(
    alloc: Global,
    interceptor: &mut I,
    hook: Hook,
    retry: RetryConfig,
) -> Result<Seen, OutOfMemory> {
    let view = second_attempt(settings(alloc, retry)?);
    let answer = interceptor.run(alloc, hook, &view)?;
    Ok(seen_first(&answer.settings))
}

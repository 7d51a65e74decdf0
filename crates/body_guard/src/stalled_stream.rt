//! The interceptor that protects streams from stalls.
ghost use Rattle.std.specs.Prelude.{◌≡◌, IfOk, None, Some, false};
ghost use Rattle.body_guard.specs.Protection.{
  fails,
  has_whole_empty_body,
  is_before_deserialization,
  is_before_transmit,
  is_empty_bytes,
  missing_part,
  needs_parts,
  nothing_done,
  sets,
  standing_stall,
  watches_download,
  watches_upload,
};

use smithy_base::Intercept;
use smithy_context::{HookAnswer, HookView, Layer, Setting, SettingKey, Settings};
use smithy_types::{
    Body, Hook, HttpRequest, OutOfMemory, Shared, StalledStreamProtectionConfig, Text,
};
use std::alloc::Global;

/// Which streams are protected. The interceptor goes by the setting Stall, and not by this.
#[derive(Clone, Copy, Debug, PartialEq, Eq)]
pub enum StalledStreamProtectionInterceptorKind {
    /// The request's body.
    RequestBody,
    /// The response's body.
    ResponseBody,
    /// Both.
    RequestAndResponseBody,
}

/// Sets Upload before it transmits, where the setting Stall says that uploads are protected, and
/// fails where a part is missing that the protection needs.
#[derive(Debug, Drop)]
pub struct StalledStreamProtectionInterceptor {
    sleep: bool,
    time: bool,
}

impl StalledStreamProtectionInterceptor {
    /// The interceptor that knows of no part yet. The kind isn't used.
    pub fn new(_kind: StalledStreamProtectionInterceptorKind) -> StalledStreamProtectionInterceptor
        ensures { result ≡ record { sleep = false; time = false } }
    {
        StalledStreamProtectionInterceptor {
            sleep: false,
            time: false,
        }
    }

    /// Takes whether there are sleeps, and whether there is a time source.
    pub fn offer(&mut self, sleep: bool, time: bool)
        ensures { self.new ≡ record { sleep = sleep; time = time } }
    {
        self.sleep = sleep;
        self.time = time;
    }
}

/// The same as `new`.
impl Default for StalledStreamProtectionInterceptor {
    ghost use Rattle.std.specs.Prelude.{◌≡◌, false};

    ghost is_default = { λ interceptor. interceptor ≡ record { sleep = false; time = false } };

    fn default() -> StalledStreamProtectionInterceptor {
        StalledStreamProtectionInterceptor {
            sleep: false,
            time: false,
        }
    }
}

impl Intercept for StalledStreamProtectionInterceptor {
    ghost use Rattle.std.specs.Prelude.{◌≡◌, ◌||◌, codes};
    ghost use Rattle.body_guard.specs.Protection.{
      is_before_deserialization,
      is_before_transmit,
      protection_answer,
    };

    ghost names = { λ _. codes "StalledStreamProtectionInterceptor" };

    ghost hooks = { λ _ hook. is_before_transmit hook || is_before_deserialization hook };

    ghost runs = { λ old hook view answer new.
        (new ≡ old) × (answer ≡ protection_answer hook old.sleep old.time view) };

    fn name(&self) -> &str {
        "StalledStreamProtectionInterceptor"
    }

    fn overrides(&self, hook: Hook) -> bool {
        is_before_transmit(hook) || is_before_deserialization(hook)
    }

    fn run(
        &mut self,
        alloc: Global,
        hook: Hook,
        view: &HookView,
    ) -> Result<HookAnswer, OutOfMemory> {
        if is_before_transmit(hook) && watches_upload(view) {
            return match missing_part(self.sleep, self.time) {
                Some(text) => Ok(fails(text)),
                None => sets(alloc, Setting::Upload),
            };
        }
        if is_before_deserialization(hook) && watches_download(&view.settings) {
            return Ok(needs_parts(self.sleep, self.time));
        }
        Ok(HookAnswer::done())
    }
}

fn is_before_transmit(hook: Hook) -> bool
    ensures { result ≡ is_before_transmit hook }
{
    matches!(hook, Hook::ModifyBeforeTransmit)
}

fn is_before_deserialization(hook: Hook) -> bool
    ensures { result ≡ is_before_deserialization hook }
{
    matches!(hook, Hook::ModifyBeforeDeserialization)
}

/// How streams are protected, where that is set.
pub(crate) fn standing_stall(settings: &Settings) -> Option<StalledStreamProtectionConfig>
    ensures { result ≡ standing_stall settings.now }
{
    match settings.load(&SettingKey::Stall) {
        Some(Setting::Stall(stall)) => Some(*stall),
        _ => None,
    }
}

// Whether the request's body is protected, which it isn't where it has no bytes.
fn watches_upload(view: &HookView) -> bool
    ensures { result ≡ watches_upload view.now }
{
    match standing_stall(&view.settings) {
        Some(stall) => stall.upload && !has_whole_empty_body(&view.request),
        None => false,
    }
}

/// Whether the response's body is protected.
pub(crate) fn watches_download(settings: &Settings) -> bool
    ensures { result ≡ watches_download settings.now }
{
    match standing_stall(settings) {
        Some(stall) => stall.download,
        None => false,
    }
}

// Whether the request's body is in memory and has no bytes.
fn has_whole_empty_body(request: &Option<Shared<HttpRequest>>) -> bool
    ensures { result ≡ has_whole_empty_body request.now }
{
    match request {
        Some(request) => is_empty_bytes(&request.get().body),
        None => false,
    }
}

fn is_empty_bytes(body: &Body) -> bool
    ensures { result ≡ is_empty_bytes body.now }
{
    match body {
        Body::Bytes(bytes) => bytes.is_empty(),
        _ => false,
    }
}

// What is said of the part that is missing first.
fn missing_part(sleep: bool, time: bool) -> Option<Text>
    ensures { result ≡ missing_part sleep time }
{
    if !sleep {
        return Some(Text::from_static(
            "An async sleep implementation is required when stalled stream protection is enabled",
        ));
    }
    if !time {
        return Some(Text::from_static(
            "A time source is required when stalled stream protection is enabled",
        ));
    }
    None
}

// Fails where a part is missing, and else does nothing.
fn needs_parts(sleep: bool, time: bool) -> HookAnswer
    ensures { result ≡ needs_parts sleep time nothing_done }
{
    match missing_part(sleep, time) {
        Some(text) => fails(text),
        None => HookAnswer::done(),
    }
}

// The answer of a hook that fails. It takes no memory.
fn fails(text: Text) -> HookAnswer
    ensures { result ≡ fails text }
{
    HookAnswer {
        change: None,
        settings: Layer::new(),
        failure: Some(text),
    }
}

/// The answer that sets this alone.
pub(crate) fn sets(alloc: Global, setting: Setting) -> Result<HookAnswer, OutOfMemory>
    ensures { IfOk result (λ answer. answer ≡ sets setting) }
{
    let mut settings = Layer::new();
    settings.put(alloc, setting)?;
    Ok(HookAnswer {
        change: None,
        settings,
        failure: None,
    })
}

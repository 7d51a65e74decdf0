//! The interceptor that has the length of a response held to its header.
ghost use Rattle.std.specs.Prelude.{◌≡◌};
ghost use Rattle.body_guard.specs.Protection.{is_get, is_read_before_transmit};

use crate::stalled_stream::sets;
use smithy_base::Intercept;
use smithy_context::{HookAnswer, HookView, Setting};
use smithy_types::{Hook, HttpRequest, OutOfMemory, Shared};
use std::alloc::Global;

/// Sets EnforceLength before a `GET` is transmitted.
#[derive(Clone, Copy, Debug)]
pub struct EnforceContentLengthInterceptor;

impl Intercept for EnforceContentLengthInterceptor {
    ghost use Rattle.std.specs.Prelude.{◌≡◌, codes};
    ghost use Rattle.body_guard.specs.Protection.{enforcing_answer, is_read_before_transmit};

    ghost names = { λ _. codes "EnforceContentLength" };

    ghost hooks = { λ _ hook. is_read_before_transmit hook };

    ghost runs = { λ old hook view answer new.
        (new ≡ old) × (answer ≡ enforcing_answer hook view) };

    fn name(&self) -> &str {
        "EnforceContentLength"
    }

    fn overrides(&self, hook: Hook) -> bool {
        is_read_before_transmit(hook)
    }

    fn run(
        &mut self,
        alloc: Global,
        hook: Hook,
        view: &HookView,
    ) -> Result<HookAnswer, OutOfMemory> {
        if is_read_before_transmit(hook) && is_get(&view.request) {
            return sets(alloc, Setting::EnforceLength);
        }
        Ok(HookAnswer::done())
    }
}

fn is_read_before_transmit(hook: Hook) -> bool
    ensures { result ≡ is_read_before_transmit hook }
{
    matches!(hook, Hook::ReadBeforeTransmit)
}

// Whether the request has the method `GET`.
fn is_get(request: &Option<Shared<HttpRequest>>) -> bool
    ensures { result ≡ is_get request.now }
{
    match request {
        Some(request) => request.get().method.as_str() == "GET",
        None => false,
    }
}

/// Has the length of the response to a `GET` held to its header. It brings one interceptor, which
/// stands last in a client's chain.
#[derive(Clone, Copy, Debug)]
pub struct EnforceContentLengthRuntimePlugin;

impl EnforceContentLengthRuntimePlugin {
    /// The plugin.
    pub fn new() -> EnforceContentLengthRuntimePlugin {
        EnforceContentLengthRuntimePlugin
    }

    /// The interceptor that it brings.
    pub fn interceptor(&self) -> EnforceContentLengthInterceptor {
        EnforceContentLengthInterceptor
    }
}

/// The same as `new`.
impl Default for EnforceContentLengthRuntimePlugin {
    fn default() -> EnforceContentLengthRuntimePlugin {
        EnforceContentLengthRuntimePlugin::new()
    }
}

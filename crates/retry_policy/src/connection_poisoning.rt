//! The interceptor that gives a connection up on which a transient failure came.
ghost use Rattle.std.specs.Prelude.{◌≡◌};
ghost use Rattle.retry_policy.specs.Interceptors.{
  is_after_deserialization,
  is_before_transmit,
  is_plain_transient,
  is_reconnecting,
  poisons,
  reconnects,
};

use crate::backoff::is_v2_1;
use crate::standing::standing_retry;
use crate::token_bucket_provider::sets;
use smithy_base::Intercept;
use smithy_context::{HookAnswer, HookView, Setting};
use smithy_types::{ErrorKind, Hook, OutOfMemory, ReconnectMode, RetryAction, RetryConfig};
use std::alloc::Global;

/// Sets Capture to the attempt's number before it transmits, and Poisoned to it where the verdict
/// that was offered last asks for a new connection.
#[derive(Debug, Drop)]
pub struct ConnectionPoisoningInterceptor {
    verdict: RetryAction,
}

impl ConnectionPoisoningInterceptor {
    /// The interceptor that was offered nothing yet.
    pub fn new() -> ConnectionPoisoningInterceptor
        ensures { result.verdict ≡ RetryAction.NoActionIndicated }
    {
        ConnectionPoisoningInterceptor {
            verdict: RetryAction::NoActionIndicated,
        }
    }

    /// Takes what the classifiers said of the attempt.
    pub fn offer(&mut self, verdict: RetryAction)
        ensures { self.new.verdict ≡ verdict }
    {
        self.verdict = verdict;
    }
}

impl Intercept for ConnectionPoisoningInterceptor {
    ghost use Rattle.std.specs.Prelude.{◌≡◌, ◌||◌, codes};
    ghost use Rattle.retry_policy.specs.Interceptors.{connection_answer, is_after_deserialization};
    ghost use Rattle.retry_policy.specs.Interceptors.{is_before_transmit};

    ghost names = { λ _. codes "ConnectionPoisoningInterceptor" };

    ghost hooks = { λ _ hook. is_before_transmit hook || is_after_deserialization hook };

    ghost runs = { λ old hook view answer new. (new ≡ old)
        × (answer ≡ connection_answer hook old.verdict view) };

    fn name(&self) -> &str {
        "ConnectionPoisoningInterceptor"
    }

    fn overrides(&self, hook: Hook) -> bool {
        is_before_transmit(hook) || is_after_deserialization(hook)
    }

    fn run(
        &mut self,
        alloc: Global,
        hook: Hook,
        view: &HookView,
    ) -> Result<HookAnswer, OutOfMemory> {
        if is_before_transmit(hook) {
            return sets(alloc, Setting::Capture(view.attempt));
        }
        let poisoned = is_after_deserialization(hook)
            && poisons(self.verdict, standing_retry(&view.settings));
        if poisoned {
            return sets(alloc, Setting::Poisoned(view.attempt));
        }
        Ok(HookAnswer::done())
    }
}

/// The same as `new`.
impl Default for ConnectionPoisoningInterceptor {
    ghost use Rattle.std.specs.Prelude.{◌≡◌};
    ghost use Rattle.smithy_types.specs.declared.notes.RetryAction.TheVariants.{NoActionIndicated};

    ghost is_default = { λ interceptor. interceptor.verdict ≡ NoActionIndicated };

    fn default() -> ConnectionPoisoningInterceptor {
        ConnectionPoisoningInterceptor::new()
    }
}

fn is_before_transmit(hook: Hook) -> bool
    ensures { result ≡ is_before_transmit hook }
{
    matches!(hook, Hook::ModifyBeforeTransmit)
}

fn is_after_deserialization(hook: Hook) -> bool
    ensures { result ≡ is_after_deserialization hook }
{
    matches!(hook, Hook::ReadAfterDeserialization)
}

/// Whether the verdict asks for a new connection, under this retry setting.
fn poisons(verdict: RetryAction, retry: Option<RetryConfig>) -> bool
    ensures { result ≡ poisons verdict retry }
{
    is_plain_transient(verdict) && reconnects(retry)
}

fn is_plain_transient(verdict: RetryAction) -> bool
    ensures { result ≡ is_plain_transient verdict }
{
    matches!(
        verdict,
        RetryAction::RetryIndicated {
            kind: ErrorKind::TransientError,
            retry_after: None,
        }
    )
}

fn reconnects(retry: Option<RetryConfig>) -> bool
    ensures { result ≡ reconnects retry }
{
    match retry {
        Some(retry) => is_reconnecting(retry.reconnect) && !is_v2_1(retry.spec),
        None => true,
    }
}

fn is_reconnecting(mode: ReconnectMode) -> bool
    ensures { result ≡ is_reconnecting mode }
{
    match mode {
        ReconnectMode::ReconnectOnTransientError => true,
        ReconnectMode::ReuseAllConnections => false,
    }
}

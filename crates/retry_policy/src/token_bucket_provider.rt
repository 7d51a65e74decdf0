//! The interceptor that sets the bucket which retries are paid from.
ghost use Rattle.std.specs.Prelude.{◌≡◌, IfOk, None, Some};
ghost use Rattle.retry_policy.specs.Interceptors.{bucket_answer, is_before_retry_loop, sets};

use smithy_base::Intercept;
use smithy_context::{HookAnswer, HookView, Layer, Setting};
use smithy_types::{Hook, OutOfMemory};
use std::alloc::Global;

/// Sets the setting Bucket before the retry loop to the number that it was offered last.
#[derive(Debug, Drop)]
pub struct TokenBucketProvider {
    offered: Option<u32>,
}

impl TokenBucketProvider {
    /// The provider that was offered nothing yet, which sets nothing.
    pub fn new() -> TokenBucketProvider
        ensures { result.offered ≡ None }
    {
        TokenBucketProvider { offered: None }
    }

    /// Takes the number of the bucket of the standing partition.
    pub fn offer(&mut self, bucket: u32)
        ensures { self.new.offered ≡ Some bucket }
    {
        self.offered = Some(bucket);
    }
}

impl Intercept for TokenBucketProvider {
    ghost use Rattle.std.specs.Prelude.{◌≡◌, codes};
    ghost use Rattle.retry_policy.specs.Interceptors.{bucket_answer, is_before_retry_loop};

    ghost names = { λ _. codes "TokenBucketProvider" };

    ghost hooks = { λ _ hook. is_before_retry_loop hook };

    ghost runs = { λ old hook view answer new. (new ≡ old)
        × (answer ≡ bucket_answer (is_before_retry_loop hook) old.offered) };

    fn name(&self) -> &str {
        "TokenBucketProvider"
    }

    fn overrides(&self, hook: Hook) -> bool {
        is_before_retry_loop(hook)
    }

    fn run(
        &mut self,
        alloc: Global,
        hook: Hook,
        _view: &HookView,
    ) -> Result<HookAnswer, OutOfMemory> {
        if !is_before_retry_loop(hook) {
            return Ok(HookAnswer::done());
        }
        match self.offered {
            Some(bucket) => sets(alloc, Setting::Bucket(bucket)),
            None => Ok(HookAnswer::done()),
        }
    }
}

fn is_before_retry_loop(hook: Hook) -> bool
    ensures { result ≡ is_before_retry_loop hook }
{
    matches!(hook, Hook::ModifyBeforeRetryLoop)
}

/// The answer that sets this alone.
pub(crate) fn sets(alloc: Global, setting: Setting) -> Result<HookAnswer, OutOfMemory>
    ensures { IfOk result (λ answer. answer ≡ sets setting) }
{
    let mut settings = Layer::new();
    settings.put(alloc, setting)?;
    Ok(HookAnswer {
        change: None,
        settings,
        failure: None,
    })
}

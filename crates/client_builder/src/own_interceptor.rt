//! The interceptors that the builder itself registers.

use body_guard::enforce_length::EnforceContentLengthInterceptor;
use body_guard::stalled_stream::StalledStreamProtectionInterceptor;
use client_retries::TakeOffer;
use retry_policy::{ConnectionPoisoningInterceptor, TokenBucketProvider};
use smithy_base::Intercept;
use smithy_context::{HookAnswer, HookView};
use smithy_types::{Hook, OutOfMemory, RetryAction};
use std::alloc::Global;

/// One of the crate's own interceptors.
#[derive(Debug, Drop)]
pub enum OwnInterceptor {
    /// Sets the bucket that retries are paid from.
    TokenBucket(TokenBucketProvider),
    /// Protects streams from stalls.
    StalledStream(StalledStreamProtectionInterceptor),
    /// Gives a connection up on which a transient failure came.
    ConnectionPoisoning(ConnectionPoisoningInterceptor),
    /// Has the length of a response held to its header.
    EnforceContentLength(EnforceContentLengthInterceptor),
}

impl Intercept for OwnInterceptor {
    ghost use Rattle.client_builder.specs.Own.{OwnRuns, own_hooks, own_names};

    ghost names = { own_names };

    ghost hooks = { own_hooks };

    ghost runs = { OwnRuns };

    fn name(&self) -> &str {
        match self {
            OwnInterceptor::TokenBucket(one) => one.name(),
            OwnInterceptor::StalledStream(one) => one.name(),
            OwnInterceptor::ConnectionPoisoning(one) => one.name(),
            OwnInterceptor::EnforceContentLength(one) => one.name(),
        }
    }

    fn overrides(&self, hook: Hook) -> bool {
        match self {
            OwnInterceptor::TokenBucket(one) => one.overrides(hook),
            OwnInterceptor::StalledStream(one) => one.overrides(hook),
            OwnInterceptor::ConnectionPoisoning(one) => one.overrides(hook),
            OwnInterceptor::EnforceContentLength(one) => one.overrides(hook),
        }
    }

    fn run(
        &mut self,
        alloc: Global,
        hook: Hook,
        view: &HookView,
    ) -> Result<HookAnswer, OutOfMemory> {
        match self {
            OwnInterceptor::TokenBucket(one) => one.run(alloc, hook, view),
            OwnInterceptor::StalledStream(one) => one.run(alloc, hook, view),
            OwnInterceptor::ConnectionPoisoning(one) => one.run(alloc, hook, view),
            OwnInterceptor::EnforceContentLength(one) => one.run(alloc, hook, view),
        }
    }
}

impl TakeOffer for OwnInterceptor {
    ghost use Rattle.client_builder.specs.Own.{own_with_bucket, own_with_verdict};

    ghost with_bucket = { own_with_bucket };

    ghost with_verdict = { own_with_verdict };

    fn offer_bucket(&mut self, bucket: u32) {
        if let OwnInterceptor::TokenBucket(one) = self {
            one.offer_bucket(bucket);
        }
    }

    fn offer_verdict(&mut self, verdict: RetryAction) {
        if let OwnInterceptor::ConnectionPoisoning(one) = self {
            one.offer_verdict(verdict);
        }
    }
}

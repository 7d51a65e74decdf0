//! The classifier that asks the caller's own error type.
ghost use Rattle.std.specs.Prelude.{◌≡◌, codes, pos};
ghost use Rattle.retry_policy.specs.Classifying.{failure_kind, modeled_kind, modeled_says};

use crate::classify::retry_for;
use crate::transient::failure;
use smithy_context::InterceptorContext;
use smithy_types::{ErrorKind, FaultKind, ProvideErrorKind, RetryAction};
use std::marker::PhantomData;

/// A failure of the operation counts as the kind that its type E tells.
#[derive(Drop)]
pub struct ModeledAsRetryableClassifier<E> {
    error: PhantomData<E>,
}

impl<E: ProvideErrorKind> ModeledAsRetryableClassifier<E> {
    /// The classifier. It takes no memory.
    pub fn new() -> ModeledAsRetryableClassifier<E> {
        ModeledAsRetryableClassifier { error: PhantomData }
    }

    /// What it is called.
    pub fn name(&self) -> &'static str
        ensures { result.now ≡ codes "Errors Modeled As Retryable" }
    {
        "Errors Modeled As Retryable"
    }

    /// Behind the status.
    pub fn priority(&self) -> i8
        ensures { result ≡ pos 10 }
    {
        10
    }

    /// A retry of the kind that the payload of a standing failure of the operation has.
    pub fn classify_retry(&self, ctx: &InterceptorContext) -> RetryAction
        ensures { result ≡ modeled_says E.kind_in ctx.now }
    {
        match failure(ctx) {
            Some(kind) => retry_for(kind_of_failure::<E>(kind)),
            None => RetryAction::NoActionIndicated,
        }
    }
}

fn kind_of_failure<E: ProvideErrorKind>(kind: &FaultKind) -> Option<ErrorKind>
    ensures { result ≡ modeled_kind E.kind_in (Some kind.now) }
{
    match kind {
        FaultKind::Operation(payload) => E::kind_of(payload),
        _ => None,
    }
}

/// The same as `new`.
impl<E: ProvideErrorKind> Default for ModeledAsRetryableClassifier<E> {
    fn default() -> ModeledAsRetryableClassifier<E> {
        ModeledAsRetryableClassifier::new()
    }
}

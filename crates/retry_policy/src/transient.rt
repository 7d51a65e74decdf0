//! The classifier of failures that have nothing to do with the operation.
ghost use Rattle.std.specs.Prelude.{◌≡◌, Some, codes, option_copied, pos};
ghost use Rattle.retry_policy.specs.Classifying.{connector_error, failure_kind, transient_kind};
ghost use Rattle.retry_policy.specs.Classifying.{transient_says};

use crate::classify::retry_for;
use smithy_context::InterceptorContext;
use smithy_types::{ConnectorKind, ErrorKind, FaultKind, Outcome, ProvideErrorKind, RetryAction};
use std::marker::PhantomData;

/// A failure of the connection, of a response or by a deadline is transient.
#[derive(Drop)]
pub struct TransientErrorClassifier<E> {
    error: PhantomData<E>,
}

impl<E: ProvideErrorKind> TransientErrorClassifier<E> {
    /// The classifier. It takes no memory.
    pub fn new() -> TransientErrorClassifier<E> {
        TransientErrorClassifier { error: PhantomData }
    }

    /// What it is called.
    pub fn name(&self) -> &'static str
        ensures { result.now ≡ codes "Retryable Smithy Errors" }
    {
        "Retryable Smithy Errors"
    }

    /// The highest of the crate's own.
    pub fn priority(&self) -> i8
        ensures { result ≡ pos 20 }
    {
        20
    }

    /// A transient retry for a response that couldn't be read, a deadline that passed, and a
    /// connector that failed by a deadline or by input and output; the connector's own kind where
    /// it has one.
    pub fn classify_retry(&self, ctx: &InterceptorContext) -> RetryAction
        ensures { result ≡ transient_says ctx.now }
    {
        match failure(ctx) {
            Some(kind) => retry_for(kind_of_failure(kind)),
            None => RetryAction::NoActionIndicated,
        }
    }
}

/// The kind of the failure that stands.
pub(crate) fn failure(ctx: &InterceptorContext) -> Option<&FaultKind>
    ensures { option_copied result ≡ failure_kind ctx.now.view.outcome }
{
    match ctx.outcome() {
        Some(Outcome::Failed(fault)) => Some(&fault.kind),
        _ => None,
    }
}

fn kind_of_failure(kind: &FaultKind) -> Option<ErrorKind>
    ensures { result ≡ transient_kind (Some kind.now) }
{
    match kind {
        FaultKind::Response | FaultKind::Timeout => Some(ErrorKind::TransientError),
        FaultKind::Connector(kind) => kind_of_connector(*kind),
        _ => None,
    }
}

fn kind_of_connector(kind: ConnectorKind) -> Option<ErrorKind>
    ensures { result ≡ connector_error kind }
{
    match kind {
        ConnectorKind::Timeout | ConnectorKind::Io => Some(ErrorKind::TransientError),
        ConnectorKind::User => None,
        ConnectorKind::Other(kind) => kind,
    }
}

/// The same as `new`.
impl<E: ProvideErrorKind> Default for TransientErrorClassifier<E> {
    fn default() -> TransientErrorClassifier<E> {
        TransientErrorClassifier::new()
    }
}

//! Classifiers, and what a list of them says together.
ghost use Rattle.std.specs.Prelude.{◌≡◌};
ghost use Rattle.retry_policy.specs.Classifying.{modeled_says, retry_for, status_says};
ghost use Rattle.retry_policy.specs.Classifying.{transient_says};
ghost use Rattle.retry_policy.specs.Verdict.{is_forbidden, replaced, verdict_of};

use crate::{HttpStatusCodeClassifier, ModeledAsRetryableClassifier, TransientErrorClassifier};
use smithy_context::InterceptorContext;
use smithy_types::{ErrorKind, ProvideErrorKind, RetryAction};

/// Says whether what an attempt came to is worth another one.
pub trait ClassifyRetry: Drop {
    ghost use Rattle.std.specs.Prelude.{ℕ, ℤ, List};
    ghost use Rattle.smithy_context.specs.declared.context.InterceptorContext.{InterceptorContext};
    ghost use Rattle.smithy_types.specs.declared.notes.RetryAction.{RetryAction};

    /// The text of the name.
    ghost called: { Self → List ℕ };

    /// Its priority.
    ghost ranked: { Self → ℤ };

    /// What the classifier says of a context, where the others before it came to a verdict.
    ghost says: { Self → InterceptorContext → RetryAction → RetryAction };

    /// What it is called.
    fn name(&self) -> &str
        ensures { result.now ≡ called self.now };

    /// Classifiers run in the order of their priority, the lowest first.
    fn priority(&self) -> i8
        ensures { result ≡ ranked self.now };

    /// What it says of this context, where those before it came to this verdict.
    fn classify_retry_v2(&self, ctx: &InterceptorContext, previous: &RetryAction) -> RetryAction
        ensures { result ≡ says self.now ctx.now previous.now };
}

/// One of the crate's own classifiers, or one that the caller brings.
#[derive(Drop)]
pub enum Classifier<E> {
    /// By the response's status.
    HttpStatusCode(HttpStatusCodeClassifier),
    /// By what the service's error says of itself.
    ModeledAsRetryable(ModeledAsRetryableClassifier<E>),
    /// By what failed on the way.
    TransientError(TransientErrorClassifier<E>),
    /// One that the caller brings.
    Boxed(Box<dyn ClassifyRetry>),
}

impl<E: ProvideErrorKind> ClassifyRetry for Classifier<E> {
    ghost use Rattle.std.specs.Prelude.{codes, pos};
    ghost use Rattle.retry_policy.specs.Classifying.{modeled_says, status_says, transient_says};
    ghost use Rattle.retry_policy.specs.declared.classify.Classifier.TheVariants.{HttpStatusCode};
    ghost use Rattle.retry_policy.specs.declared.classify.Classifier.TheVariants.{ModeledAsRetryable};
    ghost use Rattle.retry_policy.specs.declared.classify.Classifier.TheVariants.{TransientError};
    ghost use Rattle.retry_policy.specs.declared.classify.Classifier.TheVariants.{Boxed};

    ghost called = { elim [
      | HttpStatusCode x ↦ codes "HTTP Status Code"
      | ModeledAsRetryable x ↦
          codes "Errors Modeled As Retryable"
      | TransientError x ↦ codes "Retryable Smithy Errors"
      | Boxed x ↦ (ClassifyRetry-box x).called x.value
    ] };

    ghost ranked = { elim [
      | HttpStatusCode x ↦ pos 0
      | ModeledAsRetryable x ↦ pos 10
      | TransientError x ↦ pos 20
      | Boxed x ↦ (ClassifyRetry-box x).ranked x.value
    ] };

    ghost says = { elim [
      | HttpStatusCode x ↦ (λ c v. status_says x.codes c)
      | ModeledAsRetryable x ↦
          (λ c v. modeled_says E.kind_in c)
      | TransientError x ↦ (λ c v. transient_says c)
      | Boxed x ↦
          (ClassifyRetry-box x).says x.value
    ] };

    fn name(&self) -> &str {
        match self {
            Classifier::HttpStatusCode(classifier) => classifier.name(),
            Classifier::ModeledAsRetryable(classifier) => classifier.name(),
            Classifier::TransientError(classifier) => classifier.name(),
            Classifier::Boxed(classifier) => classifier.name(),
        }
    }

    fn priority(&self) -> i8 {
        match self {
            Classifier::HttpStatusCode(classifier) => classifier.priority(),
            Classifier::ModeledAsRetryable(classifier) => classifier.priority(),
            Classifier::TransientError(classifier) => classifier.priority(),
            Classifier::Boxed(classifier) => classifier.priority(),
        }
    }

    fn classify_retry_v2(&self, ctx: &InterceptorContext, previous: &RetryAction) -> RetryAction {
        match self {
            Classifier::HttpStatusCode(classifier) => classifier.classify_retry(ctx),
            Classifier::ModeledAsRetryable(classifier) => classifier.classify_retry(ctx),
            Classifier::TransientError(classifier) => classifier.classify_retry(ctx),
            Classifier::Boxed(classifier) => classifier.classify_retry_v2(ctx, previous),
        }
    }
}

/// Asks each classifier in the order of the list, which is that of their priorities. An answer that
/// indicates nothing keeps the verdict so far, one that forbids a retry ends the walk, and any
/// other is the new verdict. It takes no memory.
pub fn run_classifiers_on_ctx<E: ProvideErrorKind>(
    classifiers: &[Classifier<E>],
    ctx: &InterceptorContext,
) -> RetryAction
    ensures { result ≡ verdict_of ⟦<Classifier<E> as ClassifyRetry>⟧.says ctx.now classifiers.now
        RetryAction.NoActionIndicated }
{
    run_each(classifiers, ctx)
}

/// The same over classifiers of any one type.
pub fn run_each<C: ClassifyRetry>(classifiers: &[C], ctx: &InterceptorContext) -> RetryAction
    ensures { result ≡ verdict_of C.says ctx.now classifiers.now RetryAction.NoActionIndicated }
{
    let mut verdict = RetryAction::NoActionIndicated;
    for classifier in classifiers {
        let answer = classifier.classify_retry_v2(ctx, &verdict);
        if is_forbidden(answer) {
            return RetryAction::RetryForbidden;
        }
        verdict = replaced(answer, verdict);
    }
    verdict
}

fn is_forbidden(answer: RetryAction) -> bool
    ensures { result ≡ is_forbidden answer }
{
    matches!(answer, RetryAction::RetryForbidden)
}

fn replaced(answer: RetryAction, verdict: RetryAction) -> RetryAction
    ensures { result ≡ replaced answer verdict }
{
    match answer {
        RetryAction::NoActionIndicated => verdict,
        RetryAction::RetryIndicated { kind, retry_after } => {
            RetryAction::RetryIndicated { kind, retry_after }
        }
        RetryAction::RetryForbidden => RetryAction::RetryForbidden,
    }
}

/// A retry for an error of this kind, or no action where there is none.
pub(crate) fn retry_for(kind: Option<ErrorKind>) -> RetryAction
    ensures { result ≡ retry_for kind }
{
    match kind {
        Some(kind) => RetryAction::RetryIndicated {
            kind,
            retry_after: None,
        },
        None => RetryAction::NoActionIndicated,
    }
}

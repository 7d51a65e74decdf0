//! Hook.
ghost use Rattle.std.specs.Prelude.{◌≡◌, ℕ, IfOk, OnErr, OnOk};
ghost use Rattle.client_retries.specs.Hooking.{Hooks, Offers, Stops, is_operations, poisoning};
ghost use Rattle.client_retries.specs.Hooking.{seen_context};
ghost use Rattle.retry_quota.specs.Meaning.{IsKept};
ghost use Rattle.retry_policy.specs.Interceptors.{is_after_deserialization, is_before_retry_loop};
ghost use Rattle.retry_policy.specs.Verdict.{verdict_of};
ghost use Rattle.retry_quota.specs.Calls.{Calls, limiters_by};
ghost use Rattle.client_retries.specs.Offering.{finding_bucket, offered_bucket, standing_spec};
ghost use Rattle.retry_policy.specs.Standing.{standing_partition};
ghost use Rattle.smithy_types.specs.Chain.{Chained};

use crate::decide::context_of;
use crate::offers::{TakeOffer, offer_bucket_to_all, offer_verdict_to_all};
use crate::reading::{poisoned_in, standing_partition, standing_spec};
use crate::{InterceptorMeaning, QuotaMeaning};
use outside::Outside;
use retry_policy::ClassifyRetry;
use retry_policy::classify::run_each as run_classifiers;
use retry_quota::Quota;
use run_grammar::Answer;
use smithy_base::run_each;
use smithy_context::{HookAnswer, HookReply, HookView};
use smithy_types::{Hook, OutOfMemory, RetryAction};
use std::alloc::Global;

/// Runs the client's interceptors at a hook. Right before, they are offered what the hook has for
/// them: the bucket of the standing partition before the retry loop, and the classifiers' verdict
/// once a response is read. Where the chain then gives a connection up, the outside is told.
///
/// All interceptors are the client's, so the operation's first hook runs none. Without memory no
/// interceptor was offered anything, or all were, and those that had run keep what they did.
pub fn hook<X: Outside, Q: Quota, C: ClassifyRetry, I: TakeOffer>(
    alloc: Global,
    classifiers: &[C],
    interceptors: &mut [I],
    outside: &mut X,
    quota: &mut Q,
    hook: Hook,
    view: &HookView,
) -> Result<Answer, OutOfMemory>
    ensures ok { IfOk result (λ a. (calls : _) × Chained X.makes outside.old calls outside.new
        × Hooks ⟦<Q as QuotaMeaning>⟧.means
        ⟦<I as InterceptorMeaning>⟧.means
        (verdict_of C.says (seen_context view.now) classifiers.now RetryAction.NoActionIndicated)
        hook view.now interceptors.old quota.old a interceptors.new calls quota.new) }
    ensures outside { OnErr result ((calls : _) × Chained X.makes outside.old calls outside.new) }
    ensures err { OnErr result (Stops ⟦<Q as QuotaMeaning>⟧.means
        ⟦<I as InterceptorMeaning>⟧.means
        (verdict_of C.says (seen_context view.now) classifiers.now RetryAction.NoActionIndicated)
        hook view.now interceptors.old quota.old interceptors.new quota.new) }
{
    if is_operations(hook) {
        return Ok(Answer::Hooked(HookReply::done()));
    }
    offer(alloc, classifiers, interceptors, quota, hook, view)?;
    let answer = run_each(alloc, interceptors, hook, view)?;
    poison(outside, hook, &answer);
    Ok(Answer::Hooked(HookReply::of(alloc, answer)?))
}

// Whether the hook is the operation's own first one.
fn is_operations(hook: Hook) -> bool
    ensures { result ≡ is_operations hook }
{
    matches!(hook, Hook::ReadBeforeExecutionOperation)
}

fn is_before_retry_loop(hook: Hook) -> bool
    ensures { result ≡ is_before_retry_loop hook }
{
    matches!(hook, Hook::ModifyBeforeRetryLoop)
}

fn is_after_deserialization(hook: Hook) -> bool
    ensures { result ≡ is_after_deserialization hook }
{
    matches!(hook, Hook::ReadAfterDeserialization)
}

// Offers the interceptors what the hook has for them.
fn offer<Q: Quota, C: ClassifyRetry, I: TakeOffer>(
    alloc: Global,
    classifiers: &[C],
    interceptors: &mut [I],
    quota: &mut Q,
    hook: Hook,
    view: &HookView,
) -> Result<(), OutOfMemory>
    ensures ok { OnOk result (Offers
        ⟦<Q as QuotaMeaning>⟧.means
        ⟦<I as InterceptorMeaning>⟧.means
        (verdict_of C.says (seen_context view.now) classifiers.now RetryAction.NoActionIndicated)
        hook view.now interceptors.old quota.old interceptors.new quota.new) }
    ensures err { OnErr result ((interceptors.new ≡ interceptors.old)
        × IsKept (Q.meaning quota.old) (Q.meaning quota.new)) }
{
    if is_before_retry_loop(hook) {
        return offer_bucket(alloc, interceptors, quota, view);
    }
    if is_after_deserialization(hook) {
        offer_verdict_to_all(interceptors, verdict_on(classifiers, view)?);
    }
    Ok(())
}

// Finds the bucket of the standing partition and offers it. Without a partition nothing is done.
fn offer_bucket<Q: Quota, I: TakeOffer>(
    alloc: Global,
    interceptors: &mut [I],
    quota: &mut Q,
    view: &HookView,
) -> Result<(), OutOfMemory>
    ensures ok { OnOk result ((number : ℕ)
        × Chained (Calls (limiters_by Q.Limiter.at Q.Limiter.after_acquire Q.Limiter.reply_to
        Q.Limiter.after_update)) (Q.meaning quota.old)
        (finding_bucket (standing_partition view.now.settings) (standing_spec view.now.settings)
        number) (Q.meaning quota.new)
        × (interceptors.new ≡ offered_bucket
        ⟦<I as InterceptorMeaning>⟧.means
        (standing_partition view.now.settings) number interceptors.old)) }
    ensures err { OnErr result ((interceptors.new ≡ interceptors.old)
        × IsKept (Q.meaning quota.old) (Q.meaning quota.new)) }
{
    let Some(partition) = standing_partition(&view.settings) else {
        return Ok(());
    };
    let spec = standing_spec(&view.settings);
    let bucket = quota.bucket_for(alloc, partition, spec.as_ref())?;
    offer_bucket_to_all(interceptors, bucket);
    Ok(())
}

// What the classifiers say of what stands.
fn verdict_on<C: ClassifyRetry>(
    classifiers: &[C],
    view: &HookView,
) -> Result<RetryAction, OutOfMemory>
    ensures { IfOk result (λ v. v ≡
        verdict_of C.says (seen_context view.now) classifiers.now RetryAction.NoActionIndicated) }
{
    let context = context_of(view.clone()?);
    Ok(run_classifiers(classifiers, &context))
}

// Tells the outside of a connection that the chain gave up.
fn poison<X: Outside>(outside: &mut X, hook: Hook, answer: &HookAnswer)
    ensures { Chained X.makes outside.old (poisoning hook answer.now) outside.new }
{
    if !is_after_deserialization(hook) {
        return;
    }
    if let Some(number) = poisoned_in(&answer.settings) {
        outside.poison(number);
    }
}

//! Decide.
ghost use Rattle.std.specs.Prelude.{◌≡◌, Ok, Err, IfOk, IfSome, IsTrue, MatchOption, OnErr};
ghost use Rattle.client_retries.specs.Deciding.{DecisionStops, IsDecided, StandardDecides};
ghost use Rattle.client_retries.specs.Deciding.{StopsDeciding, paused, sums_in};
ghost use Rattle.client_retries.specs.Hooking.{seen_context};
ghost use Rattle.retry_policy.specs.Standing.{standing_bucket};
ghost use Rattle.retry_policy.specs.Verdict.{verdict_of};
ghost use Rattle.smithy_types.specs.Chain.{Chained};

use crate::reading::standing_bucket;
use crate::{QuotaMeaning, RetryStrategy};
use outside::{Outside, present};
use retry_policy::classify::run_each as run_classifiers;
use retry_policy::{ClassifyRetry, Decision, StandardRetryStrategy, StrategyError};
use retry_quota::Quota;
use run_grammar::Answer;
use smithy_context::{HookView, InterceptorContext, Settings};
use smithy_types::{Choice, DecideNote, OutOfMemory, Phase, RetryAction, Shared, Sums};
use std::alloc::Global;

/// Whether there is a further attempt: the classifiers, the clock, a random word and then the
/// strategy are asked, in this order. The note holds what was decided from, with the sums of the
/// bucket in force afterwards. It is absent where a setting that the strategy needs is missing; its
/// word is drawn nonetheless.
///
/// The context is what `context_of` makes of the question's parts.
pub fn decide<X: Outside, Q: Quota, C: ClassifyRetry>(
    alloc: Global,
    classifiers: &[C],
    time_source: bool,
    strategy: &mut RetryStrategy<Q::Permit>,
    outside: &mut X,
    quota: &mut Q,
    context: &InterceptorContext,
) -> Result<Answer, OutOfMemory>
    ensures ok { IfOk result (λ a. (calls : _) × Chained X.makes outside.old calls outside.new
        × IsDecided ⟦<Q as QuotaMeaning>⟧.means
        (verdict_of C.says context.now classifiers.now RetryAction.NoActionIndicated)
        time_source context.now strategy.old quota.old a strategy.new calls quota.new) }
    ensures outside { OnErr result ((calls : _) × Chained X.makes outside.old calls outside.new) }
    ensures err { OnErr result (DecisionStops ⟦<Q as QuotaMeaning>⟧.means
        (verdict_of C.says context.now classifiers.now RetryAction.NoActionIndicated)
        context.now strategy.old quota.old strategy.new quota.new) }
{
    match strategy {
        RetryStrategy::Never(never) => {
            let decision = never.should_attempt_retry();
            Ok(Answer::Decided(decision.choice, None))
        }
        RetryStrategy::Standard(standard) => {
            decide_standard(
                alloc,
                classifiers,
                time_source,
                standard,
                outside,
                quota,
                context,
            )
        }
    }
}

/// What classifiers and the strategy are handed of a view: all but the input, with everything
/// deserialized.
pub fn context_of(view: HookView) -> InterceptorContext
    ensures { result ≡ seen_context view }
{
    let mut seen = view;
    seen.input = None;
    InterceptorContext::of(seen, Phase::AfterDeserialization)
}

// Asks the standard strategy.
fn decide_standard<X: Outside, Q: Quota, C: ClassifyRetry>(
    alloc: Global,
    classifiers: &[C],
    time_source: bool,
    strategy: &mut StandardRetryStrategy<Q::Permit>,
    outside: &mut X,
    quota: &mut Q,
    context: &InterceptorContext,
) -> Result<Answer, OutOfMemory>
    ensures ok { IfOk result (λ a. (calls : _) × Chained X.makes outside.old calls outside.new
        × StandardDecides ⟦<Q as QuotaMeaning>⟧.means
        (verdict_of C.says context.now classifiers.now RetryAction.NoActionIndicated)
        time_source context.now strategy.old quota.old a strategy.new calls quota.new) }
    ensures outside { OnErr result ((calls : _) × Chained X.makes outside.old calls outside.new) }
    ensures err { OnErr result (StopsDeciding ⟦<Q as QuotaMeaning>⟧.means
        (verdict_of C.says context.now classifiers.now RetryAction.NoActionIndicated)
        context.now strategy.old quota.old strategy.new quota.new) }
{
    let verdict = run_classifiers(classifiers, context);
    let moment = present(time_source, outside);
    let word = outside.word();
    let settings = context.settings();
    let decided = strategy.should_attempt_retry(
        alloc, context, &verdict, settings, quota, moment, word,
    );
    match decision_in(decided)? {
        Some(decision) => {
            let note = DecideNote {
                verdict,
                moment,
                word,
                reason: decision.reason,
                sums: sums_in_force(quota, settings),
            };
            let note = Shared::new(alloc, note)?;
            Ok(Answer::Decided(paused(decision), Some(note)))
        }
        None => Ok(Answer::Absent),
    }
}

// The decision, none where a setting is missing.
fn decision_in(decided: Result<Decision, StrategyError>) -> Result<Option<Decision>, OutOfMemory>
    ensures { IfOk result (λ found. MatchOption found
        (decided ≡ Err StrategyError.MissingSetting)
        (λ decision. decided ≡ Ok decision)) }
{
    match decided {
        Ok(decision) => Ok(Some(decision)),
        Err(StrategyError::MissingSetting) => Ok(None),
        Err(StrategyError::OutOfMemory) => Err(OutOfMemory),
    }
}

// The sums of the bucket in force, where the quota tells them.
fn sums_in_force<Q: Quota>(quota: &Q, settings: &Settings) -> Option<Sums>
    requires { IfSome (standing_bucket settings.now)
        (λ bucket. IsTrue ((Q.meaning quota.now).has bucket)) }
    ensures { result ≡ sums_in (Q.meaning quota.now) (standing_bucket settings.now) }
{
    match standing_bucket(settings) {
        Some(bucket) => quota.sums(bucket),
        None => None,
    }
}

// The choice, with the pause of an operation that polls for long.
fn paused(decision: Decision) -> Choice
    ensures { result ≡ paused decision }
{
    match decision.long_poll {
        Some(nanos) => Choice::NoAfter(nanos),
        None => decision.choice,
    }
}

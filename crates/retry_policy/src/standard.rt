//! The strategy that pays for retries.
ghost use Rattle.std.specs.Prelude.{◌≡◌, ℕ, Option, if◌then◌else◌, true, IfOk, OnErr, ◌↔◌, IsTrue};
ghost use Rattle.smithy_context.specs.Failures.{is_failure};
ghost use Rattle.smithy_types.specs.Chain.{Chained};
ghost use Rattle.retry_quota.specs.Calls.{Calls, KeepsThere, limiters_by};
ghost use Rattle.retry_quota.specs.Meaning.{IsKept};
ghost use Rattle.retry_policy.specs.Backoff.{polls_for_long};
ghost use Rattle.retry_policy.specs.Decision.{
  Asks,
  Begins,
  Comes,
  Decides,
  case_of,
  deciding,
  decision,
  forgetting,
  held_on,
  paying,
  permit_of,
  reason_for,
  releasing,
  retrying,
  second_of,
  settled,
  telling,
  verdict_throttles,
};
ghost use Rattle.retry_policy.specs.Standing.{lacks_setting};

use crate::backoff::{backoff, is_throttling, is_v2_1, own_backoff, polls_for_long};
use crate::standing::{Paced, find_limiter, standing_terms};
use crate::{Decision, Initial, StrategyError};
use retry_quota::{Quota, RequestReason};
use smithy_context::{InterceptorContext, Settings};
use smithy_types::{Choice, ErrorKind, Reason, RetryAction, RetryConfig};
use std::alloc::Global;

/// How many nanoseconds a second has.
const SECOND: u64 = 1_000_000_000;

/// Pays for each retry from the bucket in force, and holds the permit of the last one until a
/// success gives it back or a further retry takes its place.
#[derive(Drop)]
pub struct StandardRetryStrategy<P> {
    held: Option<P>,
}

/// What a decision goes by beside the verdict and the quota.
#[derive(Clone, Copy)]
struct Attempt {
    retry: RetryConfig,
    bucket: u32,
    paced: Option<Paced>,
    failed: bool,
    number: u64,
    now: Option<u64>,
    word: u64,
}

impl<P> StandardRetryStrategy<P> {
    /// The strategy that holds no permit.
    pub fn new() -> StandardRetryStrategy<P>
        ensures { result.held ≡ None }
    {
        StandardRetryStrategy { held: None }
    }
}

impl<P: Drop> StandardRetryStrategy<P> {
    /// Whether an operation is begun at this moment: it is, at once or once its limiter lets it.
    pub fn should_attempt_initial_request<Q: Quota<Permit = P>>(
        &mut self,
        alloc: Global,
        settings: &Settings,
        quota: &mut Q,
        now: Option<u64>,
    ) -> Result<Initial, StrategyError>
        ensures begins { IfOk result
            (λ first. Begins (limiters_by Q.Limiter.at Q.Limiter.after_acquire Q.Limiter.reply_to
            Q.Limiter.after_update)
            (Q.meaning quota.old) settings.now now first (Q.meaning quota.new)) }
        ensures missing { (result ≡ Err StrategyError.MissingSetting)
            ↔ IsTrue (lacks_setting settings.now now (Q.meaning quota.old).has) }
        ensures kept { OnErr result (IsKept (Q.meaning quota.old) (Q.meaning quota.new)) }
        ensures slot { self.new ≡ self.old }
    {
        let terms = standing_terms(settings, quota, now)?;
        let paced = find_limiter(alloc, settings, terms.retry, quota, now)?;
        match ask_limiter(quota, false, paced, RequestReason::InitialRequest) {
            Some(delay) => Ok(Initial::Delay(delay)),
            None => Ok(Initial::Go),
        }
    }

    /// Whether there is a further attempt behind this one, and how long it waits. The verdict is
    /// what the classifiers said, and the word a random one, of which a backoff takes its part. A
    /// success gives the held permit back or is rewarded.
    pub fn should_attempt_retry<Q: Quota<Permit = P>>(
        &mut self,
        alloc: Global,
        ctx: &InterceptorContext,
        verdict: &RetryAction,
        settings: &Settings,
        quota: &mut Q,
        now: Option<u64>,
        word: u64,
    ) -> Result<Decision, StrategyError>
        ensures decides { IfOk result
            (λ d. Decides (limiters_by Q.Limiter.at Q.Limiter.after_acquire Q.Limiter.reply_to
            Q.Limiter.after_update)
            (Q.meaning quota.old) settings.now ctx.now verdict.now now word
            (permit_of Q.permit_bucket Q.permit_amount self.old.held) d
            (permit_of Q.permit_bucket Q.permit_amount self.new.held) (Q.meaning quota.new)) }
        ensures missing { (result ≡ Err StrategyError.MissingSetting)
            ↔ IsTrue (lacks_setting settings.now now (Q.meaning quota.old).has) }
        ensures kept { OnErr result (IsKept (Q.meaning quota.old) (Q.meaning quota.new)) }
        ensures slot { OnErr result (self.new ≡ self.old) }
    {
        let terms = standing_terms(settings, quota, now)?;
        let paced = find_limiter(alloc, settings, terms.retry, quota, now)?;
        let attempt = Attempt {
            retry: terms.retry,
            bucket: terms.bucket,
            paced,
            failed: ctx.is_failed(),
            number: ctx.attempt(),
            now,
            word,
        };
        Ok(self.decide(attempt, *verdict, quota))
    }

    // Tells the limiter, settles a success, and decides by the verdict.
    fn decide<Q: Quota<Permit = P>>(
        &mut self,
        attempt: Attempt,
        verdict: RetryAction,
        quota: &mut Q,
    ) -> Decision
        requires { (Q.meaning quota.old).has attempt.bucket ≡ true }
        ensures { Comes (limiters_by Q.Limiter.at Q.Limiter.after_acquire Q.Limiter.reply_to
            Q.Limiter.after_update) (Q.meaning quota.old)
            (decision (case_of attempt.retry attempt.bucket attempt.failed attempt.number verdict
            attempt.now attempt.word attempt.paced (Q.meaning quota.old))
            (permit_of Q.permit_bucket Q.permit_amount self.old.held))
            result (permit_of Q.permit_bucket Q.permit_amount self.new.held) (Q.meaning quota.new) }
    {
        tell_limiter(quota, attempt.paced, verdict);
        self.settle(quota, attempt.failed, attempt.bucket);
        self.decide_by_verdict(attempt, verdict, quota)
    }

    // Decides once a success is settled.
    fn decide_by_verdict<Q: Quota<Permit = P>>(
        &mut self,
        attempt: Attempt,
        verdict: RetryAction,
        quota: &mut Q,
    ) -> Decision
        requires { (Q.meaning quota.old).has attempt.bucket ≡ true }
        ensures { Comes (limiters_by Q.Limiter.at Q.Limiter.after_acquire Q.Limiter.reply_to
            Q.Limiter.after_update) (Q.meaning quota.old)
            (deciding (case_of attempt.retry attempt.bucket attempt.failed attempt.number verdict
            attempt.now attempt.word attempt.paced (Q.meaning quota.old)) verdict
            (permit_of Q.permit_bucket Q.permit_amount self.old.held))
            result (permit_of Q.permit_bucket Q.permit_amount self.new.held) (Q.meaning quota.new) }
    {
        match verdict {
            RetryAction::RetryIndicated { kind, retry_after } => {
                if attempt.number >= u64::from(attempt.retry.max_attempts) {
                    return refused(Reason::OutOfAttempts);
                }
                self.retry(attempt, kind, retry_after, quota)
            }
            RetryAction::NoActionIndicated | RetryAction::RetryForbidden => {
                refused(Reason::NotIndicated)
            }
        }
    }

    // Asks the limiter, and then the bucket.
    fn retry<Q: Quota<Permit = P>>(
        &mut self,
        attempt: Attempt,
        kind: ErrorKind,
        retry_after: Option<u64>,
        quota: &mut Q,
    ) -> Decision
        requires { (Q.meaning quota.old).has attempt.bucket ≡ true }
        ensures { Comes (limiters_by Q.Limiter.at Q.Limiter.after_acquire Q.Limiter.reply_to
            Q.Limiter.after_update) (Q.meaning quota.old)
            (retrying (case_of attempt.retry attempt.bucket attempt.failed attempt.number
            (RetryAction.RetryIndicated kind retry_after) attempt.now attempt.word attempt.paced
            (Q.meaning quota.old)) kind retry_after
            (permit_of Q.permit_bucket Q.permit_amount self.old.held))
            result (permit_of Q.permit_bucket Q.permit_amount self.new.held) (Q.meaning quota.new) }
    {
        let reason = reason_for(kind);
        let version = is_v2_1(attempt.retry.spec);
        let limited = ask_limiter(quota, version, attempt.paced, reason);
        let own = own_backoff(attempt.retry, kind, attempt.number, attempt.word);
        let wait = backoff(attempt.retry, limited, retry_after, own);
        self.pay(attempt, kind, wait, quota)
    }

    // Pays for the retry, which then waits so long.
    fn pay<Q: Quota<Permit = P>>(
        &mut self,
        attempt: Attempt,
        kind: ErrorKind,
        wait: u64,
        quota: &mut Q,
    ) -> Decision
        requires { (Q.meaning quota.old).has attempt.bucket ≡ true }
        ensures { (retry_after : Option ℕ) →
            Comes (limiters_by Q.Limiter.at Q.Limiter.after_acquire Q.Limiter.reply_to
            Q.Limiter.after_update) (Q.meaning quota.old)
            (λ _. paying (case_of attempt.retry attempt.bucket attempt.failed attempt.number
            (RetryAction.RetryIndicated kind retry_after) attempt.now attempt.word attempt.paced
            (Q.meaning quota.old)) kind wait
            (permit_of Q.permit_bucket Q.permit_amount self.old.held))
            result (permit_of Q.permit_bucket Q.permit_amount self.new.held) (Q.meaning quota.new) }
    {
        let cost = quota.cost(attempt.bucket, kind);
        match quota.acquire(attempt.bucket, kind, second_of(attempt.now)) {
            None => Decision {
                choice: Choice::No,
                reason: Reason::NoQuota { cost },
                long_poll: long_poll(attempt.retry, wait),
            },
            Some(permit) => {
                self.keep(quota, permit);
                Decision {
                    choice: Choice::Delay(wait),
                    reason: Reason::Granted { amount: cost },
                    long_poll: None,
                }
            }
        }
    }

    // Holds this permit in place of the former one, which is given up.
    fn keep<Q: Quota<Permit = P>>(&mut self, quota: &mut Q, permit: P)
        ensures held { permit_of Q.permit_bucket Q.permit_amount self.new.held ≡
            Some (record { bucket = Q.permit_bucket permit; amount = Q.permit_amount permit }) }
        ensures made { Chained (Calls
            (limiters_by Q.Limiter.at Q.Limiter.after_acquire Q.Limiter.reply_to
            Q.Limiter.after_update)) (Q.meaning quota.old)
            (forgetting (permit_of Q.permit_bucket Q.permit_amount self.old.held))
            (Q.meaning quota.new) }
    {
        if let Some(former) = self.held.take() {
            quota.forget(former);
        }
        self.held = Some(permit);
    }

    // What a success does; a failure does nothing.
    fn settle<Q: Quota<Permit = P>>(&mut self, quota: &mut Q, failed: bool, bucket: u32)
        requires { (Q.meaning quota.old).has bucket ≡ true }
        ensures held { permit_of Q.permit_bucket Q.permit_amount self.new.held ≡
            held_on failed (permit_of Q.permit_bucket Q.permit_amount self.old.held) }
        ensures made { Chained (Calls
            (limiters_by Q.Limiter.at Q.Limiter.after_acquire Q.Limiter.reply_to
            Q.Limiter.after_update)) (Q.meaning quota.old)
            (settled failed bucket ((Q.meaning quota.old).reward bucket)
            (permit_of Q.permit_bucket Q.permit_amount self.old.held)) (Q.meaning quota.new) }
    {
        if failed {
            return;
        }
        let held = self.held.take();
        if quota.success_reward(bucket) > 0 {
            quota.reward_success(bucket);
            if let Some(permit) = held {
                quota.forget(permit);
            }
        } else {
            match held {
                Some(permit) => quota.release(permit),
                None => quota.regenerate_a_token(bucket),
            }
        }
    }

    /// Gives the held permit back to its bucket.
    pub fn close<Q: Quota<Permit = P>>(self, quota: &mut Q)
        ensures { Chained (Calls (limiters_by Q.Limiter.at Q.Limiter.after_acquire
            Q.Limiter.reply_to Q.Limiter.after_update)) (Q.meaning quota.old)
            (releasing (permit_of Q.permit_bucket Q.permit_amount self.held))
            (Q.meaning quota.new) }
    {
        if let Some(permit) = self.held {
            quota.release(permit);
        }
    }
}

/// The same as `new`.
impl<P> Default for StandardRetryStrategy<P> {
    ghost use Rattle.std.specs.Prelude.{◌≡◌, None};

    ghost is_default = { λ strategy. strategy.held ≡ None };

    fn default() -> StandardRetryStrategy<P> {
        StandardRetryStrategy::new()
    }
}

/// No further attempt, for this reason.
fn refused(reason: Reason) -> Decision
    ensures choice { result.choice ≡ Choice.No }
    ensures reason { result.reason ≡ reason }
    ensures long_poll { result.long_poll ≡ None }
{
    Decision {
        choice: Choice::No,
        reason,
        long_poll: None,
    }
}

/// How long an operation that polls for long pauses.
fn long_poll(retry: RetryConfig, wait: u64) -> Option<u64>
    ensures { result ≡ (if polls_for_long retry.spec then Some wait else None) }
{
    if polls_for_long(retry.spec) {
        Some(wait)
    } else {
        None
    }
}

/// What a limiter is asked for, for a retry after an error of this kind.
fn reason_for(kind: ErrorKind) -> RequestReason
    ensures { result ≡ reason_for kind }
{
    if is_throttling(kind) {
        RequestReason::RetryTimeout
    } else {
        RequestReason::Retry
    }
}

/// The second of a moment, 0 without one.
fn second_of(now: Option<u64>) -> u64
    ensures { result ≡ second_of now }
{
    match now {
        Some(now) => now / SECOND,
        None => 0,
    }
}

/// Whether the verdict is a retry after throttling.
fn throttles(verdict: RetryAction) -> bool
    ensures { result ≡ verdict_throttles verdict }
{
    match verdict {
        RetryAction::RetryIndicated { kind, .. } => is_throttling(kind),
        RetryAction::NoActionIndicated | RetryAction::RetryForbidden => false,
    }
}

/// Tells the limiter of the response, where one is used.
fn tell_limiter<Q: Quota>(quota: &mut Q, paced: Option<Paced>, verdict: RetryAction)
    ensures { Chained (Calls (limiters_by Q.Limiter.at Q.Limiter.after_acquire Q.Limiter.reply_to
        Q.Limiter.after_update)) (Q.meaning quota.old) (telling paced verdict)
        (Q.meaning quota.new) }
{
    if let Some(paced) = paced {
        quota.limiter_update(paced.limiter, paced.now, throttles(verdict));
    }
}

/// The delay that the limiter asks for, where one is used and asked.
fn ask_limiter<Q: Quota>(
    quota: &mut Q,
    skipped: bool,
    paced: Option<Paced>,
    reason: RequestReason,
) -> Option<u64>
    ensures { Asks (limiters_by Q.Limiter.at Q.Limiter.after_acquire Q.Limiter.reply_to
        Q.Limiter.after_update) (Q.meaning quota.old) skipped paced reason result
        (Q.meaning quota.new) }
{
    if skipped {
        return None;
    }
    let Some(paced) = paced else {
        return None;
    };
    match quota.limiter_acquire(paced.limiter, paced.now, reason) {
        Ok(()) => None,
        Err(delay) => Some(delay),
    }
}

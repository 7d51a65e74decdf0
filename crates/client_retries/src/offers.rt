//! What a client offers to its interceptors before their chain runs.
ghost use Rattle.std.specs.Prelude.{◌≡◌, map};

use retry_policy::{ConnectionPoisoningInterceptor, TokenBucketProvider};
use smithy_base::{Intercept, Slot};
use smithy_types::RetryAction;

/// An interceptor that takes what a client offers. Interceptors see neither the quota nor the
/// classifiers, so one that needs their answers is offered them.
pub trait TakeOffer: Intercept {
    ghost use Rattle.std.specs.Prelude.{◌≡◌, ℕ};
    ghost use Rattle.smithy_types.specs.declared.notes.RetryAction.{RetryAction};

    /// The interceptor once it was offered a bucket's number.
    ghost with_bucket: { Self → ℕ → Self };

    /// The interceptor once it was offered a verdict.
    ghost with_verdict: { Self → RetryAction → Self };

    /// Takes the number of the standing partition's bucket, before the retry loop.
    fn offer_bucket(&mut self, bucket: u32)
        ensures { self.new ≡ with_bucket self.old bucket };

    /// Takes what the classifiers say of the attempt, once its response is read.
    fn offer_verdict(&mut self, verdict: RetryAction)
        ensures { self.new ≡ with_verdict self.old verdict };
}

impl TakeOffer for TokenBucketProvider {
    ghost use Rattle.std.specs.Prelude.{Some};

    ghost with_bucket = { λ old bucket. record old { offered = Some bucket } };

    ghost with_verdict = { λ old verdict. old };

    fn offer_bucket(&mut self, bucket: u32) {
        self.offer(bucket);
    }

    fn offer_verdict(&mut self, _verdict: RetryAction) {}
}

impl TakeOffer for ConnectionPoisoningInterceptor {
    ghost with_bucket = { λ old bucket. old };

    ghost with_verdict = { λ old verdict. record old { verdict = verdict } };

    fn offer_bucket(&mut self, _bucket: u32) {}

    fn offer_verdict(&mut self, verdict: RetryAction) {
        self.offer(verdict);
    }
}

impl<T: TakeOffer> TakeOffer for Slot<T> {
    ghost use Rattle.smithy_base.specs.declared.intercept.Slot.TheVariants.{Boxed, Own};

    ghost with_bucket = { λ old bucket. elim old [
      | Boxed b ↦ Boxed b
      | Own t ↦ Own (T.with_bucket t bucket)
    ] };

    ghost with_verdict = { λ old verdict. elim old [
      | Boxed b ↦ Boxed b
      | Own t ↦ Own (T.with_verdict t verdict)
    ] };

    fn offer_bucket(&mut self, bucket: u32) {
        match self {
            Slot::Boxed(_) => {}
            Slot::Own(own) => own.offer_bucket(bucket),
        }
    }

    fn offer_verdict(&mut self, verdict: RetryAction) {
        match self {
            Slot::Boxed(_) => {}
            Slot::Own(own) => own.offer_verdict(verdict),
        }
    }
}

/// Offers a bucket's number to each interceptor.
pub(crate) fn offer_bucket_to_all<I: TakeOffer>(chain: &mut [I], bucket: u32)
    ensures { chain.new ≡ map (λ i. I.with_bucket i bucket) chain.old }
{
    for one in chain.iter_mut() {
        one.offer_bucket(bucket);
    }
}

/// Offers a verdict to each interceptor.
pub(crate) fn offer_verdict_to_all<I: TakeOffer>(chain: &mut [I], verdict: RetryAction)
    ensures { chain.new ≡ map (λ i. I.with_verdict i verdict) chain.old }
{
    for one in chain.iter_mut() {
        one.offer_verdict(verdict);
    }
}

//! What a quota and an interceptor mean, each as one record. Every quota and every interceptor has
//! it, and brings nothing for it.

use crate::TakeOffer;
use retry_quota::Quota;

/// What a quota means.
pub trait QuotaMeaning: Quota {
    ghost use Rattle.client_retries.specs.Meanings.{QuotaMeans};

    /// Its books, its permits and its limiters.
    ghost means: { QuotaMeans Self Self.Permit Self.Limiter };
}

impl<Q: Quota> QuotaMeaning for Q {
    ghost use Rattle.retry_quota.specs.Calls.{limiters_by};

    ghost means = { record {
      meaning = Q.meaning;
      permit_bucket = Q.permit_bucket;
      permit_amount = Q.permit_amount;
      limiters = limiters_by Q.Limiter.at Q.Limiter.after_acquire Q.Limiter.reply_to
          Q.Limiter.after_update;
    } };
}

/// What an interceptor means.
pub trait InterceptorMeaning: TakeOffer {
    ghost use Rattle.client_retries.specs.Meanings.{InterceptorMeans};

    /// Its name, its hooks, what a run answers and what an offer makes of it.
    ghost means: { InterceptorMeans Self };
}

impl<I: TakeOffer> InterceptorMeaning for I {
    ghost means = { record {
      names = I.names;
      hooks = I.hooks;
      runs = I.runs;
      with_bucket = I.with_bucket;
      with_verdict = I.with_verdict;
    } };
}

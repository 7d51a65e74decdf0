//! What holds of every run of a limiter. The functions do nothing: their contracts are the laws.
ghost use Rattle.std.specs.Prelude.{◌≡◌, ◌≤◌, ℕ, max, true, List, Some};
ghost use Rattle.retry_quota.specs.declared.limiter.RequestReason.{RequestReason};
ghost use Rattle.rate_limit.specs.Builder.{built};
ghost use Rattle.rate_limit.specs.Pace.{Pace, IsSound, pace_from};
ghost use Rattle.rate_limit.specs.Steps.{Step, after_all, after_update, measure, refill};
ghost use Rattle.rate_limit.specs.declared.builder.ClientRateLimiterBuilder.{ClientRateLimiterBuilder};

/// The capacity never passes its limit, and once requests are limited the rate never falls below
/// half a token per second: in every limiter that is made, and after any calls.
pub fn capacity_and_fill_stay_in_bounds()
    ensures begun { (now : ℕ) → IsSound (pace_from now) }
    ensures built { (builder : ClientRateLimiterBuilder) → IsSound (built builder) }
    ensures kept { (p : Pace) (steps : List Step) → IsSound p → IsSound (after_all steps p) }
{}

/// A refill at a moment that isn't behind the last one leaves the capacity as it was.
pub fn a_clock_that_goes_back_refills_nothing()
    ensures { (p : Pace) (before now : ℕ) → IsSound p → p.refilled_at ≡ Some before → now ≤ before →
        (refill now p).capacity ≡ p.capacity }
{}

/// A throttle never raises the rate that is in force. The first one, before which none was, sets at
/// most the measured rate, and half a token per second at least.
pub fn a_throttle_raises_no_rate()
    ensures in_force { (p : Pace) (now : ℕ) → IsSound p → p.enabled ≡ true →
        (after_update p now true).fill ≤ p.fill }
    ensures first { (p : Pace) (now : ℕ) →
        (after_update p now true).fill ≤ max (measure now p).measured 500000 }
{}

//! A limiter that refuses nothing, for programs and tests that ask a quota without one of its own.

ghost use Rattle.std.specs.Prelude.{Ok};

use crate::{Limiter, RequestReason};

/// A limiter that refuses nothing.
#[derive(Debug, Drop)]
pub struct FreeLimiter;

impl Limiter for FreeLimiter {
    ghost at = { λ _. record {} };

    ghost zero = { record {} };

    ghost after_acquire = { λ limiter _ _. limiter };

    ghost reply_to = { λ _ _ _. Ok tt };

    ghost after_update = { λ limiter _ _. limiter };

    fn at(_now: u64) -> FreeLimiter {
        FreeLimiter
    }

    fn zero() -> FreeLimiter {
        FreeLimiter
    }

    fn acquire(&mut self, _now: u64, _reason: RequestReason) -> Result<(), u64> {
        Ok(())
    }

    fn update(&mut self, _now: u64, _throttled: bool) {}
}

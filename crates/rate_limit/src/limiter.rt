//! The limiter and its two steps.
ghost use Rattle.std.specs.Prelude.{◌≡◌, ◌*◌, ◌+◌, ◌-◌, ◌/◌, ◌^◌, ◌<◌, ◌≤◌, ◌↔◌, min, max, true};
ghost use Rattle.std.specs.Prelude.{IsErr, OnErr, IsTrue};
ghost use Rattle.rate_limit.specs.Builder.{unset};
ghost use Rattle.rate_limit.specs.Curve.{capped};
ghost use Rattle.rate_limit.specs.Pace.{IsSound, amount_of, pace_from, zero_pace};
ghost use Rattle.rate_limit.specs.Steps.{
  after_acquire,
  after_update,
  calculated,
  current_rate,
  measure,
  note,
  refill,
  refilled,
  reply_to,
  settle,
  throttled_rate,
  wait_for,
};

use crate::curve::{grown_rate, seven_tenths};
use crate::{ClientRateLimiterBuilder, RequestReason};
use retry_quota::Limiter;
use std::marker::Model;

/// A second, in nanoseconds.
const SECOND: u64 = 1_000_000_000;

/// Half a second, in nanoseconds.
const HALF_SECOND: u64 = 500_000_000;

/// One token in each half second, as a rate.
const TOKEN_PER_HALF_SECOND: u128 = 2_000_000;

/// The least rate at which a limiter fills.
const MIN_FILL_RATE: u64 = 500_000;

/// The least that the limit of the capacity is, once a response was seen.
const MIN_CAPACITY: u64 = 1_000_000;

/// The most that a number may be.
const MOST: u128 = u64::MAX as u128;

/// Limits a client's requests to a rate. Until a response was throttled it refuses nothing. Amounts
/// are in millionths of a token, rates in millionths of a token per second, and moments in
/// nanoseconds. No call takes memory. An `acquire` takes a fixed number of steps at most, and an
/// `update` as well, with the 43 rounds of a cube root among them.
#[derive(Debug, Drop)]
pub struct ClientRateLimiter {
    fill_rate: u64,
    max_capacity: u64,
    current_capacity: u64,
    last_refill: Option<u64>,
    is_enabled: bool,
    measured_rate: u64,
    last_half_second: u64,
    request_count: u64,
    last_max_rate: u64,
    last_throttle: u64,
}

impl Model for ClientRateLimiter {
    ghost use Rattle.rate_limit.specs.Pace.{Pace, IsSound};

    ghost Value = { Pace };

    ghost view = { λ l. record {
      fill = l.fill_rate;
      capacity = l.current_capacity;
      limit = l.max_capacity;
      refilled_at = l.last_refill;
      enabled = l.is_enabled;
      measured = l.measured_rate;
      half_second = l.last_half_second;
      count = l.request_count;
      last_max = l.last_max_rate;
      throttled_at = l.last_throttle;
    } };

    ghost invariant = { λ l. IsSound (record {
      fill = l.fill_rate;
      capacity = l.current_capacity;
      limit = l.max_capacity;
      refilled_at = l.last_refill;
      enabled = l.is_enabled;
      measured = l.measured_rate;
      half_second = l.last_half_second;
      count = l.request_count;
      last_max = l.last_max_rate;
      throttled_at = l.last_throttle;
    }) };
}

impl ClientRateLimiter {
    /// A limiter that begins at this moment, with a measured rate of half a token per second.
    pub fn new(now: u64) -> ClientRateLimiter
        ensures { result ≡ pace_from now }
    {
        let mut limiter = ClientRateLimiter::with_numbers(0, u64::MAX, 0, MIN_FILL_RATE);
        limiter.last_throttle = now;
        limiter.last_half_second = 2 * (now / SECOND);
        limiter
    }

    /// A builder with nothing set.
    pub fn builder() -> ClientRateLimiterBuilder
        ensures { result ≡ unset }
    {
        ClientRateLimiterBuilder::new()
    }

    // A limiter that refuses nothing yet, with these numbers; all others are zero.
    pub(crate) fn with_numbers(
        fill_rate: u64,
        max_capacity: u64,
        capacity: u64,
        measured_rate: u64,
    ) -> ClientRateLimiter
        ensures { result ≡ record zero_pace {
          fill = fill_rate;
          limit = max_capacity;
          capacity = min capacity max_capacity;
          measured = measured_rate;
        } }
    {
        ClientRateLimiter {
            fill_rate,
            max_capacity,
            current_capacity: capacity.min(max_capacity),
            last_refill: None,
            is_enabled: false,
            measured_rate,
            last_half_second: 0,
            request_count: 0,
            last_max_rate: 0,
            last_throttle: 0,
        }
    }

    /// Asks for a request at this moment. A refusal says in how many nanoseconds to ask again; what
    /// time has refilled until now stays.
    pub fn acquire(&mut self, now: u64, reason: RequestReason) -> Result<(), u64>
        ensures limiter { self.new ≡ after_acquire self.old now reason }
        ensures reply { result ≡ reply_to self.old now reason }
        ensures refused { IsErr result
            ↔ (IsTrue self.old.enabled × ((refill now self.old).capacity < amount_of reason)
            × (0 < wait_for (amount_of reason) (refill now self.old))) }
        ensures kept { OnErr result (self.new ≡ refill now self.old) }
    {
        if !self.is_enabled {
            return Ok(());
        }
        self.refill(now);
        let amount = amount_of(reason);
        let delay = self.delay(amount);
        if delay > 0 {
            return Err(delay);
        }
        self.current_capacity = self.current_capacity.saturating_sub(amount);
        Ok(())
    }

    /// Counts a response at this moment, and sets the rate by whether it was throttled.
    pub fn update(&mut self, now: u64, throttled: bool)
        ensures { self.new ≡ after_update self.old now throttled }
    {
        self.measure(now);
        let throttled_rate = self.throttled_rate();
        let calculated = self.calculated(now, throttled);
        let rate = calculated.min(self.measured_rate.saturating_mul(2));
        self.settle(now, rate);
        if throttled {
            self.note_throttle(now, throttled_rate);
        }
    }

    // Counts a request, and measures the rate where a half second has ended.
    fn measure(&mut self, now: u64)
        ensures { self.new ≡ measure now self.old }
    {
        let count = self.request_count.saturating_add(1);
        let half_second = now / HALF_SECOND;
        if half_second <= self.last_half_second {
            self.request_count = count;
            return;
        }
        let current = current_rate(count, half_second - self.last_half_second);
        self.measured_rate = smoothed(current, self.measured_rate);
        self.request_count = 0;
        self.last_half_second = half_second;
    }

    // The rate at which requests come that are throttled now.
    fn throttled_rate(&self) -> u64
        ensures { result ≡ throttled_rate self.now }
    {
        if self.is_enabled {
            self.measured_rate.min(self.fill_rate)
        } else {
            self.measured_rate
        }
    }

    // The rate that is wanted from now on.
    fn calculated(&self, now: u64, throttled: bool) -> u64
        ensures { result ≡ calculated now throttled self.now }
    {
        if throttled {
            seven_tenths(self.throttled_rate())
        } else {
            grown_rate(self.last_max_rate, self.last_throttle, now)
        }
    }

    // Refills at the former rate, and then fills at this one.
    fn settle(&mut self, now: u64, rate: u64)
        ensures { self.new ≡ settle now rate self.old }
    {
        self.refill(now);
        self.fill_rate = rate.max(MIN_FILL_RATE);
        self.max_capacity = rate.max(MIN_CAPACITY);
        self.current_capacity = self.current_capacity.min(self.max_capacity);
    }

    // Notes a throttle at this moment and rate. Requests are limited from then on.
    fn note_throttle(&mut self, now: u64, rate: u64)
        requires { 500000 ≤ self.old.fill }
        ensures { self.new ≡ record self.old
            { last_max = rate; throttled_at = now; enabled = true } }
    {
        self.last_max_rate = rate;
        self.last_throttle = now;
        self.is_enabled = true;
    }

    // Adds what the time since the last refill brings.
    fn refill(&mut self, now: u64)
        ensures { self.new ≡ refill now self.old }
    {
        self.current_capacity = self.refilled(now);
        self.last_refill = Some(now);
    }

    // The capacity with what the time since the last refill brings.
    fn refilled(&self, now: u64) -> u64
        ensures value { result ≡ refilled now self.now.refilled_at self.now }
        ensures within { result ≤ self.now.limit }
    {
        match self.last_refill {
            Some(before) => {
                let gained = gained(now.saturating_sub(before), self.fill_rate);
                sum_within(self.current_capacity, gained, self.max_capacity)
            }
            None => self.current_capacity,
        }
    }

    // In how many nanoseconds this amount will be there.
    fn delay(&self, amount: u64) -> u64
        requires enabled { IsTrue self.now.enabled }
        requires small { amount ≤ 10000000 }
        ensures { result ≡ wait_for amount self.now }
    {
        amount.saturating_sub(self.current_capacity) * SECOND / self.fill_rate
    }
}

/// What a request takes.
fn amount_of(reason: RequestReason) -> u64
    ensures { result ≡ amount_of reason }
{
    match reason {
        RequestReason::Retry => 5_000_000,
        RequestReason::RetryTimeout => 10_000_000,
        RequestReason::InitialRequest => 1_000_000,
    }
}

/// So many requests in so many half seconds, as a rate.
fn current_rate(count: u64, half_seconds: u64) -> u64
    requires { 0 < half_seconds }
    ensures { result ≡ current_rate count half_seconds }
{
    let rate = u128::from(count) * TOKEN_PER_HALF_SECOND / u128::from(half_seconds);
    rate.min(MOST) as u64
}

/// A measured rate with the current one, which counts for four fifths.
fn smoothed(current: u64, measured: u64) -> u64
    ensures { result ≡ (current * 8 + measured * 2) / 10 }
{
    ((u128::from(current) * 8 + u128::from(measured) * 2) / 10) as u64
}

/// What so many nanoseconds fill at this rate.
fn gained(elapsed: u64, rate: u64) -> u128
    ensures value { result ≡ elapsed * rate / 1000000000 }
    ensures fits { result < 2 ^ 100 }
{
    u128::from(elapsed) * u128::from(rate) / u128::from(SECOND)
}

/// The capacity with what was gained, up to the limit.
fn sum_within(capacity: u64, gained: u128, limit: u64) -> u64
    requires { gained < 2 ^ 100 }
    ensures { result ≡ min limit (capacity + gained) }
{
    u128::from(limit).min(u128::from(capacity) + gained) as u64
}

/// All numbers are zero, and the capacity is unbounded. It refuses nothing yet.
impl Default for ClientRateLimiter {
    ghost is_default = { λ limiter. limiter ≡ zero_pace };

    fn default() -> ClientRateLimiter {
        ClientRateLimiter::with_numbers(0, u64::MAX, 0, 0)
    }
}

impl Limiter for ClientRateLimiter {
    ghost use Rattle.rate_limit.specs.Pace.{pace_from, zero_pace};
    ghost use Rattle.rate_limit.specs.Steps.{after_acquire, after_update, reply_to};

    ghost at = { pace_from };

    ghost zero = { zero_pace };

    ghost after_acquire = { after_acquire };

    ghost reply_to = { reply_to };

    ghost after_update = { after_update };

    fn at(now: u64) -> ClientRateLimiter {
        ClientRateLimiter::new(now)
    }

    fn zero() -> ClientRateLimiter {
        ClientRateLimiter::default()
    }

    fn acquire(&mut self, now: u64, reason: RequestReason) -> Result<(), u64> {
        ClientRateLimiter::acquire(self, now, reason)
    }

    fn update(&mut self, now: u64, throttled: bool) {
        ClientRateLimiter::update(self, now, throttled);
    }
}

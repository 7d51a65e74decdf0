//! How a rate falls with a throttle and grows after it.
ghost use Rattle.std.specs.Prelude.{◌≡◌, ◌*◌, ◌+◌, ◌-◌, ◌/◌, ◌≤◌, ◌<◌, min, pos, neg_ℤ};
ghost use Rattle.rate_limit.specs.Curve.{capped, lateness, rate_at, window_of};

use crate::cube_root;

/// How many nanoseconds a microsecond has.
const MICROSECOND: u64 = 1000;

/// A rate's window is the cube root of so many times the rate.
const WINDOW_SCALE: u128 = 750_000_000_000;

/// The curve goes no further than so many microseconds from its middle.
const LONGEST: u128 = 1_000_000_000_000;

/// A cube of microseconds, divided by this, counts four times in millionths of a token per second.
const CURVE_SCALE: u128 = 10_000_000_000_000;

/// The most that a rate may be.
const MOST: u128 = u64::MAX as u128;

/// The rate at this moment, where it was throttled last at this rate and moment. Rates are in
/// millionths of a token per second, and moments in nanoseconds.
pub(crate) fn grown_rate(last_max: u64, throttled_at: u64, now: u64) -> u64
    ensures { result ≡ rate_at last_max (lateness last_max throttled_at now) }
{
    let here = u128::from(now / MICROSECOND);
    let middle = u128::from(throttled_at / MICROSECOND) + u128::from(window(last_max));
    if here < middle {
        fallen_rate(last_max, (middle - here).min(LONGEST))
    } else {
        risen_rate(last_max, (here - middle).min(LONGEST))
    }
}

/// What is left of a rate that was throttled: seven tenths.
pub(crate) fn seven_tenths(rate: u64) -> u64
    ensures { result ≡ rate * 7 / 10 }
{
    (u128::from(rate) * 7 / 10) as u64
}

/// How many microseconds after a throttle at this rate the rate is reached again.
fn window(last_max: u64) -> u64
    ensures { result ≡ window_of last_max }
{
    cube_root(u128::from(last_max) * WINDOW_SCALE)
}

/// Four times the cube of at most 10^12.
fn four_cubes(micros: u128) -> u128
    requires { micros ≤ LONGEST }
    ensures value { result ≡ micros * micros * micros * 4 }
{
    micros * micros * micros * 4
}

/// The rate so many microseconds before the middle of the curve.
fn fallen_rate(last_max: u64, early: u128) -> u64
    requires before { 0 < early }
    requires near { early ≤ LONGEST }
    ensures { result ≡ rate_at last_max (neg_ℤ (pos early)) }
{
    let fall = four_cubes(early).div_ceil(CURVE_SCALE);
    u128::from(last_max).saturating_sub(fall) as u64
}

/// The rate so many microseconds behind the middle of the curve.
fn risen_rate(last_max: u64, late: u128) -> u64
    requires { late ≤ LONGEST }
    ensures { result ≡ rate_at last_max (pos late) }
{
    let rise = four_cubes(late) / CURVE_SCALE;
    (rise + u128::from(last_max)).min(MOST) as u64
}

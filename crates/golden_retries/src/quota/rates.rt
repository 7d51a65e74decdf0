//! Prints the rates that a limiter takes from responses, and what it answers to requests. All its
//! numbers are shown, amounts in millionths of a token, and moments in nanoseconds.
use anyhow::Result;
use rate_limit::ClientRateLimiter;
use retry_quota::{Limiter, RequestReason};
use std::fmt::Debug;

/// A millisecond, in nanoseconds.
const MILLISECOND: u64 = 1_000_000;

/// Responses at one moment, in milliseconds: whether they were throttled, and how many there are.
type Responses = (u64, bool, u32);

/// So many responses in half a second that the measured rate bounds none of the rates below.
const MANY: u32 = 41;

/// A response in each fifth of a second, two of which are throttled.
const FOLLOWED: &[Responses] = &[
    (200, false, 1),
    (400, false, 1),
    (600, false, 1),
    (800, false, 1),
    (1000, false, 1),
    (1200, false, 1),
    (1400, false, 1),
    (1600, false, 1),
    (1800, false, 1),
    (2000, true, 1),
    (2200, false, 1),
    (2400, false, 1),
    (2600, false, 1),
    (2800, false, 1),
    (3000, false, 1),
    (3200, true, 1),
    (3400, false, 1),
];

/// A throttle at ten requests a second, and three that follow on one another.
const THROTTLED: &[Responses] = &[
    (5000, true, 1),
    (5000, false, MANY),
    (6000, false, MANY),
    (7000, true, 1),
    (8000, true, 1),
    (8000, true, 1),
    (8000, false, MANY),
    (9000, false, MANY),
    (10_000, false, MANY),
    (11_000, false, MANY),
    (12_000, false, MANY),
];

/// A throttle at ten requests a second, and nothing of the kind behind it.
const GROWN: &[Responses] = &[
    (5000, true, 1),
    (5000, false, MANY),
    (6000, false, MANY),
    (7000, false, MANY),
    (8000, false, MANY),
    (9000, false, MANY),
    (10_000, false, MANY),
    (11_000, false, MANY),
];

/// A request, by its moment in milliseconds.
type Request = (u64, RequestReason);

const AT_ONCE: &[Request] = &[(5, RequestReason::RetryTimeout)];

const LATER: &[Request] = &[
    (100, RequestReason::InitialRequest),
    (100, RequestReason::InitialRequest),
    (2100, RequestReason::InitialRequest),
    (2100, RequestReason::Retry),
    (2100, RequestReason::RetryTimeout),
];

const ONE: &[Request] = &[(0, RequestReason::InitialRequest)];

/// How many callers share a limiter.
const CALLERS: u64 = 50;

/// How often they all ask.
const ROUNDS: u32 = 200;

/// Prints what responses make of limiters, and what one that was throttled answers.
pub fn print(rt: HostRuntime) -> Result<()> {
    println!(rt; "rates follow the responses")?;
    print_responses(rt, measuring(0), FOLLOWED)?;
    println!(rt; "a rate falls with each throttle, and grows with the cube of time")?;
    print_responses(rt, measuring(49_200_000), THROTTLED)?;
    println!(rt; "a rate grows with the cube of time where nothing is throttled")?;
    print_responses(rt, measuring(49_200_000), GROWN)?;
    println!(rt; "a limiter refuses nothing before a throttle")?;
    print_requests(rt, measuring(0), AT_ONCE)?;
    println!(rt; "a throttled one grants once it is filled, and its refusals take nothing")?;
    print_requests(rt, throttled(ClientRateLimiter::new(0)), LATER)?;
    println!(rt; "what is missing for less than a nanosecond is granted")?;
    print_requests(rt, throttled(nearly_full()), ONE)?;
    println!(rt; "requests go on behind a throttle, each where it may")?;
    print_going_on(rt, throttled(ClientRateLimiter::new(0)))?;
    println!(rt; "fifty callers recover behind fifty throttles")?;
    print_recovery(rt, ClientRateLimiter::new(0))
}

// A limiter that measured this rate.
fn measuring(rate: u64) -> ClientRateLimiter {
    ClientRateLimiter::builder()
        .tokens_retrieved_per_second(rate)
        .build()
}

// A limiter that lacks a millionth of a token. Once it is throttled it fills by more than a thousand
// tokens a second.
fn nearly_full() -> ClientRateLimiter {
    ClientRateLimiter::builder()
        .current_bucket_capacity(999_999)
        .tokens_retrieved_per_second(10_000_000_000)
        .build()
}

fn throttled<L: Limiter>(mut limiter: L) -> L {
    limiter.update(0, true);
    limiter
}

fn print_responses<L: Limiter + Debug>(
    rt: HostRuntime,
    mut limiter: L,
    rows: &[Responses],
) -> Result<()> {
    for (millis, throttled, count) in rows {
        tell(&mut limiter, *millis, *throttled, *count);
        println!(rt; "  {millis} ms, throttled {throttled}, {count} times: {limiter:?}")?;
    }
    Ok(())
}

fn tell<L: Limiter>(limiter: &mut L, millis: u64, throttled: bool, count: u32) {
    let now = millis.saturating_mul(MILLISECOND);
    for _ in 0..count {
        limiter.update(now, throttled);
    }
}

fn print_requests<L: Limiter + Debug>(
    rt: HostRuntime,
    mut limiter: L,
    requests: &[Request],
) -> Result<()> {
    for (millis, reason) in requests {
        let answer = limiter.acquire(millis.saturating_mul(MILLISECOND), *reason);
        println!(rt; "  {millis} ms, {reason:?}: {answer:?}, {limiter:?}")?;
    }
    Ok(())
}

// A hundred requests, the next 370 ms behind the one before, each with a success at once.
fn print_going_on<L: Limiter + Debug>(rt: HostRuntime, mut limiter: L) -> Result<()> {
    let mut now: u64 = 0;
    for _ in 0..100 {
        now = sent_at(&mut limiter, now.saturating_add(370 * MILLISECOND));
        tell_at(&mut limiter, now, false);
    }
    println!(rt; "  100 requests in {now} ns: {limiter:?}")?;
    Ok(())
}

// When a request is sent that is asked for at this moment.
fn sent_at<L: Limiter>(limiter: &mut L, now: u64) -> u64 {
    match limiter.acquire(now, RequestReason::InitialRequest) {
        Ok(()) => now,
        Err(delay) => now.saturating_add(delay),
    }
}

fn tell_at<L: Limiter>(limiter: &mut L, now: u64, throttled: bool) {
    limiter.update(now, throttled);
}

// All callers are throttled, a millisecond apart. Then each asks in every round, and each that was
// granted a request succeeds. A round begins a tenth of a second behind the one before.
fn print_recovery<L: Limiter + Debug>(rt: HostRuntime, mut limiter: L) -> Result<()> {
    let mut now = answered(&mut limiter, 0, CALLERS, true);
    let mut total: u64 = 0;
    for _ in 0..ROUNDS {
        now = now.saturating_add(100 * MILLISECOND);
        let granted = granted_at(&mut limiter, now);
        now = answered(&mut limiter, now, granted, false);
        total = total.saturating_add(granted);
    }
    println!(rt; "  {total} requests in {ROUNDS} rounds: {limiter:?}")?;
    Ok(())
}

// So many responses, a millisecond apart, and the moment of the last.
fn answered<L: Limiter>(limiter: &mut L, mut now: u64, count: u64, throttled: bool) -> u64 {
    for _ in 0..count {
        now = now.saturating_add(MILLISECOND);
        tell_at(limiter, now, throttled);
    }
    now
}

// How many callers are granted a request. They ask a tenth of a millisecond apart.
fn granted_at<L: Limiter>(limiter: &mut L, now: u64) -> u64 {
    let mut granted: u64 = 0;
    for caller in 0..CALLERS {
        if is_granted(limiter, now.saturating_add(caller.saturating_mul(100_000))) {
            granted = granted.saturating_add(1);
        }
    }
    granted
}

fn is_granted<L: Limiter>(limiter: &mut L, now: u64) -> bool {
    limiter.acquire(now, RequestReason::InitialRequest).is_ok()
}

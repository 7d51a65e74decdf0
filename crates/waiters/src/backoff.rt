//! The delay between two polls.
ghost use Rattle.std.specs.Prelude.{◌≡◌, ℕ, ◌+◌, ◌-◌, ◌*◌, ◌/◌, ◌^◌, ◌≤◌, ◌<◌};
ghost use Rattle.waiters.specs.Delay.{IsCeiling, IsDelay, drawn_delay, most_seconds, second};

/// The nanoseconds of a second.
pub const SECOND: u64 = 1_000_000_000;

/// How long to wait before the next poll, in nanoseconds, by the Smithy specification's jittered
/// backoff.
///
/// `min`, `max` and `max_wait` are what the waiter was built with, and `elapsed` the time since
/// its start, all in nanoseconds. `attempt` counts the polls from 1 on. The word has 64 random
/// bits, which draw one of the whole seconds from `min` on. Their greatest is `min` doubled with
/// each attempt, and `max` from the attempt on at which that would pass it.
///
/// Where at most `min` would be left behind that delay, it is all the time that is left: 0 where
/// none is, and maybe more than `max`.
pub fn delay(min: u64, max: u64, max_wait: u64, attempt: u32, elapsed: u64, word: u64) -> u64
    requires a_second { SECOND ≤ min }
    requires in_order { min ≤ max }
    requires counted { 1 ≤ attempt }
    ensures value { IsDelay min max max_wait attempt elapsed word result }
    ensures within { result ≤ max_wait - elapsed }
{
    let drawn = draw(min, most(min, max, attempt), word);
    let left = max_wait.saturating_sub(elapsed);
    if left.saturating_sub(drawn) <= min {
        left
    } else {
        drawn
    }
}

/// The delays that a waiter was built with, in nanoseconds.
#[derive(Clone, Copy)]
pub struct Backoff {
    /// At least a second.
    pub min_delay: u64,
    /// At least the least delay.
    pub max_delay: u64,
    /// How long the waiter waits in all.
    pub max_wait: u64,
    ghost a_second: { second ≤ min_delay },
    ghost in_order: { min_delay ≤ max_delay },
}

impl Backoff {
    /// How long to wait before the poll after this attempt.
    pub fn delay(&self, attempt: u32, elapsed: u64, word: u64) -> u64
        requires { 1 ≤ attempt }
        ensures value { IsDelay self.now.min_delay self.now.max_delay self.now.max_wait attempt
            elapsed word result }
        ensures within { result ≤ self.now.max_wait - elapsed }
    {
        delay(
            self.min_delay,
            self.max_delay,
            self.max_wait,
            attempt,
            elapsed,
            word,
        )
    }
}

/// The last attempt before which doubling stays within `max`.
fn ceiling(min: u64, max: u64) -> u32
    requires a_second { SECOND ≤ min }
    requires in_order { min ≤ max }
    ensures value { IsCeiling min max result }
    ensures bound { result ≤ 64 }
{
    (max / min).ilog2() + 1
}

/// The most whole seconds that may be drawn at this attempt.
fn most(min: u64, max: u64, attempt: u32) -> u64
    requires a_second { SECOND ≤ min }
    requires in_order { min ≤ max }
    requires counted { 1 ≤ attempt }
    ensures value { (c : ℕ) × IsCeiling min max c × (result ≡ most_seconds min max c attempt) }
    ensures least { min / SECOND ≤ result }
    ensures greatest { result ≤ max / SECOND }
{
    if attempt > ceiling(min, max) {
        max / SECOND
    } else {
        (min / SECOND) * 2u64.pow(attempt - 1)
    }
}

/// The delay that the word draws, from the least whole seconds to the most.
fn draw(min: u64, most: u64, word: u64) -> u64
    requires least { min / SECOND ≤ most }
    requires greatest { most * SECOND < 2 ^ 64 }
    ensures { result ≡ drawn_delay min most word }
{
    let least = min / SECOND;
    let choices = u128::from(most - least) + 1;
    let further = (u128::from(word) * choices) >> 64;
    (least + further as u64) * SECOND
}

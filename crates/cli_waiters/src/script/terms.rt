//! What a script says of waiters that one bucket pays for.

use crate::fleet::ScriptedWaiter;
use retry_quota::BucketTerms;
use smithy_types::List;

/// Waiters over a scripted outside. Times are in nanoseconds.
#[derive(Drop)]
pub struct WaitersScript {
    /// The bucket that pays for their polls.
    pub bucket: BucketTerms,
    /// The moment at which the clock stands first.
    pub start: u64,
    /// How many polls and asks of a sleep they may make.
    pub fuel: u64,
    /// The words that they draw.
    pub words: List<u64>,
    /// The waiters, at least one. Each has at least one poll.
    pub waiters: List<ScriptedWaiter>,
}

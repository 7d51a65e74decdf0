//! The five sums of a token bucket.

/// What a token bucket counts, all in whole tokens. What is available, held and forgotten is
/// together the capacity and what was granted.
#[derive(Clone, Copy, Debug, PartialEq, Eq)]
pub struct Sums {
    /// How many tokens the bucket opened with, and above which it isn't refilled.
    pub capacity: u64,
    /// How many were added since.
    pub granted: u64,
    /// How many can be acquired now.
    pub available: u64,
    /// How many are acquired and neither released nor forgotten.
    pub held: u64,
    /// How many were acquired and never come back.
    pub forgotten: u64,
}

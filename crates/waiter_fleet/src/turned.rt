//! What a turn came to.

/// What a turn of a waiter came to.
#[derive(Clone, Copy, Drop)]
pub(crate) enum Turned {
    /// The waiter sleeps until this moment, in nanoseconds.
    Sleeps(u64),
    /// It ended.
    Ended,
    /// The fuel was spent before its turn was over.
    Spent,
}

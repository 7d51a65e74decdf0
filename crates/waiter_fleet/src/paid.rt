//! What paying for a poll came to.

/// What paying for a poll came to.
#[derive(Clone, Copy, Drop)]
pub(crate) enum Paid {
    /// The waiter may be polled.
    Charged,
    /// The bucket refused it, and the waiter ended.
    Refused,
    /// The fuel was spent before.
    Spent,
}

//! What a poll was found to mean.

use crate::event::FleetEnd;

/// What a poll of a waiter was found to mean.
#[derive(Clone, Copy, Drop)]
pub(crate) struct Found {
    /// What the clock answered after it, in nanoseconds.
    pub moment: u64,
    /// How long after the fleet's start that is, in nanoseconds.
    pub elapsed: u64,
    /// What the waiter ends with, if it does.
    pub end: Option<FleetEnd>,
}

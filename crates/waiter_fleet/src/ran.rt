//! What the turns of a fleet came to.

use crate::log::Log;
use crate::seat::Seat;

/// What the turns of a fleet came to.
#[derive(Drop)]
pub(crate) struct Ran {
    /// When it began, in nanoseconds.
    pub start: u64,
    /// The seat of each waiter.
    pub seats: Vec<Seat>,
    /// What happened, the first event first.
    pub log: Log,
}

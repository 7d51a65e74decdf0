//! What a log has to say.
use crate::Throughput;

/// What a log has to say of the last ten bins.
#[derive(Clone, Copy, Debug, PartialEq)]
pub enum ThroughputReport {
    /// There is too little to judge by.
    Incomplete,
    /// For half of the window or more the stream wasn't polled.
    NoPolling,
    /// For half of the window or more the stream was polled and had nothing.
    Pending,
    /// Bytes were transferred, at this rate.
    Transferred(Throughput),
    /// The stream has ended.
    Complete,
}

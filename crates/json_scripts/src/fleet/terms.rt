//! What a script says of callers that share one token bucket. Times are in nanoseconds.

use crate::client::{ClientObject, InvocationRecord};
use retry_quota::BucketTerms;
use smithy_types::List;

/// A caller: a client of its own, and what is invoked through it.
#[derive(Debug, Drop)]
pub struct CallerRecord {
    /// The client.
    pub client: ClientObject,
    /// What is invoked, in order. The client of each is 0.
    pub invocations: List<InvocationRecord>,
}

/// Callers, each over an outside of its own, and the bucket that they share.
#[derive(Debug, Drop)]
pub struct FleetScript {
    /// The token bucket that every client uses.
    pub bucket: BucketTerms,
    /// The first moment of each outside, in nanoseconds.
    pub start: u64,
    /// The words that each outside draws.
    pub words: List<u64>,
    /// The callers, at least one.
    pub callers: List<CallerRecord>,
}

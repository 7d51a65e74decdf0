//! What a run is begun with.

use smithy_types::{Payload, StopPoint};

/// What a run is begun with.
#[derive(Drop)]
pub struct RunHead {
    /// The operation's input.
    pub input: Payload,
    /// The most questions that are asked.
    pub fuel: u64,
    /// Where the run stops early.
    pub stop: StopPoint,
    /// The kind of payload that is an output.
    pub output_kind: u64,
    /// The kind of payload that is an error of the operation.
    pub error_kind: u64,
}

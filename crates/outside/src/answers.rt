//! What is asked again until it has an answer.

use smithy_types::{ConnectorKind, HttpResponse, Identity, Text};

/// What became of a request that was begun.
#[derive(Debug, Drop)]
pub enum Sent {
    /// No response yet.
    Pending,
    /// The response's head. Its body comes by frames.
    Response(HttpResponse),
    /// The request was not sent, or no response came.
    Failed(ConnectorKind, Text),
}

/// What became of the load of an identity.
#[derive(Debug, Drop)]
pub enum IdentityPoll {
    /// It isn't loaded yet.
    Pending,
    /// The identity.
    Ready(Identity),
    /// There is none, and why.
    Failed(Text),
}

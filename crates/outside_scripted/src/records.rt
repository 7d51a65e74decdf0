//! What a script says of responses and identities. Delays are in nanoseconds.

use smithy_types::{Blob, ConnectorKind, Headers, Identity, List, Text};

/// A piece of a body.
#[derive(Debug, Drop)]
pub struct Frame {
    /// How long it takes, from when the frame before it was taken, or the response's head.
    pub delay: u64,
    /// The piece.
    pub bytes: Blob,
}

/// A response.
#[derive(Debug, Drop)]
pub struct ScriptedResponse {
    /// The status, such as 200.
    pub status: u16,
    /// Its headers.
    pub headers: Headers,
    /// Its body, in the order in which the frames come.
    pub frames: List<Frame>,
    /// Whether the frames begin again at their end.
    pub repeat: bool,
    /// The moment that the clock is set to when the response is handed out, if it is set.
    pub clock: Option<u64>,
}

/// What comes of a request.
#[derive(Debug, Drop)]
pub enum RecordAnswer {
    /// No response comes.
    Failed(ConnectorKind, Text),
    /// This response comes.
    Response(ScriptedResponse),
}

/// What comes of a request, and when.
#[derive(Debug, Drop)]
pub struct ResponseRecord {
    /// How long it takes, from when the request was begun.
    pub delay: u64,
    /// What comes.
    pub answer: RecordAnswer,
}

/// What comes of the load of an identity.
#[derive(Debug, Drop)]
pub enum IdentityAnswer {
    /// This identity is loaded.
    Identity(Identity),
    /// The load fails, with this text.
    Failed(Text),
}

/// The source of one auth scheme's identities.
#[derive(Debug, Drop)]
pub struct IdentityRecord {
    /// The auth scheme.
    pub id: Text,
    /// How long a load takes, from its first ask.
    pub delay: u64,
    /// What each load comes to.
    pub answer: IdentityAnswer,
}

//! What came, as a host hands it in.

use smithy_types::{Blob, ConnectorKind, Fault, Headers, Identity, Text};

/// What came of a request.
#[derive(Drop)]
pub enum HostReply {
    /// The head of a response. Its body comes by frames.
    Response {
        /// The status, such as 200.
        status: u16,
        /// Its headers.
        headers: Headers,
    },
    /// The request was not sent, or no response came: of which kind that is, and a text for people.
    NoResponse(ConnectorKind, Text),
}

/// What came of a response's body.
#[derive(Drop)]
pub enum HostFrame {
    /// A piece of it.
    Data(Blob),
    /// Headers behind the data, which nothing here reads.
    Trailers,
    /// There is nothing more.
    End,
    /// It broke off.
    Broken(Fault),
}

/// What came of the load of an identity.
#[derive(Drop)]
pub enum HostIdentity {
    /// The identity.
    Loaded(Identity),
    /// There is none, and why.
    NotLoaded(Text),
}

/// Something that came. Calls are numbered from 0 in the order in which they were begun.
#[derive(Drop)]
pub enum HostEvent {
    /// Of the request of the call of this number.
    Reply(u64, HostReply),
    /// Of the body of that call's response.
    Frame(u64, HostFrame),
    /// Of the load of an auth scheme's identity.
    Load(Text, HostIdentity),
}

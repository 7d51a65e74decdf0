//! What the acceptors of a waiter say.
/// What the acceptors of a waiter said of a poll, as the `AcceptorState` of the Smithy waiter
/// specification.
#[derive(Clone, Copy, Debug, PartialEq, Eq)]
pub enum AcceptorState {
    /// No acceptor matched what the poll answered.
    NoAcceptorsMatched,
    /// The resource is in the desired state.
    Success,
    /// The resource can't come into the desired state any more.
    Failure,
    /// The resource is to be polled again.
    Retry,
}

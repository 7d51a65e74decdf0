//! The parts of a client that a configuration gives.

/// Which parts were given: a draft of a client's runtime components.
#[derive(Clone, Copy, Debug, PartialEq, Eq)]
pub struct ComponentsDraft {
    /// Whether there is a sleep.
    pub sleep: bool,
    /// Whether there is a time source.
    pub time: bool,
    /// Whether there is an HTTP client.
    pub client: bool,
}

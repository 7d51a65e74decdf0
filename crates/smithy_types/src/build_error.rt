//! Why a part of a client can't be built.

use thiserror::Error;

/// A part that must be given before something is built.
#[derive(Clone, Copy, Debug, PartialEq, Eq)]
pub enum Part {
    /// The service's name, of an operation.
    ServiceName,
    /// The operation's name, of an operation.
    OperationName,
    /// The connector, of an operation.
    HttpClient,
    /// What resolves the endpoint, of an operation.
    EndpointResolver,
    /// The retry strategy, of an operation.
    RetryStrategy,
    /// What makes a request of the input, of an operation.
    Serializer,
    /// What makes an output of a response, of an operation.
    Deserializer,
    /// What the endpoint's resolver is handed, of an operation.
    EndpointParams,
    /// The timeouts, of an operation.
    Timeouts,
    /// The least delay, of a waiter.
    MinDelay,
    /// The greatest delay, of a waiter.
    MaxDelay,
    /// The longest wait in all, of a waiter.
    MaxWait,
    /// The clock.
    TimeSource,
    /// The sleeps.
    SleepImpl,
    /// What says what a poll means, of a waiter.
    Acceptor,
    /// What is polled, of a waiter.
    Operation,
}

/// Why a builder refuses. The builder comes back beside it.
#[derive(Clone, Copy, Debug, PartialEq, Eq, Error)]
pub enum BuildError {
    /// This part wasn't given.
    #[error("the part {0:?} is missing: give it to the builder")]
    Missing(Part),
    /// A cache of identities was to have no partition.
    #[error("an identity cache keeps at least one partition: raise max_partitions")]
    ZeroPartitions,
    /// The default expiration of an identity cache is below 15 minutes.
    #[error("identities are kept for at least 15 minutes: raise default_expiration")]
    ShortExpiration,
    /// The least delay of a waiter is below a second.
    #[error("a waiter's least delay is at least a second: raise min_delay")]
    DelayBelowSecond,
    /// The greatest delay of a waiter is below the least.
    #[error("a waiter's greatest delay is at least its least: raise max_delay")]
    DelaysOutOfOrder,
    /// The window of a throughput log is below ten nanoseconds.
    #[error("throughput is taken over at least 10 ns: widen the window")]
    WindowTooShort,
}

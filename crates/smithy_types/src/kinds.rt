//! Small enums that values name: phases, kinds of errors and of connector faults, stop points. The
//! kinds of questions are in `run_grammar::kind`.

/// How far a run has come. The order is that of a run without a retry.
#[derive(Clone, Copy, Debug, PartialEq, Eq)]
pub enum Phase {
    /// Before the input is made a request.
    BeforeSerialization,
    /// The input is gone, and the request isn't ready: its body is to be loaded, or there is none.
    Serialization,
    /// The request stands, and wasn't sent in this attempt.
    BeforeTransmit,
    /// The request was handed to the connector, and no response came.
    Transmit,
    /// A response came.
    BeforeDeserialization,
    /// The response is read.
    Deserialization,
    /// The response came to an output or a failure.
    AfterDeserialization,
}

/// What a retry would have to do with, as the Smithy `retryable` trait and the service's status
/// tell it.
#[derive(Clone, Copy, Debug, PartialEq, Eq)]
pub enum ErrorKind {
    /// The connection, or a deadline of one attempt.
    TransientError,
    /// The service asks to be asked less often.
    ThrottlingError,
    /// The service failed.
    ServerError,
    /// The request was at fault.
    ClientError,
}

/// What failed in a connector.
#[derive(Clone, Copy, Debug, PartialEq, Eq)]
pub enum ConnectorKind {
    /// A deadline of the connector passed.
    Timeout,
    /// The caller's request was at fault.
    User,
    /// Sending or receiving failed.
    Io,
    /// Anything else, with the kind that a retry should count it as.
    Other(Option<ErrorKind>),
}

/// Whether a run is stopped before it transmits.
#[derive(Clone, Copy, Debug, PartialEq, Eq)]
pub enum StopPoint {
    /// The run goes to its end.
    None,
    /// Each attempt ends before its request is transmitted.
    BeforeTransmit,
}

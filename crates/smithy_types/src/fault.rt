//! What went wrong in a run, and what stands at its end.
ghost use Rattle.std.specs.Prelude.{◌≡◌};

use crate::{ConnectorKind, Hook, HttpResponse, Payload, Text};
use std::alloc::AllocError;
use std::error::Error;
use std::fmt;

/// What a fault comes from.
#[derive(Debug, Drop, PartialEq, Eq)]
pub enum FaultKind {
    /// An interceptor failed at this hook.
    Interceptor(Hook),
    /// The service answered an error of the operation's model.
    Operation(Payload),
    /// The request could not be sent, or no response came.
    Connector(ConnectorKind),
    /// A deadline passed.
    Timeout,
    /// A response came that could not be read.
    Response,
    /// Anything else.
    Other,
}

impl Clone for FaultKind {
    ghost is_clone = { λ kind copy. copy ≡ kind };

    fn clone(&self) -> Result<FaultKind, AllocError> {
        match self {
            FaultKind::Interceptor(hook) => Ok(FaultKind::Interceptor(*hook)),
            FaultKind::Operation(payload) => Ok(FaultKind::Operation(payload.clone()?)),
            FaultKind::Connector(kind) => Ok(FaultKind::Connector(*kind)),
            FaultKind::Timeout => Ok(FaultKind::Timeout),
            FaultKind::Response => Ok(FaultKind::Response),
            FaultKind::Other => Ok(FaultKind::Other),
        }
    }
}

/// A failure: what it comes from, and a text for people.
#[derive(Debug, Drop, PartialEq, Eq)]
pub struct Fault {
    /// What it comes from.
    pub kind: FaultKind,
    /// What a person reads.
    pub text: Text,
}

impl Clone for Fault {
    ghost is_clone = { λ fault copy. copy ≡ fault };

    fn clone(&self) -> Result<Fault, AllocError> {
        Ok(Fault {
            kind: self.kind.clone()?,
            text: self.text.clone()?,
        })
    }
}

/// What an attempt, and in the end a run, comes to.
#[derive(Debug, Drop, PartialEq, Eq)]
pub enum Outcome {
    /// The operation's output.
    Output(Payload),
    /// It failed.
    Failed(Fault),
}

impl Clone for Outcome {
    ghost is_clone = { λ outcome copy. copy ≡ outcome };

    fn clone(&self) -> Result<Outcome, AllocError> {
        match self {
            Outcome::Output(payload) => Ok(Outcome::Output(payload.clone()?)),
            Outcome::Failed(fault) => Ok(Outcome::Failed(fault.clone()?)),
        }
    }
}

/// The error of an operation, as in the Rust crate's `SdkError`.
#[derive(Debug, Drop)]
pub enum SdkError<E> {
    /// The request was never built.
    ConstructionFailure(Fault),
    /// A deadline passed.
    TimeoutError(Fault),
    /// The request was not sent, or no response came.
    DispatchFailure(Fault),
    /// A response came that could not be read.
    ResponseError(Fault, HttpResponse),
    /// The service answered with an error of the operation's model.
    ServiceError(E, HttpResponse),
}

/// The texts are those of the Rust crate.
impl<E> fmt::Display for SdkError<E> {
    fn fmt<W: fmt::Write>(&self, f: &mut fmt::Formatter<W>) -> fmt::Result {
        f.write_str(match self {
            SdkError::ConstructionFailure(_) => "failed to construct request",
            SdkError::TimeoutError(_) => "request has timed out",
            SdkError::DispatchFailure(_) => "dispatch failure",
            SdkError::ResponseError(_, _) => "response error",
            SdkError::ServiceError(_, _) => "service error",
        })
    }
}

impl<E: fmt::Debug + Drop> Error for SdkError<E> {}

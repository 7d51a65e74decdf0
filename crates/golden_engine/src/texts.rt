//! Prints the texts of errors of operations, invocations and builds, which no clause states.

use anyhow::Result;
use orchestrate::InvokeError;
use smithy_types::{
    Blob, Body, BuildError, Fault, FaultKind, Headers, HttpResponse, OutOfMemory, Part, Payload,
    SdkError, Text,
};
use std::fmt;

pub fn print(rt: &HostRuntime) -> Result<()> {
    print_failures(rt)?;
    print_invocations(rt)?;
    print_builds(rt)?;
    print_text(rt, &OutOfMemory)
}

// The error's text, on a line.
fn print_text<T: fmt::Display>(rt: &HostRuntime, error: &T) -> Result<()> {
    println!(rt; "{error}")?;
    Ok(())
}

// Why an operation failed.
fn print_failures(rt: &HostRuntime) -> Result<()> {
    let failures: [SdkError<u8>; 5] = [
        SdkError::ConstructionFailure(fault()),
        SdkError::TimeoutError(fault()),
        SdkError::DispatchFailure(fault()),
        SdkError::ResponseError(fault(), response()),
        SdkError::ServiceError(0, response()),
    ];
    for failure in &failures {
        print_text(rt, failure)?;
    }
    Ok(())
}

// Why an invocation has no output.
fn print_invocations(rt: &HostRuntime) -> Result<()> {
    let errors: [InvokeError<u8>; 4] = [
        InvokeError::Sdk(SdkError::TimeoutError(fault())),
        InvokeError::Unfinished,
        InvokeError::WrongType(payload()),
        InvokeError::OutOfMemory,
    ];
    for error in &errors {
        print_text(rt, error)?;
    }
    Ok(())
}

// Why a builder refuses.
fn print_builds(rt: &HostRuntime) -> Result<()> {
    let errors = [
        BuildError::Missing(Part::ServiceName),
        BuildError::Missing(Part::OperationName),
        BuildError::Missing(Part::HttpClient),
        BuildError::Missing(Part::EndpointResolver),
        BuildError::Missing(Part::RetryStrategy),
        BuildError::Missing(Part::Serializer),
        BuildError::Missing(Part::Deserializer),
        BuildError::Missing(Part::EndpointParams),
        BuildError::Missing(Part::Timeouts),
        BuildError::ZeroPartitions,
        BuildError::ShortExpiration,
        BuildError::DelayBelowSecond,
        BuildError::DelaysOutOfOrder,
        BuildError::WindowTooShort,
    ];
    for error in &errors {
        print_text(rt, error)?;
    }
    Ok(())
}

// A fault whose text no error shows.
fn fault() -> Fault {
    Fault {
        kind: FaultKind::Timeout,
        text: Text::from_static("hidden"),
    }
}

// A response whose body was read.
fn response() -> HttpResponse {
    HttpResponse {
        status: 500,
        headers: Headers::new(),
        body: Body::Taken,
    }
}

// A payload without bytes.
fn payload() -> Payload {
    Payload {
        kind: 1,
        bytes: Blob::new(),
    }
}

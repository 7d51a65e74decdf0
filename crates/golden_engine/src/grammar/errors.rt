//! Which error each failure comes to.
use smithy_context::InterceptorContext;
use smithy_types::{
    Body, ConnectorKind, Fault, FaultKind, Headers, Hook, HttpResponse, Payload, Phase, SdkError,
    Text,
};

/// A kind of failure.
#[derive(Clone, Copy, Debug, PartialEq, Eq)]
pub enum Failing {
    Connector,
    Timeout,
    Response,
    Operation,
    Interceptor,
    Other,
}

/// Every kind of failure, once.
pub const FAILING: [Failing; 6] = [
    Failing::Connector,
    Failing::Timeout,
    Failing::Response,
    Failing::Operation,
    Failing::Interceptor,
    Failing::Other,
];

/// Every phase, in their order.
pub const PHASES: [Phase; 7] = [
    Phase::BeforeSerialization,
    Phase::Serialization,
    Phase::BeforeTransmit,
    Phase::Transmit,
    Phase::BeforeDeserialization,
    Phase::Deserialization,
    Phase::AfterDeserialization,
];

fn kind_of(failing: Failing) -> FaultKind {
    match failing {
        Failing::Connector => FaultKind::Connector(ConnectorKind::Io),
        Failing::Timeout => FaultKind::Timeout,
        Failing::Response => FaultKind::Response,
        Failing::Operation => FaultKind::Operation(Payload {
            kind: 2,
            bytes: smithy_types::Blob::new(),
        }),
        Failing::Interceptor => FaultKind::Interceptor(Hook::ReadBeforeAttempt),
        Failing::Other => FaultKind::Other,
    }
}

/// The name of the error that such a failure comes to in the phase, where a response is held or
/// none.
pub fn name_of(failing: Failing, phase: Phase, is_held: bool) -> &'static str {
    let response = if is_held { Some(response()) } else { None };
    let fault = Fault {
        kind: kind_of(failing),
        text: Text::from_static("x"),
    };
    let error = InterceptorContext::sdk_error(fault, phase, response);
    let name = name_in(&error);
    drop(error);
    name
}

fn name_in(error: &SdkError<Payload>) -> &'static str {
    match error {
        SdkError::ConstructionFailure(_) => "ConstructionFailure",
        SdkError::TimeoutError(_) => "TimeoutError",
        SdkError::DispatchFailure(_) => "DispatchFailure",
        SdkError::ResponseError(_, _) => "ResponseError",
        SdkError::ServiceError(_, _) => "ServiceError",
    }
}

fn response() -> HttpResponse {
    HttpResponse {
        status: 418,
        headers: Headers::new(),
        body: Body::Taken,
    }
}

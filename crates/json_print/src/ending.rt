//! How a run ended.
ghost use Rattle.std.specs.Prelude.{◌≡◌, Some, IfOk};
ghost use Rattle.json_forms.specs.JsonData.{data_of};
ghost use Rattle.json_forms.specs.Prints.{null_or};
ghost use Rattle.json_values.specs.Values.{request_data};
ghost use Rattle.json_print.specs.Endings.{output_ending, error_ending, failed_ending, stopped_by};
ghost use Rattle.json_print.specs.Endings.{ending_of, stopped_ending_of};
ghost use Rattle.json_print.specs.Print.{error_data, ending_data};

use crate::head::RunHead;
use json_forms::Json;
use json_values::fault::print_fault;
use json_values::http::{print_payload, print_request, print_response};
use orchestrate::InvokeError;
use smithy_context::{HookView, InterceptorContext};
use smithy_types::{HttpRequest, OutOfMemory, Outcome, Payload, SdkError, Shared};
use std::alloc::Global;

/// How a run ended.
pub enum Ending {
    /// With an output of the kind that is looked for.
    Output(Payload),
    /// At the stop point, with the request that stands there; None where none stands, to which no
    /// run comes.
    Stopped(Option<Shared<HttpRequest>>),
    /// With an error of the operation.
    Error(SdkError<Payload>),
    /// The fuel was used up.
    Unfinished,
    /// With a payload of another kind.
    WrongType(Payload),
}

// Written out, so that a drop is one call wherever an ending is dropped.
impl Drop for Ending {
    fn drop(self) {
        match self {
            Ending::Output(_) => {}
            Ending::Stopped(_) => {}
            Ending::Error(_) => {}
            Ending::Unfinished => {}
            Ending::WrongType(_) => {}
        }
    }
}

impl Ending {
    /// The ending of a run to its end, its output and its error held to the kinds that are looked
    /// for.
    #[tactic(auto, unfolding(crate::specs::Endings::ending_of))]
    pub fn of(
        answer: Result<Payload, InvokeError<Payload>>,
        head: &RunHead,
    ) -> Result<Ending, OutOfMemory>
        ensures { IfOk result (λ e. ending_of head.now answer ≡ Some e) }
    {
        match answer {
            Ok(output) => Ok(Ending::of_output(output, head.output_kind)),
            Err(error) => Ending::of_failure(error, head.error_kind),
        }
    }

    /// The ending of a run to its stop point: the request that stands, or an output that a hook
    /// wrote, which isn't held to a kind.
    #[tactic(auto, unfolding(crate::specs::Endings::stopped_ending_of))]
    pub fn of_stopped(
        answer: Result<InterceptorContext, InvokeError<Payload>>,
        head: &RunHead,
    ) -> Result<Ending, OutOfMemory>
        ensures { IfOk result (λ e. stopped_ending_of head.now answer ≡ Some e) }
    {
        match answer {
            Ok(context) => Ending::of_standing(context.view),
            Err(error) => Ending::of_failure(error, head.error_kind),
        }
    }

    // An output that a hook wrote, which is copied, or else the request that stands.
    fn of_standing(view: HookView) -> Result<Ending, OutOfMemory>
        ensures { IfOk result (λ e. e ≡ stopped_by view.request view.outcome) }
    {
        match &view.outcome {
            Some(outcome) => match outcome.get() {
                Outcome::Output(output) => Ok(Ending::Output(output.clone()?)),
                Outcome::Failed(_) => Ok(Ending::Stopped(view.request)),
            },
            None => Ok(Ending::Stopped(view.request)),
        }
    }

    fn of_output(output: Payload, kind: u64) -> Ending
        ensures { result ≡ output_ending kind output }
    {
        if output.kind as u64 == kind {
            Ending::Output(output)
        } else {
            Ending::WrongType(output)
        }
    }

    fn of_failure(error: InvokeError<Payload>, kind: u64) -> Result<Ending, OutOfMemory>
        ensures { IfOk result (λ e. failed_ending kind error ≡ Some e) }
    {
        match error {
            InvokeError::Sdk(error) => Ok(Ending::of_error(error, kind)),
            InvokeError::Unfinished => Ok(Ending::Unfinished),
            InvokeError::WrongType(payload) => Ok(Ending::WrongType(payload)),
            InvokeError::OutOfMemory => Err(OutOfMemory),
        }
    }

    fn of_error(error: SdkError<Payload>, kind: u64) -> Ending
        ensures { result ≡ error_ending kind error }
    {
        match error {
            SdkError::ServiceError(payload, response) => {
                if payload.kind as u64 == kind {
                    Ending::Error(SdkError::ServiceError(payload, response))
                } else {
                    Ending::WrongType(payload)
                }
            }
            SdkError::ConstructionFailure(fault) => {
                Ending::Error(SdkError::ConstructionFailure(fault))
            }
            SdkError::TimeoutError(fault) => Ending::Error(SdkError::TimeoutError(fault)),
            SdkError::DispatchFailure(fault) => Ending::Error(SdkError::DispatchFailure(fault)),
            SdkError::ResponseError(fault, response) => {
                Ending::Error(SdkError::ResponseError(fault, response))
            }
        }
    }
}

/// The last line of a print.
#[tactic(auto, unfolding(crate::specs::Print::ending_data))]
pub fn print_ending(alloc: Global, ending: &Ending) -> Result<Json, OutOfMemory>
    ensures { IfOk result (λ j. data_of j ≡ ending_data ending.now) }
{
    match ending {
        Ending::Output(payload) => Json::tagged(alloc, "Ok", print_payload(alloc, payload)?),
        Ending::Stopped(request) => {
            Json::tagged(alloc, "Stopped", print_optional_request(alloc, request)?)
        }
        Ending::Error(error) => print_error(alloc, error),
        Ending::Unfinished => Json::single(alloc, Json::text(alloc, "Unfinished")?),
        Ending::WrongType(payload) => {
            Json::tagged(alloc, "WrongType", print_payload(alloc, payload)?)
        }
    }
}

// Null where there is no request.
fn print_optional_request(
    alloc: Global,
    request: &Option<Shared<HttpRequest>>,
) -> Result<Json, OutOfMemory>
    ensures { IfOk result (λ j. data_of j ≡ null_or request_data request.now) }
{
    match request {
        Some(request) => print_request(alloc, request.get()),
        None => Ok(Json::null()),
    }
}

#[tactic(auto, unfolding(crate::specs::Print::error_data))]
fn print_error(alloc: Global, error: &SdkError<Payload>) -> Result<Json, OutOfMemory>
    ensures { IfOk result (λ j. data_of j ≡ error_data error.now) }
{
    match error {
        SdkError::ConstructionFailure(fault) => {
            Json::tagged(alloc, "ConstructionFailure", print_fault(alloc, fault)?)
        }
        SdkError::TimeoutError(fault) => {
            Json::tagged(alloc, "TimeoutError", print_fault(alloc, fault)?)
        }
        SdkError::DispatchFailure(fault) => {
            Json::tagged(alloc, "DispatchFailure", print_fault(alloc, fault)?)
        }
        SdkError::ResponseError(fault, response) => {
            let tag = Json::text(alloc, "ResponseError")?;
            let fault = print_fault(alloc, fault)?;
            Json::triple(alloc, tag, fault, print_response(alloc, response)?)
        }
        SdkError::ServiceError(payload, response) => {
            let tag = Json::text(alloc, "ServiceError")?;
            let payload = print_payload(alloc, payload)?;
            Json::triple(alloc, tag, payload, print_response(alloc, response)?)
        }
    }
}

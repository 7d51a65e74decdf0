//! What a whole run comes to.
ghost use Rattle.std.specs.Prelude.{◌≡◌, IfOk};
ghost use Rattle.orchestrate.specs.Answered.{Answers, Stopped};
ghost use Rattle.orchestrate.specs.Finish.{failure_of, no_outcome};

use crate::execution::InvokeError;
use smithy_context::{HookView, InterceptorContext};
use smithy_types::{Fault, FaultKind, HttpResponse, OutOfMemory, Outcome, Payload, SdkError, Text};

const NO_OUTCOME: &'static str = "no outcome stands";

/// The output that stands, or the error that the standing failure gives. Where neither stands it
/// is an untyped failure. Output, failure and response are copied.
pub fn outcome(context: InterceptorContext) -> Result<Payload, InvokeError<Payload>>
    ensures { Answers context result }
{
    let phase = context.phase;
    let (outcome, response) = ending(context.view)?;
    match outcome {
        Some(Outcome::Output(payload)) => Ok(payload),
        Some(Outcome::Failed(fault)) => {
            Err(InvokeError::Sdk(InterceptorContext::sdk_error(fault, phase, response)))
        }
        None => Err(InvokeError::Sdk(InterceptorContext::sdk_error(no_outcome(), phase, response))),
    }
}

/// The context itself where no failure stands, and the error that the failure gives otherwise.
pub fn stopped(context: InterceptorContext) -> Result<InterceptorContext, InvokeError<Payload>>
    ensures { Stopped context result }
{
    if context.is_failed() {
        match failure(context) {
            Ok(error) => Err(InvokeError::Sdk(error)),
            Err(OutOfMemory) => Err(InvokeError::OutOfMemory),
        }
    } else {
        Ok(context)
    }
}

// The error of the failure that stands. Failure and response are copied.
fn failure(context: InterceptorContext) -> Result<SdkError<Payload>, OutOfMemory>
    ensures { IfOk result (λ e. e ≡ failure_of context) }
{
    let phase = context.phase;
    let (outcome, response) = ending(context.view)?;
    match outcome {
        Some(Outcome::Failed(fault)) => {
            Ok(InterceptorContext::sdk_error(fault, phase, response))
        }
        _ => Ok(InterceptorContext::sdk_error(no_outcome(), phase, response)),
    }
}

/// Copies of the outcome that stands in a view and of the response that it holds.
pub fn ending(view: HookView) -> Result<(Option<Outcome>, Option<HttpResponse>), OutOfMemory>
    ensures outcome { IfOk result (λ r. r.0 ≡ view.outcome) }
    ensures response { IfOk result (λ r. r.1 ≡ view.response) }
{
    let response = match &view.response {
        Some(response) => Some(response.get().clone()?),
        None => None,
    };
    let outcome = match &view.outcome {
        Some(outcome) => Some(outcome.get().clone()?),
        None => None,
    };
    Ok((outcome, response))
}

/// The failure of a run in which neither an output nor a failure stands.
pub fn no_outcome() -> Fault
    ensures { result ≡ no_outcome }
{
    Fault {
        kind: FaultKind::Other,
        text: Text::from_static(NO_OUTCOME),
    }
}

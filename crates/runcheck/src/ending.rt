//! The answer of a whole run, by the context at its end. It is worked out here; the engine gives
//! the ending of an outcome, and the failure of a run that has none.
ghost use Rattle.std.specs.Prelude.{◌≡◌, IfOk};
ghost use Rattle.json_print.specs.Endings.{error_ending};
ghost use Rattle.smithy_context.specs.Failures.{sdk_error_of};
ghost use Rattle.smithy_types.specs.declared.kinds.StopPoint.TheVariants as stops;
ghost use Rattle.runcheck.specs.Reach.{ending_at, whole_ending};

use json_print::{Ending, RunHead};
use orchestrate::InvokeError;
use orchestrate::finish::{ending, no_outcome};
use smithy_context::InterceptorContext;
use smithy_types::{Fault, HttpResponse, OutOfMemory, Outcome, Phase, StopPoint};

/// The answer of a whole run that ended with this context: at its end an output or an error, and
/// at the stop point the request that stands there where no failure does.
pub fn whole_ending(head: &RunHead, context: InterceptorContext) -> Result<Ending, OutOfMemory>
    ensures { IfOk result (λ e. e ≡ whole_ending head.now context) }
{
    match head.stop {
        StopPoint::None => at_the_end(head, context),
        StopPoint::BeforeTransmit => at_the_stop(head, context),
    }
}

// The output that stands, or the error of the failure that does.
fn at_the_end(head: &RunHead, context: InterceptorContext) -> Result<Ending, OutOfMemory>
    ensures { IfOk result (λ e. e ≡ ending_at stops.None head.now context) }
{
    let phase = context.phase;
    let (outcome, response) = ending(context.view)?;
    match outcome {
        Some(Outcome::Output(output)) => Ending::of(Ok(output), head),
        Some(Outcome::Failed(fault)) => failed(head, fault, phase, response),
        None => failed(head, no_outcome(), phase, response),
    }
}

// The error of the failure that stands, or the request, or an output that a hook wrote.
fn at_the_stop(head: &RunHead, context: InterceptorContext) -> Result<Ending, OutOfMemory>
    ensures { IfOk result (λ e. e ≡ ending_at stops.BeforeTransmit head.now context) }
{
    if context.is_failed() {
        at_the_end(head, context)
    } else {
        Ending::of_stopped(Ok(context), head)
    }
}

// The answer of a failure in this phase.
#[tactic(auto, unfolding(json_print::specs::Endings::ending_of))]
fn failed(
    head: &RunHead,
    fault: Fault,
    phase: Phase,
    response: Option<HttpResponse>,
) -> Result<Ending, OutOfMemory>
    ensures { IfOk result (λ e. e ≡
        error_ending head.now.error_kind (sdk_error_of fault phase response)) }
{
    let error = InterceptorContext::sdk_error(fault, phase, response);
    Ending::of(Err(InvokeError::Sdk(error)), head)
}

//! Runs of an operation from begin to end, over payloads.
ghost use Rattle.std.specs.Prelude.{◌≡◌, IfOk, OnErr};
ghost use Rattle.orchestrate.specs.Stands.{Ran, RunLost};
ghost use Rattle.orchestrate.specs.Answered.{ContextAnswered, PayloadAnswered};
ghost use Rattle.orchestrate.specs.Handing.{HadMemory, HandedOn};

use crate::finish::{outcome, stopped};
use crate::invocation::{Invocation, Step};
use crate::world::World;
use run_grammar::{Standing, StopPoint};
use smithy_context::InterceptorContext;
use smithy_types::{OutOfMemory, Payload, SdkError};
use std::alloc::Global;
use std::error::Error;
use std::fmt;

/// Why an operation has no output.
#[derive(Debug, Drop)]
pub enum InvokeError<E> {
    /// The run is whole, and a failure stands at its end.
    Sdk(SdkError<E>),
    /// `fuel` questions were asked, and the run isn't whole. Its finalizers may not have run.
    Unfinished,
    /// The run is whole, and its output, or the error of its service, isn't of the caller's type.
    WrongType(Payload),
    /// An allocation was refused. The run's finalizers may not have run.
    OutOfMemory,
}

/// A failure has the text of its `SdkError`.
impl<E> fmt::Display for InvokeError<E> {
    fn fmt<W: fmt::Write>(&self, f: &mut fmt::Formatter<W>) -> fmt::Result {
        match self {
            InvokeError::Sdk(error) => fmt::Display::fmt(error, f),
            InvokeError::Unfinished => f.write_str("the fuel is spent before the run's end"),
            InvokeError::WrongType(_) => f.write_str("the answer is of another type"),
            InvokeError::OutOfMemory => fmt::Display::fmt(&OutOfMemory, f),
        }
    }
}

impl<E: fmt::Debug + Drop> Error for InvokeError<E> {}

impl<E> From<OutOfMemory> for InvokeError<E> {
    ghost use Rattle.std.specs.Prelude.{◌≡◌};
    ghost use Rattle.orchestrate.specs.declared.execution.InvokeError.TheVariants as errors;

    ghost from_gives = { λ _ e. e ≡ errors.OutOfMemory };

    fn from(_error: OutOfMemory) -> InvokeError<E> {
        InvokeError::OutOfMemory
    }
}

/// Runs an operation, and answers its output. At most `fuel` questions are asked.
#[tactic(auto, using(crate::proofs::Ending::answered_at_end))]
pub fn invoke<W: World>(
    alloc: Global,
    _service_name: &str,
    _operation_name: &str,
    world: &mut W,
    input: Payload,
    fuel: u64,
) -> Result<Payload, InvokeError<Payload>>
    ensures answered { PayloadAnswered input fuel result (W.calls world.old) (W.calls world.new) }
    ensures related { HadMemory result →
        HandedOn W.relates world.old world.new (W.calls world.old) (W.calls world.new) }
{
    match run(alloc, world, input, StopPoint::None, fuel)? {
        Some(standing) => outcome(standing.into_context()),
        None => Err(InvokeError::Unfinished),
    }
}

/// Runs an operation up to the stop point, and answers the context at its end. At most `fuel`
/// questions are asked.
#[tactic(auto, using(crate::proofs::Ending::stopped_at_end))]
pub fn invoke_with_stop_point<W: World>(
    alloc: Global,
    _service_name: &str,
    _operation_name: &str,
    world: &mut W,
    input: Payload,
    stop: StopPoint,
    fuel: u64,
) -> Result<InterceptorContext, InvokeError<Payload>>
    ensures answered { ContextAnswered input stop fuel result (W.calls world.old)
        (W.calls world.new) }
    ensures related { HadMemory result →
        HandedOn W.relates world.old world.new (W.calls world.old) (W.calls world.new) }
{
    match run(alloc, world, input, stop, fuel)? {
        Some(standing) => stopped(standing.into_context()),
        None => Err(InvokeError::Unfinished),
    }
}

// Drives a run until it is whole, or `fuel` questions were asked. Some is what stands at the end.
fn run<W: World>(
    alloc: Global,
    world: &mut W,
    input: Payload,
    stop: StopPoint,
    fuel: u64,
) -> Result<Option<Standing>, OutOfMemory>
    ensures ran { IfOk result (λ r. Ran input stop fuel r (W.calls world.old) (W.calls world.new)) }
    ensures lost { OnErr result (RunLost input stop fuel (W.calls world.old) (W.calls world.new)) }
    ensures related { IfOk result (λ r. HandedOn W.relates world.old world.new (W.calls world.old)
        (W.calls world.new)) }
{
    let mut invocation = Invocation::start(alloc, input, stop)?;
    for _ in 0..fuel {
        match invocation.drive(alloc, world)? {
            Step::Ended => return Ok(Some(invocation.into_standing())),
            Step::Asked => {}
        }
    }
    match invocation.point() {
        None => Ok(Some(invocation.into_standing())),
        Some(_) => Ok(None),
    }
}

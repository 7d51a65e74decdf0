//! A run of an operation over payloads, over any world, and how it ended.

ghost use Rattle.std.specs.Prelude.{◌≡◌, IfOk, OnOk};
ghost use Rattle.orchestrate.specs.Handing.{HandedOn};
ghost use Rattle.json_print.specs.Endings.{Ends};
ghost use Rattle.json_print.specs.World.Outcome.{came_to};

use crate::{Ending, RunHead};
use cli_shell::status::PrintStatus;
use orchestrate::{Operation, World, invoke_with_stop_point};
use smithy_types::{OutOfMemory, Payload, StopPoint};
use std::alloc::Global;

/// An operation whose input, output and error are payloads.
pub type PayloadOperation = Operation<Payload, Payload, Payload>;

/// Runs the operation over the world, to its end or to the head's stop point, and tells how it
/// ended. The world's log grows by one run of at most the head's fuel of calls.
pub fn run_over<W: World>(
    alloc: Global,
    operation: &PayloadOperation,
    head: &RunHead,
    world: &mut W,
) -> Result<Ending, OutOfMemory>
    ensures ends { IfOk result (λ e. Ends head.now (W.calls world.old) (W.calls world.new) e) }
    ensures related { OnOk result (HandedOn W.relates world.old world.new
        (W.calls world.old) (W.calls world.new)) }
{
    let input = head.input.clone()?;
    match head.stop {
        StopPoint::None => {
            let answer = operation.invoke(alloc, world, input, head.fuel);
            Ending::of(answer, head)
        }
        StopPoint::BeforeTransmit => {
            let service = operation.service_name();
            let name = operation.operation_name();
            let stop = StopPoint::BeforeTransmit;
            let answer = invoke_with_stop_point(
                alloc, service, name, world, input, stop, head.fuel,
            );
            Ending::of_stopped(answer, head)
        }
    }
}

/// What the ending of a run comes to.
pub fn outcome_of(ending: &Ending) -> PrintStatus
    ensures { result ≡ came_to ending.now }
{
    match ending {
        Ending::Output(_) => PrintStatus::Ok,
        Ending::Stopped(_) => PrintStatus::Ok,
        Ending::Error(_) => PrintStatus::SdkError,
        Ending::Unfinished => PrintStatus::Unfinished,
        Ending::WrongType(_) => PrintStatus::WrongType,
    }
}

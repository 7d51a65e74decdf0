//! A run that its caller keeps going.
ghost use Rattle.std.specs.Prelude.{◌≡◌, ◌-◌, List, true, false, IfOk, OnOk};
ghost use Rattle.smithy_types.specs.declared.kinds.StopPoint.{StopPoint};
ghost use Rattle.smithy_types.specs.declared.kinds.StopPoint.TheVariants as stops;
ghost use Rattle.smithy_types.specs.declared.payload.Payload.{Payload};
ghost use Rattle.run_grammar.specs.declared.answer.Entry.{Entry};
ghost use Rattle.orchestrate.specs.Answered.{ContextAnswered, PayloadAnswered};
ghost use Rattle.orchestrate.specs.Handing.{HandedOn};
ghost use Rattle.run_driver.specs.Driving.{RunsThrough, Stretches};
ghost use Rattle.run_driver.specs.Running.{Goes, IsOver};

use crate::driving::{Parking, drive_on};
use orchestrate::{Invocation, InvokeError};
use run_grammar::StopPoint;
use smithy_context::InterceptorContext;
use smithy_types::{OutOfMemory, Payload};
use std::alloc::Global;

/// A run that is under way.
#[derive(Drop)]
pub struct DrivenRun {
    /// The run.
    pub invocation: Invocation,
    /// How many calls it may make in all.
    pub fuel: u64,
    /// How many of them it hasn't made yet.
    pub left: u64,
}

impl DrivenRun {
    /// A run of at most `fuel` calls, which made none yet.
    pub fn start(
        alloc: Global,
        input: Payload,
        stop: StopPoint,
        fuel: u64,
    ) -> Result<DrivenRun, OutOfMemory>
        ensures goes { IfOk result (λ run. (log : List Entry) → Goes input stop run log log) }
        ensures fuel { IfOk result (λ run. run.fuel ≡ fuel) }
    {
        let invocation = Invocation::start(alloc, input, stop)?;
        Ok(DrivenRun {
            invocation,
            fuel,
            left: fuel,
        })
    }

    /// Drives the run on until it has to wait, or is over. Answers whether it is over. Where there
    /// is no memory it asks nothing from then on.
    pub fn go_on<W: Parking>(&mut self, alloc: Global, world: &mut W) -> Result<bool, OutOfMemory>
        ensures goes { OnOk result ((p : Payload) (stop : StopPoint) (before : List Entry) →
            Goes p stop self.old before (W.calls world.old) →
            Goes p stop self.new before (W.calls world.new)) }
        ensures fuel { OnOk result (self.new.fuel ≡ self.old.fuel) }
        ensures related { OnOk result (HandedOn W.relates world.old world.new
            (W.calls world.old) (W.calls world.new)) }
        ensures stretches { OnOk result (Stretches W.calls W.relates W.parks world.old world.new) }
        ensures through { IfOk result (λ over. over ≡ true →
            RunsThrough W.calls W.relates W.parks world.old world.new) }
        ensures waits { IfOk result (λ over. over ≡ false → W.parks world.new ≡ true) }
        ensures over { IfOk result (λ over. over ≡ true → IsOver self.new) }
    {
        let driven = drive_on(alloc, world, &mut self.invocation, self.left)?;
        self.left = self.left.saturating_sub(driven.calls);
        Ok(driven.is_over)
    }

    /// What the run comes to, as `invoke` answers it for so much fuel as the run made calls.
    pub fn finish(self) -> Result<Payload, InvokeError<Payload>>
        ensures { (p : Payload) (before log : List Entry) → Goes p stops.None self before log →
            PayloadAnswered p (self.fuel - self.left) result before log }
    {
        self.invocation.finish()
    }

    /// The context at the end of a run to its stop point, as `invoke_with_stop_point` answers it.
    pub fn finish_stopped(self) -> Result<InterceptorContext, InvokeError<Payload>>
        ensures { (p : Payload) (stop : StopPoint) (before log : List Entry) →
            Goes p stop self before log →
            ContextAnswered p stop (self.fuel - self.left) result before log }
    {
        self.invocation.finish_stopped()
    }
}

//! A run of an operation that is driven one question at a time.
ghost use Rattle.std.specs.Prelude.{◌≡◌, ℕ, List, [], true, IsErr, IfOk, OnOk, OnErr};
ghost use Rattle.smithy_types.specs.declared.kinds.StopPoint.{StopPoint};
ghost use Rattle.smithy_types.specs.declared.kinds.StopPoint.TheVariants as stops;
ghost use Rattle.smithy_types.specs.declared.payload.Payload.{Payload};
ghost use Rattle.run_grammar.specs.declared.answer.Entry.{Entry};
ghost use Rattle.run_grammar.specs.Standing.{start};
ghost use Rattle.orchestrate.specs.Fresh.{fresh};
ghost use Rattle.orchestrate.specs.Handing.{HandedOn};
ghost use Rattle.orchestrate.specs.Answered.{ContextAnswered, PayloadAnswered};
ghost use Rattle.orchestrate.specs.Stands.{AskedOnce, AskedInVain, Drove, Lost, Progress, Stands};
ghost use Rattle.orchestrate.specs.Stands.{next_kind};

use crate::execution::InvokeError;
use crate::finish::{outcome, stopped};
use crate::point::Point;
use crate::reply::Reply;
use crate::stage::{Armed, Place, Stage, Waiting, asks_at, moved};
use crate::world::World;
use run_grammar::{Kind, Standing, StopPoint};
use smithy_context::InterceptorContext;
use smithy_types::{OutOfMemory, Payload};
use std::alloc::Global;
use std::marker::Model;

/// A run of an operation: what stands in it, and where it stands. It never sees the log.
pub struct Invocation {
    stop: StopPoint,
    standing: Standing,
    stage: Stage,
    // Whether memory ran out in it. It then asks nothing more.
    lost: bool,
}

// Written out, so that a drop is one call wherever a run is dropped.
impl Drop for Invocation {
    fn drop(self) {
        let Invocation {
            stop: _,
            standing: _,
            stage: _,
            lost: _,
        } = self;
    }
}

impl Model for Invocation {
    ghost use Rattle.orchestrate.specs.InvocationValue.{InvocationValue};

    ghost Value = { InvocationValue };

    ghost view = { λ v. record {
      stop = v.stop;
      standing = v.standing;
      stage = v.stage;
      lost = v.lost;
    } };
}

/// What a step of a run came to.
#[derive(Clone, Copy, Debug, PartialEq, Eq)]
pub enum Step {
    /// The world was asked one question.
    Asked,
    /// The run is whole, and nothing was asked.
    Ended,
}

impl Invocation {
    /// A run that asked nothing yet.
    pub fn start(alloc: Global, input: Payload, stop: StopPoint) -> Result<Invocation, OutOfMemory>
        ensures fresh { IfOk result (λ v. v ≡ fresh input stop) }
        ensures stands { IfOk result (λ v. Stands (start input) [] v) }
    {
        let standing = Standing::new(alloc, input)?;
        Ok(Invocation {
            stop,
            standing,
            stage: Stage {
                place: Place {
                    armed: Armed {
                        operation: false,
                        attempt: false,
                    },
                    point: Some(Point::AtConfigureClient),
                },
                waiting: Waiting::NotWaiting,
            },
            lost: false,
        })
    }

    /// Asks the world one question, or none where the run is whole. Where there is no memory this
    /// answers so from then on, and asks nothing.
    pub fn drive<W: World>(&mut self, alloc: Global, world: &mut W) -> Result<Step, OutOfMemory>
        ensures drove { IfOk result (λ r. Drove r self.old self.new (W.calls world.old)
            (W.calls world.new)) }
        ensures lost { OnErr result (Lost self.old self.new (W.calls world.old)
            (W.calls world.new)) }
        ensures related { IfOk result (λ r. HandedOn W.relates world.old world.new
            (W.calls world.old) (W.calls world.new)) }
        ensures stays_lost { self.old.lost ≡ true →
            IsErr result × (W.calls world.new ≡ W.calls world.old) }
    {
        if self.lost {
            return Err(OutOfMemory);
        }
        let Some(point) = self.stage.place.point else {
            return Ok(Step::Ended);
        };
        self.lost = true;
        self.ask(alloc, world, point)?;
        self.lost = false;
        Ok(Step::Asked)
    }

    /// The kind of the question that is asked next. None where the run is whole, or where memory ran
    /// out in it.
    pub fn next_kind(&self) -> Option<Kind>
        ensures { result ≡ next_kind self.now }
    {
        if self.lost {
            return None;
        }
        match self.stage.place.point {
            Some(point) => Some(asks_at(point, self.stage.waiting)),
            None => None,
        }
    }

    /// What a run to its end answers, as `invoke` does: its output, or its error. A run that isn't
    /// whole is `Unfinished`, one in which memory ran out is `OutOfMemory`.
    pub fn finish(self) -> Result<Payload, InvokeError<Payload>>
        ensures { (p : Payload) (before log : List Entry) (calls : ℕ) →
            Progress p stops.None self before log calls →
            PayloadAnswered p calls result before log }
    {
        if self.lost {
            return Err(InvokeError::OutOfMemory);
        }
        match self.point() {
            Some(_) => Err(InvokeError::Unfinished),
            None => outcome(self.into_standing().into_context()),
        }
    }

    /// What a run to its stop point answers, as `invoke_with_stop_point` does: the context at its
    /// end, or its error.
    pub fn finish_stopped(self) -> Result<InterceptorContext, InvokeError<Payload>>
        ensures { (p : Payload) (stop : StopPoint) (before log : List Entry) (calls : ℕ) →
            Progress p stop self before log calls →
            ContextAnswered p stop calls result before log }
    {
        if self.lost {
            return Err(InvokeError::OutOfMemory);
        }
        match self.point() {
            Some(_) => Err(InvokeError::Unfinished),
            None => stopped(self.into_standing().into_context()),
        }
    }

    /// The point whose question is next. Without one the run is whole.
    pub(crate) fn point(&self) -> Option<Point>
        ensures { result ≡ self.now.stage.place.point }
    {
        self.stage.place.point
    }

    /// What stands in the run.
    pub(crate) fn into_standing(self) -> Standing
        ensures { result ≡ self.standing }
    {
        let Invocation {
            stop: _,
            standing,
            stage: _,
            lost: _,
        } = self;
        standing
    }

    // Asks the question of the point, and takes the answer in.
    fn ask<W: World>(
        &mut self,
        alloc: Global,
        world: &mut W,
        point: Point,
    ) -> Result<(), OutOfMemory>
        ensures ok { OnOk result (AskedOnce self.old self.new point (W.calls world.old)
            (W.calls world.new)) }
        ensures err { OnErr result (AskedInVain self.old self.new point (W.calls world.old)
            (W.calls world.new)) }
        ensures related { OnOk result (HandedOn W.relates world.old world.new
            (W.calls world.old) (W.calls world.new)) }
    {
        let kind = asks_at(point, self.stage.waiting);
        let question = self.standing.question(kind)?;
        let nanos = question.nanos();
        let answer = world.ask(alloc, question)?;
        let taken = self.standing.take_in(alloc, kind, nanos, &answer);
        let reply = Reply::of(kind, self.standing.context.view.attempt, &answer);
        drop(answer);
        taken?;
        self.stage = moved(
            self.stop,
            self.stage.place.armed,
            point,
            self.stage.waiting,
            reply,
            &self.standing,
        );
        Ok(())
    }
}

//! Where an invocation stands between two questions.
ghost use Rattle.std.specs.Prelude.{◌≡◌, if◌then◌else◌};
ghost use Rattle.run_grammar.specs.Standing.{State};
ghost use Rattle.run_grammar.specs.declared.answer.Entry.{Entry};
ghost use Rattle.run_grammar.specs.Entry.{pending};
ghost use Rattle.orchestrate.specs.Points.{here};
ghost use Rattle.orchestrate.specs.Driving.{asks_at, first_wait, is_in_attempt, moved_at};
ghost use Rattle.orchestrate.specs.Replies.{Tells};

use crate::point::{Point, is_in_attempt, is_in_operation, kind_at};
use crate::reply::Reply;
use crate::way::{here, next_point};
use run_grammar::{Kind, Role, Standing, StopPoint};
use smithy_types::Hook;

/// Which deadlines are armed.
#[derive(Clone, Copy, Debug, PartialEq, Eq)]
pub struct Armed {
    pub operation: bool,
    pub attempt: bool,
}

/// A point with the deadlines that are armed there. Without a point the run is whole.
#[derive(Clone, Copy, Debug, PartialEq, Eq)]
pub struct Place {
    pub armed: Armed,
    pub point: Option<Point>,
}

/// What is asked at a place.
#[derive(Clone, Copy, Debug, PartialEq, Eq)]
pub enum Waiting {
    /// The place's own question.
    NotWaiting,
    /// It is pending: the attempt's deadline is asked.
    ForAttempt,
    /// It is pending: the operation's deadline is asked.
    ForOperation,
    /// It and the deadlines are pending: the world may wait.
    ForPark,
    /// The attempt's deadline passed: what is pending is given up.
    CutByAttempt,
    /// The operation's deadline passed: what is pending is given up.
    CutByOperation,
}

/// Where an invocation stands between two questions.
#[derive(Clone, Copy, Debug, PartialEq, Eq)]
pub struct Stage {
    pub place: Place,
    pub waiting: Waiting,
}

/// The kind of the question that is next.
pub fn asks_at(point: Point, waiting: Waiting) -> Kind
    ensures { result ≡ asks_at point waiting }
{
    match waiting {
        Waiting::NotWaiting => kind_at(point),
        Waiting::ForAttempt => Kind::Wait(Role::Attempt),
        Waiting::ForOperation => Kind::Wait(Role::Operation),
        Waiting::ForPark => Kind::Park,
        Waiting::CutByAttempt | Waiting::CutByOperation => kind_at(point).given_up_by(),
    }
}

// Which deadline is asked first after Pending.
fn first_wait(armed: Armed, point: Point) -> Waiting
    ensures { result ≡ first_wait armed point }
{
    if armed.attempt && is_in_attempt(point) {
        Waiting::ForAttempt
    } else if armed.operation && is_in_operation(point) {
        Waiting::ForOperation
    } else {
        Waiting::ForPark
    }
}

fn staged(place: Place, waiting: Waiting) -> Stage
    ensures { result ≡ record { place = place; waiting = waiting } }
{
    Stage { place, waiting }
}

/// The stage after an answer; `standing` is what stands after it.
pub fn moved(
    stop: StopPoint,
    armed: Armed,
    point: Point,
    waiting: Waiting,
    reply: Reply,
    standing: &Standing,
) -> Stage
    ensures { (s : State) (e : Entry) → s.context ≡ standing.now → Tells s reply →
        pending e ≡ reply.pending → result ≡ moved_at stop armed point waiting s e }
{
    match waiting {
        Waiting::NotWaiting => {
            if reply.pending {
                staged(here(armed, point), first_wait(armed, point))
            } else {
                let place = next_point(stop, armed, point, reply, standing);
                staged(place, Waiting::NotWaiting)
            }
        }
        Waiting::ForAttempt => staged(here(armed, point), after_attempt_wait(armed, reply)),
        Waiting::ForOperation => {
            if reply.pending {
                staged(here(armed, point), Waiting::ForPark)
            } else {
                staged(here(armed, point), Waiting::CutByOperation)
            }
        }
        Waiting::ForPark => staged(here(armed, point), Waiting::NotWaiting),
        Waiting::CutByAttempt => {
            let place = here(armed, Point::Hook(Hook::ModifyBeforeAttemptCompletion));
            staged(place, Waiting::NotWaiting)
        }
        Waiting::CutByOperation => staged(after_operation_cut(armed, point), Waiting::NotWaiting),
    }
}

fn after_attempt_wait(armed: Armed, reply: Reply) -> Waiting
    ensures { result ≡ (if reply.pending
        then (if armed.operation then Waiting.ForOperation else Waiting.ForPark)
        else Waiting.CutByAttempt) }
{
    if !reply.pending {
        Waiting::CutByAttempt
    } else if armed.operation {
        Waiting::ForOperation
    } else {
        Waiting::ForPark
    }
}

// An operation's cut inside an attempt is followed by that attempt's completion hooks.
fn after_operation_cut(armed: Armed, point: Point) -> Place
    ensures { result ≡ (if is_in_attempt point
        then here armed Point.AtCutModifyBeforeAttemptCompletion
        else here armed (Point.Hook Hook.ModifyBeforeCompletion)) }
{
    if is_in_attempt(point) {
        here(armed, Point::AtCutModifyBeforeAttemptCompletion)
    } else {
        here(armed, Point::Hook(Hook::ModifyBeforeCompletion))
    }
}

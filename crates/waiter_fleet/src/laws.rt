//! What holds of every run of a fleet. The functions do nothing: their contracts are the laws. The
//! last event stands first.
ghost use Rattle.std.specs.Prelude.{◌≡◌, ◌+◌, ◌*◌, ◌/◌, ◌<◌, ◌≤◌, ℕ, Some, ◌∷◌, ◌++◌, List};
ghost use Rattle.std.specs.Prelude.{slice_get};
ghost use Rattle.smithy_types.specs.declared.fault.Fault.{Fault};
ghost use Rattle.smithy_types.specs.declared.http.HttpResponse.{HttpResponse};
ghost use Rattle.waiters.specs.Delay.{second};
ghost use Rattle.waiters.specs.Walk.{Accepts, Ends, IsWalk};
ghost use Rattle.waiters.specs.Walk.{End as WalkEnd};
ghost use Rattle.retry_quota.specs.Book.{Book, IsBalanced, cost_of, ready};
ghost use Rattle.retry_quota.specs.History.{IsLegal, end_of};
ghost use Rattle.waiter_fleet.specs.declared.event.FleetEnd.{FleetEnd};
ghost use Rattle.waiter_fleet.specs.declared.event.FleetEvent.{FleetEvent};
ghost use Rattle.waiter_fleet.specs.declared.event.Seen.{Seen};
ghost use Rattle.smithy_types.specs.declared.acceptor.AcceptorState.{AcceptorState};
ghost use Rattle.smithy_types.specs.declared.payload.Payload.{Payload};
ghost use Rattle.waiter_fleet.specs.Events.{book_after, charges, ended, polls};
ghost use Rattle.waiter_fleet.specs.Fleet.{IsFleet};
ghost use Rattle.waiter_fleet.specs.Laws.{PaysItsPolls, RunsAreDetermined, charged_in_all};
ghost use Rattle.waiter_fleet.specs.Laws.{steps_of};
ghost use Rattle.waiter_fleet.specs.Seats.{plan_of};
ghost use Rattle.waiter_fleet.specs.Walks.{Accepted, IsLast, Names, last_events, own_events};
ghost use Rattle.waiter_fleet.specs.Walks.{result_of, spelled, turns_of, walk_of};

use crate::event::FleetEvent;
use crate::plan::Plan;
use crate::world::FleetWorld;
use smithy_types::{AcceptorState, ErrorKind, Payload};
use waiters::Backoff;

/// The bucket's steps are one acquire for each charge and each refusal, with a forget behind each
/// charge; each reply is that of the book, which stands behind them as the fleet leaves it.
pub fn steps_are_legal(plans: &[Plan])
    ensures legal { (book : Book) (start : ℕ) (events : List FleetEvent) →
        IsFleet plans.now book start events →
        IsLegal book (steps_of (cost_of ErrorKind.ServerError book) events) }
    ensures ends { (book : Book) (start : ℕ) (events : List FleetEvent) →
        IsFleet plans.now book start events →
        end_of book (steps_of (cost_of ErrorKind.ServerError book) events) ≡
        book_after book events }
{}

/// The cost times the number of charges is what was forgotten, and at most what the bucket opened
/// with and was granted.
pub fn charges_are_forgotten(plans: &[Plan])
    ensures forgotten { (book : Book) (start : ℕ) (events : List FleetEvent) →
        IsFleet plans.now book start events →
        (book_after book events).forgotten ≡ book.forgotten + cost_of ErrorKind.ServerError book
        * charged_in_all events }
    ensures bounded { (book : Book) (start : ℕ) (events : List FleetEvent) →
        IsFleet plans.now book start events → IsBalanced book →
        cost_of ErrorKind.ServerError book * charged_in_all events ≤
        (book_after book events).capacity + (book_after book events).granted }
{}

/// A poll is refused exactly where fewer tokens were available than it costs, once the time since
/// the last refill counted and whole tokens left the fraction.
pub fn refusals_are_exact(plans: &[Plan])
    ensures refused { (book : Book) (start waiter cost moment : ℕ) (before : List FleetEvent) →
        IsFleet plans.now book start (FleetEvent.Refused waiter cost moment ∷ before) →
        (ready (moment / second) (book_after book before)).available < cost }
    ensures charged { (book : Book) (start waiter moment : ℕ) (before : List FleetEvent) →
        IsFleet plans.now book start (FleetEvent.Charged waiter moment ∷ before) →
        cost_of ErrorKind.ServerError book ≤
        (ready (moment / second) (book_after book before)).available }
{}

/// A waiter's own polls, sleeps and ends are those of its turns, and behind them nothing, one poll,
/// one poll that ended it, or the refusal of its next one.
pub fn own_events_are_spelled(plans: &[Plan])
    ensures spelled { (book : Book) (start waiter : ℕ) (events : List FleetEvent) →
        IsFleet plans.now book start events →
        own_events waiter events ≡ last_events waiter events
        ++ spelled start waiter (turns_of waiter events) }
    ensures last { (book : Book) (start waiter : ℕ) (events : List FleetEvent) →
        IsFleet plans.now book start events →
        IsLast waiter (last_events waiter events) }
{}

/// The turns of a waiter, each a poll with the sleep behind it, are a walk of its plan.
pub fn own_turns_are_a_walk<F>(plans: &[Plan], backoff: &Backoff, acceptor: &F)
where
    F: Fn(Result<&Payload, &Payload>) -> AcceptorState,
    ensures { (book : Book) (start waiter : ℕ) (events : List FleetEvent) (fault : Fault)
        (response : HttpResponse) →
        IsFleet plans.now book start events →
        slice_get plans.now waiter ≡ Some (plan_of backoff.now) →
        Accepted fault response (F.post acceptor.now) (turns_of waiter events) →
        IsWalk backoff.now (F.post acceptor.now) start
        (walk_of fault response (turns_of waiter events)) }
{}

/// A waiter has one charge for each of its polls but the first. It has one more only where it
/// hasn't ended, and so ends unfinished.
pub fn charges_are_those_of_polls(plans: &[Plan])
    ensures { (book : Book) (start waiter : ℕ) (events : List FleetEvent) →
        IsFleet plans.now book start events →
        PaysItsPolls (charges waiter events) (polls waiter events) (ended waiter events) }
{}

/// The poll that ends a waiter ends the walk of its plan behind the waiter's turns, and with the
/// same.
pub fn own_end_is_that_of_the_walk<F>(plans: &[Plan], backoff: &Backoff, acceptor: &F)
where
    F: Fn(Result<&Payload, &Payload>) -> AcceptorState,
    ensures { (book : Book) (start waiter number moment : ℕ) (seen : Seen) (state : AcceptorState)
        (ending : FleetEnd)
        (earlier : List FleetEvent) (fault : Fault) (response : HttpResponse) →
        IsFleet plans.now book start
        (FleetEvent.End waiter ending ∷ FleetEvent.Poll waiter number moment seen state
        ∷ earlier) →
        slice_get plans.now waiter ≡ Some (plan_of backoff.now) →
        Accepts (F.post acceptor.now) (result_of fault response seen) state →
        (last : WalkEnd Payload Payload) × Names ending last
        × Ends backoff.now (F.post acceptor.now) start
        (walk_of fault response (turns_of waiter earlier))
        (record {
          pending = 0;
          result = result_of fault response seen;
          state = state;
          moment = moment;
        }) last }
{}

/// Over a world whose answers follow from what it was, a fleet's run is determined: two that begin
/// alike have the same events, and leave the same bucket.
pub fn runs_are_determined<W: FleetWorld>()
    ensures { RunsAreDetermined W.does W.waits }
{}

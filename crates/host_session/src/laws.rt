//! What holds of every session. Each law is the contract of a function that does nothing.
ghost use Rattle.std.specs.Prelude.{◌≡◌, ℕ, List, Option, None, slice_get};
ghost use Rattle.retry_policy.specs.Verdict.{verdict_of};
ghost use Rattle.smithy_context.specs.declared.context.InterceptorContext.{InterceptorContext};
ghost use Rattle.host_session.specs.declared.seat.Seat.{Seat};
ghost use Rattle.host_session.specs.declared.seat.SeatRun.{SeatRun};
ghost use Rattle.host_session.specs.declared.seat.SeatTerms.{SeatTerms};
ghost use Rattle.host_session.specs.declared.session.Fed.{Fed};
ghost use Rattle.host_session.specs.declared.session.Session.{Session};
ghost use Rattle.host_session.specs.declared.service.retry_after.RetryAfterClassifier.{RetryAfterClassifier};
ghost use Rattle.host_session.specs.Classifiers.{classifiers_with, hosted_says};
ghost use Rattle.host_session.specs.Feeding.{Feeds};
ghost use Rattle.host_session.specs.Laws.{AreUnderWay, IsNotFor, TellsItsRun};
ghost use Rattle.host_session.specs.RetryAfter.{asked_by, delayed};
ghost use Rattle.host_session.specs.Running.{IsGoing};
ghost use Rattle.host_session.specs.Seats.{GoesOnAs};

use crate::world::{HostedMeans, HostedWorld};
use retry_policy::ClassifyRetry;
use smithy_types::RetryAction;

/// Whatever a host says, at each seat where a run is under way the log is what it has made so far.
pub fn the_log_is_the_run<W: HostedWorld>()
    ensures { (bytes : List ℕ) (old new : Session W) (before text : List ℕ) (come : Fed) →
        Feeds ⟦<W as HostedMeans>⟧.means bytes old before new text
        come →
        AreUnderWay W.calls old.seats.items → AreUnderWay W.calls new.seats.items }
{}

/// A seat is touched by the lines that are for it alone.
pub fn a_seat_keeps_what_is_for_others<W: HostedWorld>()
    ensures { (bytes : List ℕ) (seat : ℕ) (old new : Session W) (before text : List ℕ)
        (come : Fed) →
        Feeds ⟦<W as HostedMeans>⟧.means bytes old before new text
        come →
        IsNotFor seat bytes →
        slice_get new.seats.items seat ≡ slice_get old.seats.items seat }
{}

/// What is told of a run that is over is the ending of one run by as many calls as it made, at most
/// its fuel.
pub fn a_run_is_told<W: HostedWorld>()
    ensures { (run : SeatRun) (old : W) (terms : SeatTerms) (new : Seat W)
        (before text : List ℕ) →
        GoesOnAs ⟦<W as HostedMeans>⟧.means run old terms before
        new text →
        IsGoing run (W.calls old) → new.run ≡ None →
        TellsItsRun terms.number run (W.calls new.world) before text }
{}

/// Where a client's own classifiers indicate a retry, all of them together indicate it with the delay
/// that the response asks for, if it asks for one. Any other verdict of its own is left.
pub fn a_retry_waits_as_the_response_asks<C: ClassifyRetry>()
    ensures { (own : List C) (retry_after : Option RetryAfterClassifier) (context :
        InterceptorContext) → verdict_of (hosted_says C.says) context
        (classifiers_with own retry_after) RetryAction.NoActionIndicated ≡
        delayed (asked_by retry_after context.view.response) (verdict_of C.says context own
        RetryAction.NoActionIndicated) }
{}

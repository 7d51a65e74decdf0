//! A scripted outside determines what it answers and what it leaves, want of memory aside: the same
//! call from the same state, answered twice, has one answer and one state after.
ghost use Rattle.std.specs.Prelude.{ℕ, List, Ok};
ghost use Rattle.smithy_context.specs.StandingLayers.{StandingLayers};
ghost use Rattle.smithy_types.specs.declared.http.HttpRequest.{HttpRequest};
ghost use Rattle.smithy_types.specs.declared.timers.TimersCall.TheVariants.{Now, Start};
ghost use Rattle.smithy_types.specs.declared.timers.TimersCall.TheVariants.{Ready, GiveUp};
ghost use Rattle.outside.specs.Calls.{OfTimers, Begin, Poll, Frame, DropCall};
ghost use Rattle.outside.specs.Calls.{Resolve, DropResolve, Word, Poison, Park};
ghost use Rattle.outside_scripted.specs.Determined.{IsDetermined};

/// Its clock and its sleeps are determined.
pub fn timers_are_determined()
    ensures now { IsDetermined (λ moment. OfTimers (Now moment)) }
    ensures start { (nanos : ℕ) → IsDetermined (λ sleep. OfTimers (Start nanos (Ok sleep))) }
    ensures ready { (sleep : ℕ) → IsDetermined (λ is_over. OfTimers (Ready sleep is_over)) }
    ensures give_up { (sleep : ℕ) → IsDetermined (λ (done : Unit {0}). OfTimers (GiveUp sleep)) }
{}

/// What comes of a request is determined.
pub fn responses_are_determined()
    ensures begin { (request : HttpRequest) (settings : StandingLayers) →
        IsDetermined (λ done. Begin request settings (Ok done)) }
    ensures poll { IsDetermined (λ answer. Poll (Ok answer)) }
    ensures frame { IsDetermined (λ polled. Frame (Ok polled)) }
    ensures drop_call { IsDetermined (λ (done : Unit {0}). DropCall) }
{}

/// What else is asked is determined, and where a park leads.
pub fn the_rest_is_determined()
    ensures resolve { (id : List ℕ) → IsDetermined (λ answer. Resolve id (Ok answer)) }
    ensures drop_resolve { IsDetermined (λ (done : Unit {0}). DropResolve) }
    ensures word { IsDetermined Word }
    ensures poison { (number : ℕ) → IsDetermined (λ (done : Unit {0}). Poison number) }
    ensures park { IsDetermined (λ (done : Unit {0}). Park) }
{}

//! What holds of every hosted outside. Each law is the contract of a function that does nothing.
ghost use Rattle.std.specs.Prelude.{◌≡◌, ℕ, ◌+◌, ◌≤◌, false, true, List, None, Some, Ok, sum_by};
ghost use Rattle.std.specs.List.{AllByRecursion};
ghost use Rattle.smithy_context.specs.StandingLayers.{StandingLayers};
ghost use Rattle.smithy_types.specs.Chain.{Chained};
ghost use Rattle.smithy_types.specs.declared.http.HttpRequest.{HttpRequest};
ghost use Rattle.smithy_types.specs.declared.timers.TimersCall.TheVariants.{Now, Start, Ready};
ghost use Rattle.outside.specs.Calls.{OutsideCall, OfTimers, Begin, Poll, Frame, Park, Resolve, Word};
ghost use Rattle.outside_hosted.specs.declared.events.HostEvent.TheVariants as event;
ghost use Rattle.outside_hosted.specs.declared.events.HostFrame.{HostFrame};
ghost use Rattle.outside_hosted.specs.declared.events.HostIdentity.{HostIdentity};
ghost use Rattle.outside_hosted.specs.declared.events.HostReply.{HostReply};
ghost use Rattle.outside_hosted.specs.declared.hosted_outside.HostedOutside.{HostedOutside};
ghost use Rattle.outside_hosted.specs.Call.{open_call, order_left};
ghost use Rattle.outside_hosted.specs.Determined.{Tells};
ghost use Rattle.outside_hosted.specs.Handing.{handed};
ghost use Rattle.outside_hosted.specs.Makes.{Makes};
ghost use Rattle.outside_hosted.specs.Steps.{HostStep, Steps, begins, bytes_left, bytes_out};
ghost use Rattle.outside_hosted.specs.Steps.{hands_out, is_unknown, open_load, opens};
ghost use Rattle.outside_hosted.specs.Telling.{after_told};

/// What a hosted outside answers, and what it is then, follows from what it was and from what it is
/// asked, want of memory aside.
pub fn answers_follow()
    ensures moves { (old new other : HostedOutside) (call : OutsideCall) →
        Makes old call new → Makes old call other → new ≡ other }
    ensures now { Tells (λ moment. OfTimers (Now moment)) }
    ensures start { (nanos : ℕ) → Tells (λ sleep. OfTimers (Start nanos (Ok sleep))) }
    ensures ready { (sleep : ℕ) → Tells (λ is_over. OfTimers (Ready sleep is_over)) }
    ensures poll { Tells (λ answer. Poll (Ok answer)) }
    ensures frame { Tells (λ answer. Frame (Ok answer)) }
    ensures resolve { (id : List ℕ) → Tells (λ answer. Resolve id (Ok answer)) }
    ensures word { Tells Word }
{}

/// What comes of a call or of a load that isn't open changes nothing.
pub fn what_is_not_open_is_let_go()
    ensures reply { (old : HostedOutside) (call : ℕ) (come : HostReply) →
        (open_call old.call ≡ Some call → ⊥) → handed (event.Reply call come) old ≡ old }
    ensures frame { (old : HostedOutside) (call : ℕ) (frame : HostFrame) →
        (open_call old.call ≡ Some call → ⊥) → handed (event.Frame call frame) old ≡ old }
    ensures load { (old : HostedOutside) (id : List ℕ) (come : HostIdentity) →
        (open_load old.load ≡ Some id → ⊥) → handed (event.Load id come) old ≡ old }
{}

/// What comes of a request or of a load a second time changes nothing.
pub fn second_answers_are_let_go()
    ensures reply { (old : HostedOutside) (call : ℕ) (come later : HostReply) →
        handed (event.Reply call later) (handed (event.Reply call come) old)
        ≡ handed (event.Reply call come) old }
    ensures load { (old : HostedOutside) (id : List ℕ) (come later : HostIdentity) →
        handed (event.Load id later) (handed (event.Load id come) old)
        ≡ handed (event.Load id come) old }
{}

/// A request is new to the host until it is told, and never again before a call is begun. A load is
/// so until it is told, and never again before one is opened.
pub fn news_is_told_once()
    ensures order { (old : HostedOutside) → order_left (after_told old).call ≡ None }
    ensures no_order { (old new : HostedOutside) (step : HostStep) → begins step ≡ false →
        Steps old step new → order_left old.call ≡ None → order_left new.call ≡ None }
    ensures load { (old : HostedOutside) → is_unknown (after_told old).load ≡ false }
    ensures no_load { (old new : HostedOutside) (step : HostStep) → opens old.load step ≡ false →
        Steps old step new → is_unknown old.load ≡ false → is_unknown new.load ≡ false }
{}

/// From when a call is begun until the next one is, at most 16384 bytes of its body's data are
/// handed out, whatever the host hands in.
pub fn bodies_are_bounded()
    ensures step { (old new : HostedOutside) (step : HostStep) → begins step ≡ false →
        Steps old step new → bytes_out step + bytes_left new.call ≤ bytes_left old.call }
    ensures call { (old begun new : HostedOutside) (request : HttpRequest)
        (settings : StandingLayers) (done : Unit {0}) (steps : List HostStep) →
        Makes old (Begin request settings (Ok done)) begun →
        AllByRecursion (λ step. begins step ≡ false) steps →
        Chained Steps begun steps new → sum_by bytes_out steps ≤ 16384 }
{}

/// A client that parks, and then is handed nothing of what came, waits at its next park, whatever
/// the host hands in. So no run goes on without end while nothing moves.
pub fn parks_wait()
    ensures { (parking parked old new : HostedOutside) (steps : List HostStep) →
        Makes parking Park parked →
        Chained Steps parked steps old →
        AllByRecursion (λ step. hands_out step ≡ false) steps →
        Makes old Park new → new.is_parked ≡ true }
{}

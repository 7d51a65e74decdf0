//! What holds of every invocation and of every answer. Each law is the contract of a function
//! without a body.
ghost use Rattle.std.specs.Prelude.{◌≡◌, ◌++◌, ℕ, List, Ok, Result, true};
ghost use Rattle.smithy_context.specs.declared.context.InterceptorContext.{InterceptorContext};
ghost use Rattle.smithy_types.specs.declared.kinds.StopPoint.{StopPoint};
ghost use Rattle.smithy_types.specs.declared.kinds.StopPoint.TheVariants as stops;
ghost use Rattle.smithy_types.specs.declared.payload.Payload.{Payload};
ghost use Rattle.run_grammar.specs.declared.answer.Entry.{Entry};
ghost use Rattle.run_grammar.specs.Standing.{State, standing, start};
ghost use Rattle.run_grammar.specs.Laws.{Begins, IsWhole};
ghost use Rattle.orchestrate.specs.declared.execution.InvokeError.{InvokeError};
ghost use Rattle.orchestrate.specs.declared.invocation.Invocation.{Invocation};
ghost use Rattle.orchestrate.specs.Answered.{ContextAnswered, InputAnswered};
ghost use Rattle.orchestrate.specs.Answered.{OperationAnswered, PayloadAnswered};
ghost use Rattle.orchestrate.specs.Finish.{answer_of};
ghost use Rattle.orchestrate.specs.Handing.{HadMemory};
ghost use Rattle.orchestrate.specs.Refused.{ConfigurationsAreRefused};
ghost use Rattle.orchestrate.specs.SpelledRuns.{OneSpelledRun};
ghost use Rattle.orchestrate.specs.Stands.{Stands};

use smithy_types::Wire;

/// An invocation that stands at a list begins a run by it.
pub fn standing_begins_a_run()
    ensures { (s : State) (l : List Entry) (v : Invocation) → Stands s l v → Begins v.stop s l }
{}

/// Want of memory aside, the answer of a run is determined by the calls that were made and by
/// `fuel`, of one to its end and of one up to its stop point.
pub fn answers_are_determined()
    ensures contexts { (p : Payload) (stop : StopPoint) (fuel : ℕ) (before log : List Entry)
        (a b : Result InterceptorContext (InvokeError Payload)) → HadMemory a → HadMemory b →
        ContextAnswered p stop fuel a before log → ContextAnswered p stop fuel b before log →
        a ≡ b }
    ensures payloads { (p : Payload) (fuel : ℕ) (before log : List Entry)
        (a b : Result Payload (InvokeError Payload)) → HadMemory a → HadMemory b →
        PayloadAnswered p fuel a before log → PayloadAnswered p fuel b before log → a ≡ b }
{}

/// Want of memory aside, the answer of an operation is determined by the calls that it made and by
/// `fuel`, whatever its input was.
pub fn an_operations_answers_are_determined<I: Wire, O: Wire, E: Wire>()
    ensures { (i j : I) (fuel : ℕ) (before log : List Entry) (a b : Result O (InvokeError E)) →
        HadMemory a → HadMemory b →
        InputAnswered I.accepts I.reads_as O.accepts O.reads_as E.accepts E.reads_as i fuel a
        before log →
        InputAnswered I.accepts I.reads_as O.accepts O.reads_as E.accepts E.reads_as j fuel b
        before log → a ≡ b }
{}

/// Want of memory aside, an operation whose calls are a whole run with an output that its type
/// accepts answers that output.
pub fn acceptable_outputs_are_answered<O: Wire, E: Wire>()
    ensures { (p o : Payload) (fuel : ℕ) (before l : List Entry) (r : Result O (InvokeError E)) →
        HadMemory r →
        OperationAnswered O.accepts O.reads_as E.accepts E.reads_as p fuel r before (before ++ l) →
        IsWhole stops.None (start p) l →
        answer_of (standing (start p) l).context.context ≡ Ok o → O.accepts o ≡ true →
        (x : O) × (r ≡ Ok x) × O.reads_as o x }
{}

/// A list of answers spells at most one run: whole within `fuel` calls, or of `fuel` calls that
/// begin a run and are no whole one.
pub fn a_script_spells_one_run()
    ensures { OneSpelledRun }
{}

/// A whole run with a Configure that isn't answered Layer has a ConstructionFailure for its answer.
pub fn a_failed_configuration_is_a_construction_failure()
    ensures { ConfigurationsAreRefused }
{}

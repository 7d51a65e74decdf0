//! What holds of all runs. Each law is the contract of a function without a body.
ghost use Rattle.std.specs.Prelude.{List, ◌↔◌};
ghost use Rattle.smithy_types.specs.declared.kinds.StopPoint.{StopPoint};
ghost use Rattle.run_grammar.specs.declared.answer.Entry.{Entry};
ghost use Rattle.run_grammar.specs.Standing.{State};
ghost use Rattle.run_grammar.specs.Grammar.{run};
ghost use Rattle.run_grammar.specs.Machine.{Accepts, begin};
ghost use Rattle.run_grammar.specs.Cases.{RunCases};
ghost use Rattle.run_grammar.specs.Laws.{BegunAreTaken, GoesOn, IsRun, NoPrefix, OneQuestion};
ghost use Rattle.run_grammar.specs.Laws.{SomeAnswerFits};
ghost use Rattle.run_grammar.specs.Outcomes.{OutcomeStands, RequestOrOutcomeStands};
ghost use Rattle.run_grammar.specs.Attempts.{AttemptsComplete};
ghost use Rattle.run_grammar.specs.HookRow.{HookRow};
ghost use Rattle.run_grammar.specs.Breaks.{NoLateQuestion, NoMissingFinalizers, NoOpenAttempt};
ghost use Rattle.run_grammar.specs.Finals.{FinalizersOnce};
ghost use Rattle.run_grammar.specs.Scopes.{AttemptScopesEnd, OperationScopesEnd};
ghost use Rattle.run_grammar.specs.Refusals.{ConfigurationsEnd};
ghost use Rattle.run_grammar.specs.Tokens.{TokensStand};
ghost use Rattle.run_grammar.specs.Sendings.{TransmitsHaveRequests};

/// A list is a run exactly where the machine that takes one entry at a time accepts it.
pub fn runs_are_accepted()
    ensures { (stop : StopPoint) (s : State) (l : List Entry) → IsRun stop s l
        ↔ Accepts (begin (run stop) s) s l }
{}

/// A run is one of four: a configuration that ended early; one that left a failure, and the
/// finalizers; the operation, and the finalizers; the operation up to its deadline's cut.
pub fn four_cases()
    ensures { (stop : StopPoint) (s : State) (l : List Entry) → IsRun stop s l ↔ RunCases stop s l }
{}

/// No whole list is a proper prefix of another, for the same input and stop point.
pub fn no_whole_list_is_a_prefix()
    ensures { NoPrefix }
{}

/// Two entries that continue one list, so that both lists begin a run, have the same question.
pub fn one_question_continues()
    ensures { OneQuestion }
{}

/// A list that begins a run is whole, or goes on by each fitting answer of its one question; and
/// each question has a fitting answer.
pub fn a_begun_list_goes_on()
    ensures goes_on { GoesOn }
    ensures answerable { SomeAnswerFits }
{}

/// At the end of a whole run without a stop point an output or a failure stands.
pub fn an_outcome_stands()
    ensures { OutcomeStands }
{}

/// At the end of a whole run, to its stop point too, a request stands, or an output or a failure.
pub fn a_request_or_an_outcome_stands()
    ensures { RequestOrOutcomeStands }
{}

/// In a whole list no completion hook of an attempt comes before the first attempt; and from each
/// `read_before_attempt` up to the next one `modify_before_attempt_completion` and
/// `read_after_attempt` come once each, in this order, also where a deadline cut the attempt.
pub fn attempts_complete()
    ensures { AttemptsComplete }
{}

/// A whole list whose Configures all answered Layer ends with `modify_before_completion` and
/// `read_after_execution`, and has neither of them before.
pub fn both_finalizers_once()
    ensures { FinalizersOnce }
{}

/// Where a deadline answered Ready in a whole list, next comes the Abandon of what was pending.
/// After the attempt's deadline the two completion hooks follow, and no question of an attempt up
/// to the next `read_before_attempt`. After the operation's they follow only where an attempt is
/// open, then the two finalizers, and nothing more.
pub fn scopes_end()
    ensures of_attempts { AttemptScopesEnd }
    ensures of_operations { OperationScopesEnd }
{}

/// Lists that break one of these laws are not whole: an attempt is begun and no completion hook
/// follows; no finalizer is asked, though each Configure answered Layer; or a question of an
/// attempt is asked behind the entry after a deadline's Ready.
pub fn broken_lists_are_not_whole()
    ensures open_attempt { NoOpenAttempt }
    ensures missing_finalizers { NoMissingFinalizers }
    ensures late_question { NoLateQuestion }
{}

/// A list begins a run exactly where the machine asks each of its questions, each is handed what
/// stands before it, and each answer fits. So one pass over a list decides both: it begins a run
/// where each entry is taken, and it is whole where the machine then has nothing more to ask.
pub fn begun_lists_are_taken()
    ensures { BegunAreTaken }
{}

/// In a whole list, where the standing retry configuration has a spec of version 2.1 when an
/// attempt begins, the entry before it, but for the Start of its deadline, is an Initial that was
/// answered Go or No. So each attempt has the answer to a grant of its own, the first too.
pub fn tokens_stand()
    ensures { TokensStand }
{}

/// A Configure that isn't answered Layer is the last entry of a whole list, and leaves an untyped
/// failure in the phase before serialization.
pub fn configurations_end()
    ensures { ConfigurationsEnd }
{}

/// A hook's row is that of the chains below: its view afterwards is what a chain's next
/// interceptor sees, and its text is the failure that then stands.
#[tactic(auto, using(crate::proofs::HookLaw::hook_row))]
pub fn a_hook_leaves_what_its_chain_shows()
    ensures { HookRow }
{}

/// In a list that begins a run each Transmit is handed a request.
pub fn transmits_have_requests()
    ensures { TransmitsHaveRequests }
{}

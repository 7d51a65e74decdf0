//! Sample runs, shown call by call over any requests, responses and payloads. Each is the contract
//! of a function without a body.
ghost use Rattle.run_grammar.specs.SampleRuns.{OneAttemptSucceeds, ConfigurationFails};
ghost use Rattle.run_grammar.specs.SampleRuns.{FirstHookFails, TransmitFails, BodyFails};
ghost use Rattle.run_grammar.specs.SampleRuns.{StopsBeforeTransmit, OperationCuts};
ghost use Rattle.run_grammar.specs.SampleRuns.{OperationCutsLater, OperationCutsAttempt};
ghost use Rattle.run_grammar.specs.SampleRuns.{AttemptCut, Retries, OperationCutsPause, SentOnce};
ghost use Rattle.run_grammar.specs.SampleRuns.{GrantedLater};
ghost use Rattle.run_grammar.specs.TokenRuns.{TokenDelays, TokenRefused, TokenFails, TokenUnslept};
ghost use Rattle.run_grammar.specs.TokenRuns.{RefusalPauses, RefusalUnslept, TokenCut, PauseCut};

/// Runs of one attempt, and runs that never come to one: their calls, how many they are, and the
/// outcome at the end.
pub fn single_attempts()
    ensures succeeds { OneAttemptSucceeds }
    ensures configuration_fails { ConfigurationFails }
    ensures first_hook_fails { FirstHookFails }
    ensures transmit_fails { TransmitFails }
    ensures body_fails { BodyFails }
    ensures stops { StopsBeforeTransmit }
    ensures granted_later { GrantedLater }
{}

/// Runs that a deadline cuts. The operation's deadline that cuts an attempt is followed by the
/// attempt's completion hooks, whether the attempt has a deadline or not.
pub fn cuts()
    ensures operation { OperationCuts }
    ensures operation_later { OperationCutsLater }
    ensures operation_in_attempt { OperationCutsAttempt }
    ensures attempt { AttemptCut }
    ensures operation_in_pause { OperationCutsPause }
{}

/// Runs in which a further attempt was asked for.
pub fn further_attempts()
    ensures retries { Retries }
    ensures sent_once { SentOnce }
{}

/// Runs under Retry Behavior 2.1: a further attempt's token that is delayed, refused or fails, or
/// whose delay has no sleep; a pause after a refused attempt, with a sleep and without one; and
/// the operation's deadline that cuts a token's wait or such a pause, which runs no hook of an
/// attempt.
pub fn tokens_and_pauses()
    ensures token_delays { TokenDelays }
    ensures token_refused { TokenRefused }
    ensures token_fails { TokenFails }
    ensures token_unslept { TokenUnslept }
    ensures refusal_pauses { RefusalPauses }
    ensures refusal_unslept { RefusalUnslept }
    ensures token_cut { TokenCut }
    ensures pause_cut { PauseCut }
{}

//! What holds of every caller. The functions do nothing: their contracts are the laws.
ghost use Rattle.cli_fleet.specs.Steps.{RunsTellSteps, StepsAreDecisions};

/// The steps that a caller makes are those of its decisions, in order, with the replies that their
/// notes show, and last the giving back of a permit that it still holds.
pub fn a_callers_steps_are_its_decisions()
    ensures { StepsAreDecisions }
{}

/// What a caller's invocations asked and were answered tells its steps: the same decisions at a
/// bucket of the same terms make no others.
pub fn a_callers_runs_tell_its_steps()
    ensures { RunsTellSteps }
{}

//! Which prints are in reach. Each law is the contract of a function without a body.
ghost use Rattle.runcheck.specs.Laws.{EndedRunsAreReached, PrintsAreTold, UnfinishedRunsAreNot};
ghost use Rattle.runcheck.specs.Laws.{WholeRunsAreReached};

/// A print whose data a text carries is read as what it was printed for, however its run ended.
pub fn prints_are_told()
    ensures { PrintsAreTold }
{}

/// The print of a whole run of at most its fuel, and of its answer, is one that `check` answers
/// Yes to, where a text carries its data.
pub fn whole_runs_are_reached()
    ensures { WholeRunsAreReached }
{}

/// What the run of an operation prints is answered Yes where it ended with an answer, and No where
/// its fuel was used up, where a text carries its data.
pub fn runs_of_operations_are_reached()
    ensures ended { EndedRunsAreReached }
    ensures unfinished { UnfinishedRunsAreNot }
{}

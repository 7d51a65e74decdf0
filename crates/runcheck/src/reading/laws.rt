//! How much a position takes.
ghost use Rattle.smithy_types.specs.declared.kinds.StopPoint.{StopPoint};
ghost use Rattle.run_grammar.specs.Grammar.{run};
ghost use Rattle.runcheck.specs.Reading.Depth.{FewFrames, IsWithin};

/// However long the list, at most so many frames are left around a question as productions stand
/// in one another.
pub fn frames_are_few()
    ensures { FewFrames }
{}

/// In a run at most ten.
pub fn frames_of_a_run()
    ensures { (stop : StopPoint) → IsWithin 10 (run stop) }
{}

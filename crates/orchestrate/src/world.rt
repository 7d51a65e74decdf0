//! What answers the questions of a run.
use run_grammar::{Answer, Question};
use smithy_types::OutOfMemory;
use std::alloc::Global;

/// Everything outside of the engine: settings, interceptors, serializers, identities, the
/// connector, clocks and the retry strategy. It keeps a log of what it was asked and answered.
pub trait World {
    ghost use Rattle.std.specs.Prelude.{◌≡◌, List, [], ◌∷◌, ◌++◌, true, IfOk, OnErr};
    ghost use Rattle.run_grammar.specs.declared.answer.Entry.{Entry};
    ghost use Rattle.run_grammar.specs.Entry.{entry};
    ghost use Rattle.run_grammar.specs.Fits.{fits};
    ghost use Rattle.run_grammar.specs.Question.{kind_of_question};
    ghost use Rattle.orchestrate.specs.Asking.{Unanswered};

    /// The log: each question with its answer, in order.
    ghost calls: { Self → List Entry };

    /// What a list of entries makes of the world before it.
    ghost relates: { Self → List Entry → Self → Type 0 };

    /// Answers one question. The log grows by the question with the answer, which fits it. Where
    /// there is no memory the log grows by the question with `NoMemory`, or stays as it was; in the
    /// latter case all of the world stays as it was.
    fn ask(&mut self, alloc: Global, question: Question) -> Result<Answer, OutOfMemory>
        ensures told { IfOk result (λ a. calls self.new ≡ calls self.old ++ entry question a ∷ []) }
        ensures fitting { IfOk result (λ a. fits (kind_of_question question) a ≡ true) }
        ensures lost { OnErr result (Unanswered question (calls self.old) (calls self.new)) }
        ensures kept { OnErr result (calls self.new ≡ calls self.old → self.new ≡ self.old) }
        ensures related { IfOk result (λ a. (w : Self) (l : List Entry) → relates w l self.old →
            relates w (l ++ entry question a ∷ []) self.new) };

    /// No entry relates a world to itself.
    ghost relates_nothing: { (w : Self) → relates w [] w };
}

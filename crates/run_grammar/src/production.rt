//! The parts of the grammar that code reads.

ghost use Rattle.std.specs.Prelude.{◌≡◌, Some};
ghost use Rattle.run_grammar.specs.declared.answer.Entry.{Entry};
ghost use Rattle.run_grammar.specs.Entry.{kind_of};
ghost use Rattle.run_grammar.specs.Tests.{holds};

use crate::answer::Answer;
use crate::kind::{Kind, Role};
use crate::standing::Standing;
use smithy_types::Choice;

/// What the grammar tests: the last entry, or what stands.
#[derive(Clone, Copy, Debug, PartialEq, Eq)]
pub enum Test {
    /// The last entry fails.
    Failed,
    /// It was answered by a delay.
    Delayed,
    /// It grants a first attempt.
    Went,
    /// It is the answer to a grant that lets a further attempt go on, by Go or by No.
    WentOn,
    /// A sleep of this role was started.
    HasStarted(Role),
    /// The operation doesn't stream.
    NotStreaming,
    /// The body was read.
    BodyRead,
    /// A further attempt was decided.
    DecidedYes,
    /// No further attempt was decided, but a pause before the operation ends.
    DecidedNoAfter,
    /// A further attempt after a delay was decided.
    DecidedDelay,
    /// An endpoint stands.
    EndpointStands,
    /// The request's body is to be loaded into memory.
    LoadBody,
    /// There is a request that can be sent again.
    CheckpointStands,
    /// The outcome is a failure.
    FailureStands,
    /// The timeout of this role is set.
    TimeoutStands(Role),
    /// Each further attempt needs a token of its own.
    NeedsToken,
}

impl Test {
    /// Whether the test holds after an answer to a question of this kind; `standing` is what
    /// stands after it.
    #[tactic(auto, unfolding(crate::specs::Tests::failed, crate::specs::Tests::delayed, crate::specs::Tests::went, crate::specs::Tests::went_on, crate::specs::Tests::started, crate::specs::Tests::not_streaming, crate::specs::Tests::body_read, crate::specs::Tests::decided_yes, crate::specs::Tests::decided_no_after, crate::specs::Tests::decided_delay, crate::specs::Tests::endpoint_stands, crate::specs::Tests::load_body, crate::specs::Tests::checkpoint_stands, crate::specs::Tests::failure_stands, crate::specs::Tests::timeout_stands, crate::specs::Tests::token_needed, crate::specs::Entry::fails))]
    pub fn holds(self, kind: Kind, answer: &Answer, standing: &Standing) -> bool
        ensures { (e : Entry) → kind_of e ≡ kind → e.answer ≡ answer.now →
            result ≡ holds self (record { context = standing.now; last = Some e }) }
    {
        match self {
            Test::Failed => answer.fails(kind, standing.context.view.attempt),
            Test::Delayed => matches!(answer, Answer::Delay(_)),
            Test::Went => matches!(answer, Answer::Go),
            Test::WentOn => matches!(answer, Answer::Go | Answer::No),
            Test::HasStarted(role) => kind == Kind::Start(role)
                && matches!(answer, Answer::Started),
            Test::NotStreaming => matches!(answer, Answer::NotStreaming),
            Test::BodyRead => matches!(answer, Answer::Read(_)),
            Test::DecidedYes => matches!(answer, Answer::Decided(Choice::Yes, _)),
            Test::DecidedNoAfter => matches!(answer, Answer::Decided(Choice::NoAfter(_), _)),
            Test::DecidedDelay => matches!(answer, Answer::Decided(Choice::Delay(_), _)),
            Test::EndpointStands => standing.endpoint.is_some(),
            Test::LoadBody => standing.loads_body(),
            Test::CheckpointStands => standing.context.checkpoint.is_some(),
            Test::FailureStands => standing.context.is_failed(),
            Test::TimeoutStands(role) => standing.nanos_for(role).is_some(),
            Test::NeedsToken => standing.needs_token(),
        }
    }
}

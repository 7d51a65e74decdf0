//! What of an answer the way on depends on.
ghost use Rattle.std.specs.Prelude.{◌≡◌};
ghost use Rattle.orchestrate.specs.Replies.{reply_of, started_by, started_of};

use run_grammar::{Answer, Kind, Role};
use smithy_types::Choice;

/// What of an answer the way on depends on.
#[derive(Clone, Copy, Debug, PartialEq, Eq)]
pub struct Reply {
    pub pending: bool,
    pub failed: bool,
    pub delayed: bool,
    pub granted: bool,
    /// Whether a further attempt goes on by this answer to its token.
    pub goes_on: bool,
    /// The role of the sleep that was started.
    pub started: Option<Role>,
    pub not_streaming: bool,
    pub read: bool,
    pub again: bool,
    /// Whether no further attempt is made, but a pause.
    pub pauses: bool,
    pub again_later: bool,
}

impl Reply {
    /// What this answer to a question of this kind says, where the attempt of this number stands
    /// after it.
    pub fn of(kind: Kind, attempt: u64, answer: &Answer) -> Reply
        ensures { result ≡ reply_of kind attempt answer.now }
    {
        Reply {
            pending: kind.can_wait() && matches!(answer, Answer::Pending),
            failed: answer.fails(kind, attempt),
            delayed: matches!(answer, Answer::Delay(_)),
            granted: matches!(answer, Answer::Go),
            goes_on: matches!(answer, Answer::Go | Answer::No),
            started: started(kind, answer),
            not_streaming: matches!(answer, Answer::NotStreaming),
            read: matches!(answer, Answer::Read(_)),
            again: matches!(answer, Answer::Decided(Choice::Yes, _)),
            pauses: matches!(answer, Answer::Decided(Choice::NoAfter(_), _)),
            again_later: matches!(answer, Answer::Decided(Choice::Delay(_), _)),
        }
    }

    /// Whether a sleep of this role was started.
    pub fn has_started(&self, role: Role) -> bool
        ensures { result ≡ started_by self.now.started role }
    {
        match self.started {
            Some(other) => role.is(other),
            None => false,
        }
    }
}

// The role of a sleep that was started.
fn started(kind: Kind, answer: &Answer) -> Option<Role>
    ensures { result ≡ started_of kind answer.now }
{
    match kind {
        Kind::Start(role) => {
            if matches!(answer, Answer::Started) {
                Some(role)
            } else {
                None
            }
        }
        _ => None,
    }
}

//! Which answers fit which questions, and which of them fail.
ghost use Rattle.std.specs.Prelude.{◌≡◌, true};
ghost use Rattle.run_grammar.specs.Fits.{fits, is_late};
ghost use Rattle.run_grammar.specs.Entry.{hook_fails, sets_failure, writes_failure};

use crate::{Answer, Kind, Role};
use smithy_context::writes::writes_outcome;
use smithy_context::{Change, HookAnswer, HookReply};
use smithy_types::Outcome;

impl Answer {
    /// Whether the answer fits a question of this kind.
    #[tactic(auto, unfolding(crate::specs::Fits::fits))]
    pub fn fits(&self, kind: Kind) -> bool
        ensures { result ≡ fits kind self.now }
    {
        match kind {
            Kind::Configure(_) => {
                matches!(self, Answer::Layer(_) | Answer::Failed(_) | Answer::Absent)
            }
            Kind::Hook(_) => matches!(self, Answer::Hooked(_)),
            Kind::Serialize | Kind::Apply | Kind::Sign => {
                matches!(
                    self,
                    Answer::Request(_) | Answer::Failed(_) | Answer::Absent
                )
            }
            Kind::Load => matches!(
                self,
                Answer::Pending | Answer::Loaded(_) | Answer::Failed(_) | Answer::Absent
            ),
            Kind::Initial => matches!(
                self,
                Answer::Go | Answer::No | Answer::Delay(_) | Answer::Failed(_) | Answer::Absent
            ),
            Kind::Start(_) => matches!(self, Answer::Started | Answer::Absent),
            Kind::Wait(_) => matches!(self, Answer::Pending | Answer::Ready),
            Kind::Choose => matches!(
                self,
                Answer::Pending | Answer::Chosen(_) | Answer::Failed(_) | Answer::Absent
            ),
            Kind::Endpoint => matches!(
                self,
                Answer::Pending | Answer::Endpoint(_) | Answer::Failed(_) | Answer::Absent
            ),
            Kind::Transmit => matches!(
                self,
                Answer::Pending
                    | Answer::Response(_)
                    | Answer::ConnectorFailed(_, _)
                    | Answer::Absent
            ),
            _ => self.fits_late(kind),
        }
    }

    // The kinds behind Transmit.
    #[tactic(auto, unfolding(crate::specs::Fits::fits))]
    fn fits_late(&self, kind: Kind) -> bool
        requires { is_late kind ≡ true }
        ensures { result ≡ fits kind self.now }
    {
        match kind {
            Kind::Stream => {
                matches!(
                    self,
                    Answer::NotStreaming | Answer::Outcome(_) | Answer::Absent
                )
            }
            Kind::Body => matches!(
                self,
                Answer::Pending | Answer::Read(_) | Answer::Failed(_) | Answer::Absent
            ),
            Kind::Deserialize => matches!(self, Answer::Outcome(_) | Answer::Absent),
            Kind::Decide => {
                matches!(
                    self,
                    Answer::Decided(_, _) | Answer::Failed(_) | Answer::Absent
                )
            }
            Kind::Abandon(_) => matches!(self, Answer::Abandoned),
            _ => matches!(self, Answer::Parked),
        }
    }

    /// Whether the answer to a question of this kind sets a failure where the attempt of this
    /// number stands, 0 before the first. No fails at 0 alone.
    pub fn fails(&self, kind: Kind, attempt: u64) -> bool
        ensures { result ≡ sets_failure kind attempt self.now }
    {
        match self {
            Answer::Absent => !matches!(
                kind,
                Kind::Start(Role::Operation | Role::Attempt | Role::LongPoll)
            ),
            Answer::Failed(_) => true,
            Answer::ConnectorFailed(_, _) => true,
            Answer::No => attempt == 0,
            Answer::Hooked(reply) => reply_fails(kind, reply),
            Answer::Outcome(outcome) => matches!(outcome.get(), Outcome::Failed(_)),
            Answer::Ready => matches!(kind, Kind::Wait(Role::Operation | Role::Attempt)),
            _ => false,
        }
    }
}

// A hook that does nothing doesn't fail.
fn reply_fails(kind: Kind, reply: &HookReply) -> bool
    ensures { result ≡ hook_fails kind reply.now }
{
    match reply.did() {
        Some(answer) => hook_fails(kind, answer),
        None => false,
    }
}

// A hook fails by its text, and a completion hook also by the failure that it writes.
fn hook_fails(kind: Kind, answer: &HookAnswer) -> bool
    ensures { result ≡ hook_fails kind answer.now }
{
    if answer.failure.is_some() {
        return true;
    }
    match kind {
        Kind::Hook(hook) => writes_outcome(hook) && writes_failure(&answer.change),
        _ => false,
    }
}

fn writes_failure(written: &Option<Change>) -> bool
    ensures { result ≡ writes_failure written.now }
{
    match written {
        Some(Change::Outcome(outcome)) => matches!(outcome.get(), Outcome::Failed(_)),
        _ => false,
    }
}

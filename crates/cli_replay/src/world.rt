//! The world of a replay: it answers from the script's list, and knows what is left of it.
ghost use Rattle.std.specs.Prelude.{◌≡◌, [], true, IsTrue, IfOk, length, option_copied};
ghost use Rattle.run_grammar.specs.Fits.{fits};
ghost use Rattle.run_grammar.specs.declared.answer.Answer.{Answer};
ghost use Rattle.orchestrate.specs.Script.{default_for, next_of, left_by, RepliesBy};
ghost use Rattle.cli_replay.specs.LeftOver.{IsLeft};
ghost use Rattle.cli_replay.specs.Taking.{until_by};

use crate::left_over::{LeftOver, missed_in};
use orchestrate::{ScriptAnswer, World};
use run_grammar::{Answer, Entry, Kind, Question};
use smithy_context::HookReply;
use smithy_types::{List, OutOfMemory};
use std::alloc::Global;
use std::marker::Model;

// Answers that are taken one by one. The vector has the last one first, so that the next one can
// be moved out at its end.
#[derive(Drop)]
struct AnswerQueue {
    last_first: Vec<ScriptAnswer>,
}

impl Model for AnswerQueue {
    ghost use Rattle.std.specs.Prelude.{List};
    ghost use Rattle.orchestrate.specs.declared.script.ScriptAnswer.{ScriptAnswer};
    ghost use Rattle.orchestrate.specs.ScriptValue.{in_order};

    ghost Value = { List ScriptAnswer };

    ghost view = { λ q. in_order q.last_first };
}

impl AnswerQueue {
    fn new(alloc: Global, answers: List<ScriptAnswer>) -> AnswerQueue
        ensures { result ≡ answers }
    {
        let mut last_first = answers.into_vec(alloc);
        last_first.as_mut_slice().reverse();
        AnswerQueue { last_first }
    }

    // The next answer, which stays.
    #[tactic(auto, using(orchestrate::proofs::QueueLemmas::last_is_next))]
    fn peek(&self) -> Option<&ScriptAnswer>
        ensures { option_copied result ≡ next_of self.now }
    {
        self.last_first.as_slice().last()
    }

    // How many there are.
    fn len(&self) -> usize
        ensures { result ≡ length self.now }
    {
        self.last_first.len()
    }

    // The next answer, which is moved out.
    #[tactic(auto, using(orchestrate::proofs::QueueLemmas::popped_next, orchestrate::proofs::QueueLemmas::popped_rest))]
    fn take(&mut self) -> Option<ScriptAnswer>
        ensures next { result ≡ next_of self.old }
        ensures rest { self.new ≡ left_by true self.old }
    {
        self.last_first.pop()
    }

    // The answer to a question of this kind: the next one, moved out, where it is taken.
    #[tactic(auto, using(orchestrate::proofs::ScriptLemmas::replied))]
    fn answer(&mut self, kind: Kind, taken: bool) -> Answer
        ensures answer { (a : Answer) → RepliesBy (next_of self.old) kind a taken → result ≡ a }
        ensures rest { self.new ≡ left_by taken self.old }
    {
        if taken {
            match self.take() {
                Some(next) => next.answer,
                None => default_for(kind),
            }
        } else {
            default_for(kind)
        }
    }
}

/// A world that answers from a list, in its order, as `orchestrate::ScriptWorld` does: it takes the
/// next answer exactly where that is for a question of this kind and fits it, and every other
/// question has an answer of its own. It knows besides what is left of the list, and which entries
/// stand behind the last one that took an answer.
#[derive(Drop)]
pub struct ReplayWorld {
    answers: AnswerQueue,
    log: List<Entry>,
    until: usize,
}

impl Model for ReplayWorld {
    ghost use Rattle.cli_replay.specs.ReplayValue.{ReplayValue};

    ghost Value = { ReplayValue };

    ghost view = { λ w. record { answers = w.answers; log = w.log; until = w.until } };
}

impl ReplayWorld {
    /// A world that was asked nothing. Its answers are moved, and not copied. Its log has room for
    /// this many calls from the start, so that it isn't moved while it grows to them.
    pub fn with_capacity(
        alloc: Global,
        answers: List<ScriptAnswer>,
        calls: usize,
    ) -> Result<ReplayWorld, OutOfMemory>
        ensures answers { IfOk result (λ w. w.answers ≡ answers) }
        ensures log { IfOk result (λ w. w.log ≡ []) }
        ensures until { IfOk result (λ w. w.until ≡ 0) }
    {
        let log = List::from_vec(Vec::with_capacity(alloc, calls)?);
        Ok(ReplayWorld {
            answers: AnswerQueue::new(alloc, answers),
            log,
            until: 0,
        })
    }

    /// What is left of the answers, of which there were this many. None where none is left.
    pub fn left_over(&self, count: usize) -> Option<LeftOver>
        ensures { IsLeft self.now count result }
    {
        match self.answers.peek() {
            Some(next) => Some(LeftOver {
                first: count.saturating_sub(self.answers.len()),
                count,
                kind: next.kind,
                missed: missed_in(self.log.as_slice(), self.until),
            }),
            None => None,
        }
    }

    /// What was asked and answered, in order. The answers that are left are let go.
    pub fn into_entries(self) -> List<Entry>
        ensures { result ≡ self.log }
    {
        self.log
    }
}

impl World for ReplayWorld {
    ghost use Rattle.std.specs.Prelude.{◌≡◌, refl, length};
    ghost use Rattle.cli_replay.specs.Taking.{Takes};

    ghost calls = { λ w. w.log };

    ghost relates = { λ w l v.
        Takes w.answers (length w.log) w.until l v.answers (length v.log) v.until };

    fn ask(&mut self, alloc: Global, question: Question) -> Result<Answer, OutOfMemory> {
        let kind = question.kind();
        let (noted, taken) = reply(self.answers.peek(), kind)?;
        let entry = Entry {
            question,
            answer: noted,
        };
        self.log.push(alloc, entry)?;
        self.until = until_by(taken, self.log.len(), self.until);
        Ok(self.answers.answer(kind, taken))
    }

    ghost relates_nothing = { λ w. (refl, refl, refl) };
}

// How many entries stand up to the last one that took an answer, once there are so many.
fn until_by(taken: bool, calls: usize, until: usize) -> usize
    ensures { result ≡ until_by taken calls until }
{
    if taken { calls } else { until }
}

// A copy of the answer to a question of this kind, and whether it is the next one of the list.
#[tactic(auto, using(orchestrate::proofs::ScriptLemmas::default_fits))]
fn reply(next: Option<&ScriptAnswer>, kind: Kind) -> Result<(Answer, bool), OutOfMemory>
    ensures fitting { IfOk result (λ r. fits kind r.0 ≡ true) }
    ensures replies { IfOk result (λ r. RepliesBy (option_copied next.entry) kind r.0 r.1) }
{
    if let Some(candidate) = next {
        if same_kind(candidate.kind, kind) && candidate.answer.fits(kind) {
            return Ok((candidate.answer.clone()?, true));
        }
    }
    Ok((default_for(kind), false))
}

fn same_kind(a: Kind, b: Kind) -> bool
    ensures same { IsTrue result → a ≡ b }
    ensures other { a ≡ b → IsTrue result }
{
    a == b
}

// What is answered where the list has no answer for the question.
fn default_for(kind: Kind) -> Answer
    ensures { result ≡ default_for kind }
{
    match kind {
        Kind::Hook(_) => Answer::Hooked(HookReply::done()),
        Kind::Wait(_) => Answer::Ready,
        Kind::Abandon(_) => Answer::Abandoned,
        Kind::Park => Answer::Parked,
        _ => Answer::Absent,
    }
}

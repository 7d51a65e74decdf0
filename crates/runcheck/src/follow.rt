//! Calls are followed along the grammar, one after another.
ghost use Rattle.std.specs.Prelude.{◌≡◌, ◌++◌, ◌∷◌, [], true, false, None, IfOk, IfSome};
ghost use Rattle.run_grammar.specs.Fits.{fits};
ghost use Rattle.run_grammar.specs.Laws.{IsWhole};
ghost use Rattle.run_grammar.specs.Machine.{Asks};
ghost use Rattle.run_grammar.specs.Standing.{standing, start, starting};
ghost use Rattle.runcheck.specs.Reading.Places.{position_of};
ghost use Rattle.runcheck.specs.Follow.{after_call, entry_of, log_of};
ghost use Rattle.runcheck.specs.Taken.{Taken};

use crate::reading::grammar::run;
use crate::reading::walk::{Seen, Walk};
use crate::told::Call;
use run_grammar::laws::runs_are_accepted;
use run_grammar::{Entry, Standing, StopPoint};
use smithy_types::{OutOfMemory, Payload};
use std::alloc::Global;

/// A whole run.
#[derive(Drop)]
pub struct Followed {
    /// Its entries.
    pub entries: Vec<Entry>,
    /// What stands at its end.
    pub standing: Standing,
}

/// The whole run that these calls are, each question handed what stands before it. None where
/// they are none: a call is not asked for, an answer doesn't fit, or something is left to ask.
pub fn follow(
    alloc: Global,
    stop: StopPoint,
    input: Payload,
    calls: &[Call],
) -> Result<Option<Followed>, OutOfMemory>
    ensures entries { IfOk result (λ o. IfSome o (λ f. f.entries.items ≡ log_of
        (starting input) calls.now)) }
    ensures stands { IfOk result (λ o. IfSome o (λ f. f.standing ≡ (standing (start input) (log_of
        (starting input) calls.now)).context)) }
    ensures whole { IfOk result (λ o. IfSome o (λ _. IsWhole stop (start input) (log_of
        (starting input) calls.now))) }
    ensures none { IfOk result (λ o. o ≡ None → IsWhole stop (start input) (log_of
        (starting input) calls.now) → ⊥) }
{
    runs_are_accepted();
    let production = run(alloc, stop)?;
    let mut standing = Standing::new(alloc, input)?;
    let mut entries = Vec::new(alloc);
    let before = Seen {
        standing: &standing,
        last: None,
    };
    let mut walk = Walk::begin(alloc, &production, before)?;
    for call in calls {
        let taken = take(alloc, &mut walk, &mut standing, &mut entries, call)?;
        if !taken {
            return Ok(None);
        }
    }
    if walk.is_whole() {
        Ok(Some(Followed { entries, standing }))
    } else {
        Ok(None)
    }
}

/// Takes a call, where it is asked for and its answer fits. Nothing is changed where it is not.
pub fn take<'a>(
    alloc: Global,
    walk: &mut Walk<'a>,
    standing: &mut Standing,
    entries: &mut Vec<Entry>,
    call: &Call,
) -> Result<bool, OutOfMemory>
    ensures yes { IfOk result (λ b. b ≡ true
        → Taken walk.old walk.new standing.old standing.new entries.old.items entries.new.items
        call.now) }
    ensures no { IfOk result (λ b. b ≡ false → Asks (position_of walk.old) call.now.kind
        → fits call.now.kind call.now.answer ≡ true → ⊥) }
{
    if !walk.asks(call.kind) {
        return Ok(false);
    }
    if !call.answer.fits(call.kind) {
        return Ok(false);
    }
    let entry = enter(alloc, standing, call)?;
    let seen = Seen {
        standing: &*standing,
        last: Some(&entry),
    };
    walk.take(&entry, seen)?;
    entries.push(entry)?;
    Ok(true)
}

// The entry of a call; what stands takes its answer in.
#[tactic(auto, using(crate::proofs::Following::entered))]
fn enter(alloc: Global, standing: &mut Standing, call: &Call) -> Result<Entry, OutOfMemory>
    ensures entry { IfOk result (λ e. e ≡ entry_of standing.old call.now) }
    ensures stands { IfOk result (λ _. standing.new ≡ (after_call standing.old call.now).context) }
{
    let question = standing.question(call.kind)?;
    let nanos = question.nanos();
    standing.take_in(alloc, call.kind, nanos, &call.answer)?;
    let answer = call.answer.clone()?;
    Ok(Entry { question, answer })
}

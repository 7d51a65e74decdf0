//! Answers with a failure of a hook. No script writes them, but a print may have them.
ghost use Rattle.std.specs.Prelude.{◌≡◌};
ghost use Rattle.json_forms.specs.Reading.{Reads};
ghost use Rattle.json_forms.specs.Forms.{named};
ghost use Rattle.json_forms.specs.View.{view};
ghost use Rattle.smithy_types.specs.Hooks.{all_hooks, hook_text};
ghost use Rattle.runcheck.specs.Failing.{failing_answer_at, failing_hook_at, hook_at};
ghost use Rattle.runcheck.specs.Failing.{hook_failure_at, hook_fault_at, hook_outcome_at};
ghost use Rattle.runcheck.specs.Failing.{told_answer_at};

use json_forms::forms::{read_optional_text, read_tagged, read_word};
use json_forms::{ReadError, Value, read};
use json_values::answer::read_answer;
use json_values::setting::read_layer;
use run_grammar::{Answer, Kind};
use smithy_context::{Change, HookAnswer, HookReply};
use smithy_types::{Fault, FaultKind, Hook, Outcome, Shared};
use std::alloc::Global;

/// The answer to a question of this kind: one that a script may write, or one with a failure of
/// a hook.
#[tactic(auto, unfolding(crate::specs::Failing::told_answer_at))]
pub fn read_told_answer(alloc: Global, kind: Kind, value: &Value) -> Result<Answer, ReadError>
    ensures { Reads result (told_answer_at kind (view value.now)) }
{
    match read_answer(alloc, kind, value) {
        Ok(answer) => Ok(answer),
        Err(ReadError::Memory) => Err(ReadError::Memory),
        Err(ReadError::Refused) => read_hook_failure(alloc, kind, value),
    }
}

// An answer with a failure of a hook.
#[tactic(auto, unfolding(crate::specs::Failing::hook_failure_at))]
fn read_hook_failure(alloc: Global, kind: Kind, value: &Value) -> Result<Answer, ReadError>
    ensures { Reads result (hook_failure_at kind (view value.now)) }
{
    match kind {
        Kind::Hook(_) => read_failing_hook(alloc, value),
        Kind::Stream | Kind::Deserialize => read_failing_answer(alloc, value),
        _ => Err(ReadError::Refused),
    }
}

// The failure as the outcome that is answered.
#[tactic(auto, unfolding(crate::specs::Failing::failing_answer_at))]
fn read_failing_answer(alloc: Global, value: &Value) -> Result<Answer, ReadError>
    ensures { Reads result (failing_answer_at (view value.now)) }
{
    let outcome = read_hook_outcome(alloc, read_tagged("Outcome", value)?)?;
    Ok(Answer::Outcome(Shared::new(alloc, outcome)?))
}

// The failure as the outcome that a hook writes.
#[tactic(auto, unfolding(crate::specs::Failing::failing_hook_at))]
fn read_failing_hook(alloc: Global, value: &Value) -> Result<Answer, ReadError>
    ensures { Reads result (failing_hook_at (view value.now)) }
{
    let (tag, change, settings, failure) = read::quadruple(value)?;
    read_word("Hook", tag)?;
    let outcome = read_hook_outcome(alloc, read_tagged("Outcome", change)?)?;
    let outcome = Shared::new(alloc, outcome)?;
    let settings = read_layer(alloc, settings)?;
    let failure = read_optional_text(alloc, failure)?;
    let answer = HookAnswer {
        change: Some(Change::Outcome(outcome)),
        settings,
        failure,
    };
    Ok(Answer::Hooked(HookReply::of(alloc, answer)?))
}

// An outcome that is a failure of a hook.
#[tactic(auto, unfolding(crate::specs::Failing::hook_outcome_at))]
fn read_hook_outcome(alloc: Global, value: &Value) -> Result<Outcome, ReadError>
    ensures { Reads result (hook_outcome_at (view value.now)) }
{
    let fault = read_hook_fault(alloc, read_tagged("Failed", value)?)?;
    Ok(Outcome::Failed(fault))
}

// A failure of a hook.
#[tactic(auto, unfolding(crate::specs::Failing::hook_fault_at))]
fn read_hook_fault(alloc: Global, value: &Value) -> Result<Fault, ReadError>
    ensures { Reads result (hook_fault_at (view value.now)) }
{
    let (tag, hook, text) = read::triple(value)?;
    read_word("Interceptor", tag)?;
    let hook = read_hook(hook)?;
    let text = read::text(alloc, text)?;
    Ok(Fault {
        kind: FaultKind::Interceptor(hook),
        text,
    })
}

// A hook by its name.
#[tactic(auto, unfolding(crate::specs::Failing::hook_at))]
fn read_hook(value: &Value) -> Result<Hook, ReadError>
    ensures { Reads result (hook_at (view value.now)) }
{
    match hook_named(read::str(value)?) {
        Some(hook) => Ok(hook),
        None => Err(ReadError::Refused),
    }
}

fn hook_named(text: &str) -> Option<Hook>
    ensures { result ≡ named hook_text all_hooks text.now }
{
    first_hook(&Hook::ALL, text)
}

fn first_hook(hooks: &[Hook], text: &str) -> Option<Hook>
    ensures { result ≡ named hook_text hooks.now text.now }
{
    hooks.iter().copied().find(|hook| text == hook.name())
}

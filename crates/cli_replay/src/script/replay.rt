//! Scripts of `replay`.
ghost use Rattle.std.specs.Prelude.{◌≡◌, [], true, nat_le, length, IfOk, IsErrOf, option_map};
ghost use Rattle.json_forms.specs.View.{view, items_view};
ghost use Rattle.json_forms.specs.Lists.{list_of};
ghost use Rattle.json_scripts.specs.Members.{only_among};
ghost use Rattle.json_forms.specs.Reading.{Gives, Reads};
ghost use Rattle.serde_json.specs.Find.{get};
ghost use Rattle.cli_replay.specs.Script.Replay.{script_answer_at, script_members, items_at};
ghost use Rattle.cli_replay.specs.Script.Replay.{stop_of, script_at, script_spellable, IsScript};
ghost use Rattle.cli_replay.specs.Script.Replay.{answers_fit, keys_fit, is_within};

use crate::script::limits::{add_keys, answer_fits};
use json_forms::read::{items, member, number, optional_member, pair};
use json_forms::{Arena, ReadError, Value};
use json_print::RunHead;
use json_scripts::{FUEL_LIMIT, only_members, read_stop};
use json_values::answer::{read_answer, read_kind};
use json_values::http::read_payload;
use orchestrate::ScriptAnswer;
use smithy_context::SettingKey;
use smithy_types::{List, OutOfMemory, StopPoint};
use std::alloc::Global;

/// The most different keys that the layers of a script may name.
const KEY_LIMIT: usize = 64;

/// A run to be replayed.
#[derive(Drop)]
pub struct Script {
    /// What the run is begun with.
    pub head: RunHead,
    /// What the world answers, in order.
    pub answers: List<ScriptAnswer>,
}

/// The script that the bytes are the text of. JSON spells its input and each of its answers, so
/// that what is printed of them is read as the same values.
#[tactic(auto, using(crate::proofs::script::SpelledScripts::reads_spelled))]
pub fn read_script(alloc: Global, bytes: &[u8]) -> Result<Script, ReadError>
    ensures found { IfOk result (λ s. IsScript bytes.now s) }
    ensures spellable { IfOk result (λ s. script_spellable s ≡ true) }
    ensures refused { IsErrOf result ReadError.Refused → (s : Script) → IsScript bytes.now s → ⊥ }
{
    let mut arena = Arena::new(alloc);
    script_in(alloc, &arena.read(bytes)?)
}

#[tactic(auto, unfolding(crate::specs::Script::Replay::script_at))]
fn script_in(alloc: Global, value: &Value) -> Result<Script, ReadError>
    ensures { Reads result (script_at (view value.now)) }
{
    only_listed(value)?;
    let input = read_payload(alloc, member(value, "input")?)?;
    let fuel = number(member(value, "fuel")?)?;
    let stop = stop_in(optional_member(value, "stop"))?;
    let output_kind = number(member(value, "output_kind")?)?;
    let error_kind = number(member(value, "error_kind")?)?;
    let answers = read_answers(alloc, items(member(value, "answers")?)?)?;
    let head = RunHead {
        input,
        fuel,
        stop,
        output_kind,
        error_kind,
    };
    Ok(Script { head, answers })
}

// The stop point, none where it is left out.
fn stop_in(value: Option<&Value>) -> Result<StopPoint, ReadError>
    ensures { Reads result (stop_of (option_map (λ v. view v.now) value.entry)) }
{
    match value {
        Some(value) => read_stop(value),
        None => Ok(StopPoint::None),
    }
}

// No member stands beside those of a script.
#[tactic(auto, unfolding(crate::specs::Script::Replay::script_members))]
fn only_listed(value: &Value) -> Result<(), ReadError>
    ensures { Reads result (only_among script_members (view value.now)) }
{
    only_members(
        &[
            "input",
            "fuel",
            "stop",
            "output_kind",
            "error_kind",
            "answers",
        ],
        value,
    )
}

// The answers, in their order.
#[tactic(auto, using(json_forms::proofs::ReadLists::list_reading))]
fn read_answers(alloc: Global, list: &[Value]) -> Result<List<ScriptAnswer>, ReadError>
    ensures { Reads result (list_of script_answer_at (items_view list.now)) }
{
    let mut answers = List::new();
    for value in list {
        match script_answer(alloc, value) {
            Ok(answer) => answers.push(alloc, answer)?,
            Err(error) => return Err(error),
        }
    }
    Ok(answers)
}

// A kind as it is printed, and its answer.
#[tactic(auto, unfolding(crate::specs::Script::Replay::script_answer_at))]
fn script_answer(alloc: Global, value: &Value) -> Result<ScriptAnswer, ReadError>
    ensures { Reads result (script_answer_at (view value.now)) }
{
    let (kind, answer) = pair(value)?;
    let kind = read_kind(kind)?;
    let answer = read_answer(alloc, kind, answer)?;
    Ok(ScriptAnswer { kind, answer })
}

/// Whether fuel, texts, bodies, heads and keys of a script are within their limits.
pub fn is_within(alloc: Global, script: &Script) -> Result<bool, OutOfMemory>
    ensures { IfOk result (λ b. b ≡ is_within script.now) }
{
    let answers = script.answers.as_slice();
    if script.head.fuel > FUEL_LIMIT || !answers_fit(answers) {
        return Ok(false);
    }
    keys_fit(alloc, answers)
}

fn answers_fit(answers: &[ScriptAnswer]) -> bool
    ensures { result ≡ answers_fit answers.now }
{
    answers.iter().all(|answer| answer_fits(&answer.answer))
}

fn keys_fit(alloc: Global, answers: &[ScriptAnswer]) -> Result<bool, OutOfMemory>
    ensures { IfOk result (λ b. b ≡ keys_fit answers.now) }
{
    let mut keys: List<SettingKey> = List::new();
    for answer in answers {
        add_keys(alloc, &mut keys, &answer.answer)?;
        if keys.len() > KEY_LIMIT {
            return Ok(false);
        }
    }
    Ok(true)
}

//! Scripts of `wait`.
ghost use Rattle.std.specs.Prelude.{◌≡◌, [], IfOk, IsErrOf};
ghost use Rattle.json_forms.specs.View.{view, items_view};
ghost use Rattle.json_forms.specs.Lists.{list_of};
ghost use Rattle.json_scripts.specs.Members.{only_among};
ghost use Rattle.json_forms.specs.Reading.{Reads};
ghost use Rattle.cli_wait.specs.Script.{built_of, is_within, IsBuildable, IsScript, poll_at};
ghost use Rattle.cli_wait.specs.Script.{polls_at, result_at, script_at, script_members};
ghost use Rattle.cli_wait.specs.Script.{some_of, state_at};

use crate::states::state_named;
use crate::{PollResult, ScriptedPoll};
use json_forms::forms::{read_tagged, says, starts};
use json_forms::read::{items, member, number, str, triple};
use json_forms::{Arena, ReadError, Value};
use json_scripts::{FUEL_LIMIT, only_members, read_words};
use json_values::http::read_payload;
use smithy_types::{AcceptorState, List};
use std::alloc::Global;

/// The least delay of a waiter, in nanoseconds.
const SECOND: u64 = 1_000_000_000;

/// A waiter over a scripted outside. Times are in nanoseconds.
#[derive(Drop)]
pub struct WaitScript {
    /// The least delay between two polls.
    pub min: u64,
    /// The greatest delay between two polls.
    pub max: u64,
    /// The longest wait in all.
    pub max_wait: u64,
    /// The moment at which the clock stands first.
    pub start: u64,
    /// How many polls and asks of a sleep the waiter may make.
    pub fuel: u64,
    /// The words that it draws.
    pub words: List<u64>,
    /// The polls of its operation, at least one.
    pub polls: List<ScriptedPoll>,
}

/// The script that the bytes are the text of. It is refused exactly where they are the text of
/// none.
pub fn read_script(alloc: Global, bytes: &[u8]) -> Result<WaitScript, ReadError>
    ensures found { IfOk result (λ s. IsScript bytes.now s) }
    ensures buildable { IfOk result IsBuildable }
    ensures refused { IsErrOf result ReadError.Refused →
        (s : WaitScript) → IsScript bytes.now s → ⊥ }
{
    let mut arena = Arena::new(alloc);
    script_in(alloc, &arena.read(bytes)?)
}

#[tactic(auto, unfolding(crate::specs::Script::script_at))]
fn script_in(alloc: Global, value: &Value) -> Result<WaitScript, ReadError>
    ensures reads { Reads result (script_at (view value.now)) }
    ensures buildable { IfOk result IsBuildable }
{
    only_listed(value)?;
    let min = number(member(value, "min")?)?;
    let max = number(member(value, "max")?)?;
    let max_wait = number(member(value, "max_wait")?)?;
    let start = number(member(value, "start")?)?;
    let fuel = number(member(value, "fuel")?)?;
    let words = read_words(alloc, member(value, "words")?)?;
    let polls = read_polls(alloc, member(value, "polls")?)?;
    let script = WaitScript {
        min,
        max,
        max_wait,
        start,
        fuel,
        words,
        polls,
    };
    Ok(only_built(script)?)
}

// A script of which a waiter can be built.
fn only_built(script: WaitScript) -> Result<WaitScript, ReadError>
    ensures reads { Reads result (built_of script) }
    ensures buildable { IfOk result IsBuildable }
{
    if SECOND <= script.min && script.min <= script.max {
        Ok(script)
    } else {
        Err(ReadError::Refused)
    }
}

// No member stands beside those of a script.
#[tactic(auto, unfolding(crate::specs::Script::script_members))]
fn only_listed(value: &Value) -> Result<(), ReadError>
    ensures { Reads result (only_among script_members (view value.now)) }
{
    only_members(
        &["min", "max", "max_wait", "start", "fuel", "words", "polls"],
        value,
    )
}

/// The polls of a waiter's operation, at least one.
#[tactic(auto, unfolding(crate::specs::Script::polls_at))]
pub fn read_polls(alloc: Global, value: &Value) -> Result<List<ScriptedPoll>, ReadError>
    ensures { Reads result (polls_at (view value.now)) }
{
    only_some(polls_in(alloc, items(value)?)?)
}

// The polls, at least one.
fn only_some(polls: List<ScriptedPoll>) -> Result<List<ScriptedPoll>, ReadError>
    ensures { Reads result (some_of polls) }
{
    if polls.is_empty() {
        Err(ReadError::Refused)
    } else {
        Ok(polls)
    }
}

// The polls, in their order.
#[tactic(auto, using(json_forms::proofs::ReadLists::list_reading))]
fn polls_in(alloc: Global, list: &[Value]) -> Result<List<ScriptedPoll>, ReadError>
    ensures { Reads result (list_of poll_at (items_view list.now)) }
{
    let mut polls = List::new();
    for value in list {
        match read_poll(alloc, value) {
            Ok(poll) => polls.push(alloc, poll)?,
            Err(error) => return Err(error),
        }
    }
    Ok(polls)
}

// A poll: its nanoseconds, what it comes to and what its acceptors say.
#[tactic(auto, unfolding(crate::specs::Script::poll_at))]
fn read_poll(alloc: Global, value: &Value) -> Result<ScriptedPoll, ReadError>
    ensures { Reads result (poll_at (view value.now)) }
{
    let (nanos, outcome, state) = triple(value)?;
    let nanos = number(nanos)?;
    let outcome = read_result(alloc, outcome)?;
    let state = read_state(state)?;
    Ok(ScriptedPoll {
        nanos,
        result: outcome,
        state,
    })
}

#[tactic(auto, unfolding(crate::specs::Script::result_at))]
fn read_result(alloc: Global, value: &Value) -> Result<PollResult, ReadError>
    ensures { Reads result (result_at (view value.now)) }
{
    if says("Timeout", value) {
        return Ok(PollResult::Timeout);
    }
    if starts("Output", value) {
        let output = read_tagged("Output", value)?;
        return Ok(PollResult::Output(read_payload(alloc, output)?));
    }
    let error = read_tagged("Service", value)?;
    Ok(PollResult::Service(read_payload(alloc, error)?))
}

#[tactic(auto, unfolding(crate::specs::Script::state_at))]
fn read_state(value: &Value) -> Result<AcceptorState, ReadError>
    ensures { Reads result (state_at (view value.now)) }
{
    match state_named(str(value)?) {
        Some(state) => Ok(state),
        None => Err(ReadError::Refused),
    }
}

/// Whether the fuel is within its limit.
pub fn is_within(script: &WaitScript) -> bool
    ensures { result ≡ is_within script.now }
{
    script.fuel <= FUEL_LIMIT
}

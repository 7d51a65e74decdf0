//! Scripts of `waiters`.
ghost use Rattle.std.specs.Prelude.{◌≡◌, true, IfOk, IsErrOf};
ghost use Rattle.json_forms.specs.View.{view, items_view};
ghost use Rattle.json_forms.specs.Lists.{list_of};
ghost use Rattle.json_forms.specs.Reading.{Reads};
ghost use Rattle.cli_waiters.specs.Script.Script.{are_good, good_of, plan_at, script_at};
ghost use Rattle.cli_waiters.specs.Script.Script.{some_of, waiter_at, waiters_at, IsScript};

use crate::fleet::ScriptedWaiter;
use crate::script::members::{only_of_script, only_of_waiter};
use crate::script::terms::WaitersScript;
use cli_wait::read_polls;
use json_forms::read::{items, member, number};
use json_forms::{Arena, ReadError, Value};
use json_scripts::buckets::read_bucket_terms;
use json_scripts::read_words;
use smithy_types::List;
use std::alloc::Global;
use waiter_fleet::Plan;

/// The script that the bytes are the text of. Each of its waiters can follow its plan. It is
/// refused exactly where the bytes are the text of none.
pub fn read_script(alloc: Global, bytes: &[u8]) -> Result<WaitersScript, ReadError>
    ensures found { IfOk result (λ s. IsScript bytes.now s) }
    ensures good { IfOk result (λ s. are_good s.waiters ≡ true) }
    ensures refused { IsErrOf result ReadError.Refused →
        (s : WaitersScript) → IsScript bytes.now s → ⊥ }
{
    let mut arena = Arena::new(alloc);
    script_in(alloc, &arena.read(bytes)?)
}

#[tactic(auto, unfolding(crate::specs::Script::Script::script_at))]
fn script_in(alloc: Global, value: &Value) -> Result<WaitersScript, ReadError>
    ensures reads { Reads result (script_at (view value.now)) }
    ensures good { IfOk result (λ s. are_good s.waiters ≡ true) }
{
    only_of_script(value)?;
    let bucket = read_bucket_terms(member(value, "bucket")?)?;
    let start = number(member(value, "start")?)?;
    let fuel = number(member(value, "fuel")?)?;
    let words = read_words(alloc, member(value, "words")?)?;
    let waiters = read_waiters(alloc, member(value, "waiters")?)?;
    let script = WaitersScript {
        bucket,
        start,
        fuel,
        words,
        waiters,
    };
    Ok(only_good(script)?)
}

// A script of which every waiter can follow its plan.
fn only_good(script: WaitersScript) -> Result<WaitersScript, ReadError>
    ensures reads { Reads result (good_of script) }
    ensures good { IfOk result (λ s. are_good s.waiters ≡ true) }
{
    if are_good(script.waiters.as_slice()) {
        Ok(script)
    } else {
        Err(ReadError::Refused)
    }
}

fn are_good(waiters: &[ScriptedWaiter]) -> bool
    ensures { result ≡ are_good waiters.now }
{
    waiters.iter().all(|waiter| waiter.plan.is_good())
}

#[tactic(auto, unfolding(crate::specs::Script::Script::waiters_at))]
fn read_waiters(alloc: Global, value: &Value) -> Result<List<ScriptedWaiter>, ReadError>
    ensures { Reads result (waiters_at (view value.now)) }
{
    only_some(waiters_in(alloc, items(value)?)?)
}

// The waiters, at least one.
fn only_some(waiters: List<ScriptedWaiter>) -> Result<List<ScriptedWaiter>, ReadError>
    ensures { Reads result (some_of waiters) }
{
    if waiters.is_empty() {
        Err(ReadError::Refused)
    } else {
        Ok(waiters)
    }
}

// The waiters, in their order.
#[tactic(auto, using(json_forms::proofs::ReadLists::list_reading))]
fn waiters_in(alloc: Global, list: &[Value]) -> Result<List<ScriptedWaiter>, ReadError>
    ensures { Reads result (list_of waiter_at (items_view list.now)) }
{
    let mut waiters = List::new();
    for value in list {
        match read_waiter(alloc, value) {
            Ok(waiter) => waiters.push(alloc, waiter)?,
            Err(error) => return Err(error),
        }
    }
    Ok(waiters)
}

#[tactic(auto, unfolding(crate::specs::Script::Script::waiter_at))]
fn read_waiter(alloc: Global, value: &Value) -> Result<ScriptedWaiter, ReadError>
    ensures { Reads result (waiter_at (view value.now)) }
{
    only_of_waiter(value)?;
    let plan = read_plan(value)?;
    let polls = read_polls(alloc, member(value, "polls")?)?;
    Ok(ScriptedWaiter { plan, polls })
}

// The delays of a waiter.
#[tactic(auto, unfolding(crate::specs::Script::Script::plan_at))]
fn read_plan(value: &Value) -> Result<Plan, ReadError>
    ensures { Reads result (plan_at (view value.now)) }
{
    let min_delay = number(member(value, "min")?)?;
    let max_delay = number(member(value, "max")?)?;
    let max_wait = number(member(value, "max_wait")?)?;
    Ok(Plan {
        min_delay,
        max_delay,
        max_wait,
    })
}

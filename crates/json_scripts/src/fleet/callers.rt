//! Readers of callers.
ghost use Rattle.std.specs.Prelude.{◌≡◌};
ghost use Rattle.json_forms.specs.View.{view, items_view};
ghost use Rattle.json_forms.specs.Lists.{list_of};
ghost use Rattle.json_forms.specs.Reading.{Reads};
ghost use Rattle.json_scripts.specs.Fleet.Callers.{caller_run_at, caller_runs_at, caller_at, callers_at};
ghost use Rattle.json_scripts.specs.Fleet.Callers.{some_of};

use crate::client::InvocationRecord;
use crate::client::client::read_client;
use crate::client::invocation::read_run;
use crate::client::members::exact_members;
use crate::fleet::terms::CallerRecord;
use json_forms::{ReadError, Value, read};
use smithy_types::List;
use std::alloc::Global;

/// How many members a caller has.
const CALLER_MEMBERS: usize = 2;

/// How many members an invocation of a caller has: all but the client.
const RUN_MEMBERS: usize = 4;

/// How many buckets a client may name.
const BUCKETS: usize = 1;

// An invocation of a caller.
#[tactic(auto, unfolding(crate::specs::Fleet::Callers::caller_run_at))]
fn read_caller_run(alloc: Global, value: &Value) -> Result<InvocationRecord, ReadError>
    ensures { Reads result (caller_run_at (view value.now)) }
{
    exact_members(alloc, RUN_MEMBERS, value)?;
    read_run(alloc, 0, value)
}

#[tactic(auto, using(json_forms::proofs::ReadLists::list_reading))]
fn run_items(alloc: Global, items: &[Value]) -> Result<List<InvocationRecord>, ReadError>
    ensures { Reads result (list_of caller_run_at (items_view items.now)) }
{
    let mut list = List::new();
    for value in items {
        match read_caller_run(alloc, value) {
            Ok(invocation) => list.push(alloc, invocation)?,
            Err(error) => return Err(error),
        }
    }
    Ok(list)
}

// The invocations of a caller, in order.
#[tactic(auto, unfolding(crate::specs::Fleet::Callers::caller_runs_at))]
fn read_caller_runs(alloc: Global, value: &Value) -> Result<List<InvocationRecord>, ReadError>
    ensures { Reads result (caller_runs_at (view value.now)) }
{
    run_items(alloc, read::items(value)?)
}

/// A caller.
#[tactic(auto, unfolding(crate::specs::Fleet::Callers::caller_at))]
pub fn read_caller(alloc: Global, value: &Value) -> Result<CallerRecord, ReadError>
    ensures { Reads result (caller_at (view value.now)) }
{
    exact_members(alloc, CALLER_MEMBERS, value)?;
    let invocations = read_caller_runs(alloc, read::member(value, "invocations")?)?;
    let client = read_client(alloc, BUCKETS, read::member(value, "client")?)?;
    Ok(CallerRecord {
        client,
        invocations,
    })
}

#[tactic(auto, using(json_forms::proofs::ReadLists::list_reading))]
fn caller_items(alloc: Global, items: &[Value]) -> Result<List<CallerRecord>, ReadError>
    ensures { Reads result (list_of caller_at (items_view items.now)) }
{
    let mut list = List::new();
    for value in items {
        match read_caller(alloc, value) {
            Ok(caller) => list.push(alloc, caller)?,
            Err(error) => return Err(error),
        }
    }
    Ok(list)
}

// The callers, at least one.
fn only_some(callers: List<CallerRecord>) -> Result<List<CallerRecord>, ReadError>
    ensures { Reads result (some_of callers) }
{
    if callers.is_empty() {
        Err(ReadError::Refused)
    } else {
        Ok(callers)
    }
}

/// The callers of a script, in order, at least one.
#[tactic(auto, unfolding(crate::specs::Fleet::Callers::callers_at))]
pub fn read_callers(alloc: Global, value: &Value) -> Result<List<CallerRecord>, ReadError>
    ensures { Reads result (callers_at (view value.now)) }
{
    only_some(caller_items(alloc, read::items(value)?)?)
}

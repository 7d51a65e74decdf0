//! Readers of invocations.
ghost use Rattle.std.specs.Prelude.{◌≡◌};
ghost use Rattle.json_forms.specs.View.{view, items_view};
ghost use Rattle.json_forms.specs.Lists.{list_of};
ghost use Rattle.json_forms.specs.Reading.{Reads};
ghost use Rattle.json_scripts.specs.Client.Invocations.{run_at, invocation_at, invocations_at};

use crate::client::members::{exact_members, read_place};
use crate::client::terms::InvocationRecord;
use crate::read_stop;
use crate::records::read_records;
use json_forms::{ReadError, Value, read};
use json_values::http::read_payload;
use smithy_types::List;
use std::alloc::Global;

/// How many members an invocation has.
const INVOCATION_MEMBERS: usize = 5;

/// An invocation of this client, of the members that say what is run.
#[tactic(auto, unfolding(crate::specs::Client::Invocations::run_at))]
pub fn read_run(alloc: Global, client: usize, value: &Value) -> Result<InvocationRecord, ReadError>
    ensures { Reads result (run_at client (view value.now)) }
{
    let fuel = read::number(read::member(value, "fuel")?)?;
    let stop = read_stop(read::member(value, "stop")?)?;
    let input = read_payload(alloc, read::member(value, "input")?)?;
    let responses = read_records(alloc, read::member(value, "responses")?)?;
    Ok(InvocationRecord {
        client,
        input,
        fuel,
        stop,
        responses,
    })
}

/// An invocation of a script with so many clients.
#[tactic(auto, unfolding(crate::specs::Client::Invocations::invocation_at))]
pub fn read_invocation(
    alloc: Global,
    clients: usize,
    value: &Value,
) -> Result<InvocationRecord, ReadError>
    ensures { Reads result (invocation_at clients (view value.now)) }
{
    exact_members(alloc, INVOCATION_MEMBERS, value)?;
    let client = read_place(clients, read::member(value, "client")?)?;
    read_run(alloc, client, value)
}

#[tactic(auto, using(json_forms::proofs::ReadLists::list_reading))]
fn invocation_items(
    alloc: Global,
    clients: usize,
    items: &[Value],
) -> Result<List<InvocationRecord>, ReadError>
    ensures { Reads result (list_of (invocation_at clients) (items_view items.now)) }
{
    let mut list = List::new();
    for value in items {
        match read_invocation(alloc, clients, value) {
            Ok(invocation) => list.push(alloc, invocation)?,
            Err(error) => return Err(error),
        }
    }
    Ok(list)
}

/// The invocations of a script with so many clients, in order.
#[tactic(auto, unfolding(crate::specs::Client::Invocations::invocations_at))]
pub fn read_invocations(
    alloc: Global,
    clients: usize,
    value: &Value,
) -> Result<List<InvocationRecord>, ReadError>
    ensures { Reads result (invocations_at clients (view value.now)) }
{
    invocation_items(alloc, clients, read::items(value)?)
}

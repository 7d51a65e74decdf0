//! Readers of client objects.
ghost use Rattle.std.specs.Prelude.{◌≡◌};
ghost use Rattle.json_forms.specs.View.{view, items_view};
ghost use Rattle.json_forms.specs.Forms.{optional_at};
ghost use Rattle.json_forms.specs.Lists.{list_of};
ghost use Rattle.json_forms.specs.Reading.{Reads};
ghost use Rattle.json_values.specs.SettingForms.{stall_at};
ghost use Rattle.json_scripts.specs.Client.Clients.{flags_at, rules_at, text_member, target_at};
ghost use Rattle.json_scripts.specs.Client.Clients.{client_members, client_at, clients_at};

use crate::client::auth::read_auth;
use crate::client::members::{exact_members, read_optional_place};
use crate::client::retries::{read_classifiers, read_retry_choice};
use crate::client::schemes::read_http_schemes;
use crate::client::terms::{ClientFlags, ClientObject, ClientRules, ClientTarget};
use json_forms::forms::read_optional_text;
use json_forms::{ReadError, Value, read};
use json_values::setting::{read_stall, read_timeouts};
use smithy_types::{List, StalledStreamProtectionConfig, Text};
use std::alloc::Global;

/// How many members a client object has without `http_schemes`, which may be left out.
const CLIENT_MEMBERS: usize = 15;

// What a client has and does.
#[tactic(auto, unfolding(crate::specs::Client::Clients::flags_at))]
fn read_flags(value: &Value) -> Result<ClientFlags, ReadError>
    ensures { Reads result (flags_at (view value.now)) }
{
    let sleep = read::boolean(read::member(value, "sleep")?)?;
    let time = read::boolean(read::member(value, "time")?)?;
    let poisoning = read::boolean(read::member(value, "poisoning")?)?;
    let enforce = read::boolean(read::member(value, "enforce")?)?;
    let v2 = read::boolean(read::member(value, "v2")?)?;
    Ok(ClientFlags {
        sleep,
        time,
        poisoning,
        enforce,
        v2,
    })
}

#[tactic(auto, unfolding(json_forms::specs::View::view, json_forms::specs::Forms::optional_at))]
fn read_optional_stall(value: &Value) -> Result<Option<StalledStreamProtectionConfig>, ReadError>
    ensures { Reads result (optional_at stall_at (view value.now)) }
{
    match value {
        Value::Null => Ok(None),
        _ => Ok(Some(read_stall(value)?)),
    }
}

// What a client of a script with so many buckets goes by.
#[tactic(auto, unfolding(crate::specs::Client::Clients::rules_at))]
fn read_rules(buckets: usize, value: &Value) -> Result<ClientRules, ReadError>
    ensures { Reads result (rules_at buckets (view value.now)) }
{
    let flags = read_flags(value)?;
    let bucket = read_optional_place(buckets, read::member(value, "bucket")?)?;
    let retry = read_retry_choice(read::member(value, "retry")?)?;
    let timeouts = read_timeouts(read::member(value, "timeouts")?)?;
    let stall = read_optional_stall(read::member(value, "stall")?)?;
    Ok(ClientRules {
        bucket,
        retry,
        timeouts,
        stall,
        flags,
    })
}

// A member that is a text.
#[tactic(auto, unfolding(crate::specs::Client::Clients::text_member))]
fn text_member(alloc: Global, value: &Value, name: &str) -> Result<Text, ReadError>
    ensures { Reads result (text_member name.now (view value.now)) }
{
    read::text(alloc, read::member(value, name)?)
}

// What a client calls.
#[tactic(auto, unfolding(crate::specs::Client::Clients::target_at))]
fn read_target(alloc: Global, value: &Value) -> Result<ClientTarget, ReadError>
    ensures { Reads result (target_at (view value.now)) }
{
    let service = text_member(alloc, value, "service")?;
    let operation = text_member(alloc, value, "operation")?;
    let url = text_member(alloc, value, "url")?;
    let prefix = read_optional_text(alloc, read::member(value, "prefix")?)?;
    Ok(ClientTarget {
        service,
        operation,
        url,
        prefix,
    })
}

// How many members this client object may have.
fn client_members(value: &Value) -> usize
    ensures { result ≡ client_members (view value.now) }
{
    match read::optional_member(value, "http_schemes") {
        Some(_) => CLIENT_MEMBERS + 1,
        None => CLIENT_MEMBERS,
    }
}

/// A client object of a script with so many buckets.
#[tactic(auto, unfolding(crate::specs::Client::Clients::client_at))]
pub fn read_client(alloc: Global, buckets: usize, value: &Value) -> Result<ClientObject, ReadError>
    ensures { Reads result (client_at buckets (view value.now)) }
{
    exact_members(alloc, client_members(value), value)?;
    let rules = read_rules(buckets, value)?;
    let classifiers = read_classifiers(alloc, read::member(value, "classifiers")?)?;
    let auth = read::member(value, "auth")?;
    let http_schemes = read_http_schemes(alloc, read::optional_member(value, "http_schemes"))?;
    let auth = read_auth(alloc, http_schemes, auth)?;
    let target = read_target(alloc, value)?;
    Ok(ClientObject {
        target,
        rules,
        classifiers,
        auth,
    })
}

#[tactic(auto, using(json_forms::proofs::ReadLists::list_reading))]
fn client_items(
    alloc: Global,
    buckets: usize,
    items: &[Value],
) -> Result<List<ClientObject>, ReadError>
    ensures { Reads result (list_of (client_at buckets) (items_view items.now)) }
{
    let mut list = List::new();
    for value in items {
        match read_client(alloc, buckets, value) {
            Ok(client) => list.push(alloc, client)?,
            Err(error) => return Err(error),
        }
    }
    Ok(list)
}

/// The clients of a script with so many buckets.
#[tactic(auto, unfolding(crate::specs::Client::Clients::clients_at))]
pub fn read_clients(
    alloc: Global,
    buckets: usize,
    value: &Value,
) -> Result<List<ClientObject>, ReadError>
    ensures { Reads result (clients_at buckets (view value.now)) }
{
    client_items(alloc, buckets, read::items(value)?)
}

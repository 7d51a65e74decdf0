//! Scripts of `client`.
ghost use Rattle.std.specs.Prelude.{◌≡◌, IfOk, IsErrOf};
ghost use Rattle.json_forms.specs.View.{view};
ghost use Rattle.json_forms.specs.Reading.{Reads};
ghost use Rattle.json_scripts.specs.Client.Placed.{IsPlaced};
ghost use Rattle.json_scripts.specs.Client.Script.{client_script_at, IsClientScript};

use crate::buckets::read_buckets;
use crate::client::client::read_clients;
use crate::client::invocation::read_invocations;
use crate::client::members::exact_members;
use crate::client::terms::{ClientObject, InvocationRecord};
use crate::read_words;
use json_forms::{Arena, ReadError, Value, read};
use retry_quota::BucketTerms;
use smithy_types::List;
use std::alloc::Global;

/// How many members a script has.
const SCRIPT_MEMBERS: usize = 5;

/// Invocations of clients, and what the outside answers.
#[derive(Debug, Drop)]
pub struct ClientScript {
    /// The token buckets that clients may name.
    pub buckets: List<BucketTerms>,
    /// The outside's first moment, in nanoseconds.
    pub start: u64,
    /// The words that the outside draws.
    pub words: List<u64>,
    /// The clients.
    pub clients: List<ClientObject>,
    /// What is invoked, in order.
    pub invocations: List<InvocationRecord>,
}

/// The script that the bytes are the text of. It is refused exactly where they are the text of
/// none. Each client's bucket and each invocation's client is one that the script has.
pub fn read_client_script(alloc: Global, bytes: &[u8]) -> Result<ClientScript, ReadError>
    ensures found { IfOk result (λ s. IsClientScript bytes.now s) }
    ensures placed { IfOk result IsPlaced }
    ensures refused { IsErrOf result ReadError.Refused → (s : ClientScript) →
        IsClientScript bytes.now s → ⊥ }
{
    let mut arena = Arena::new(alloc);
    let value = arena.read(bytes)?;
    script_in(alloc, &value)
}

#[tactic(auto, unfolding(crate::specs::Client::Script::client_script_at))]
fn script_in(alloc: Global, value: &Value) -> Result<ClientScript, ReadError>
    ensures { Reads result (client_script_at (view value.now)) }
{
    exact_members(alloc, SCRIPT_MEMBERS, value)?;
    let start = read::number(read::member(value, "start")?)?;
    let buckets = read_buckets(alloc, read::member(value, "buckets")?)?;
    let words = read_words(alloc, read::member(value, "words")?)?;
    let clients = read_clients(alloc, buckets.len(), read::member(value, "clients")?)?;
    let list = read::member(value, "invocations")?;
    let invocations = read_invocations(alloc, clients.len(), list)?;
    Ok(ClientScript {
        buckets,
        start,
        words,
        clients,
        invocations,
    })
}

//! What a host begins with: its clients, their buckets and the present moment.
ghost use Rattle.std.specs.Prelude.{◌≡◌, IfOk, IsErrOf};
ghost use Rattle.std.specs.List.{list_all};
ghost use Rattle.json_forms.specs.View.{view, items_view};
ghost use Rattle.json_forms.specs.Forms.{blob_at, optional_at};
ghost use Rattle.json_forms.specs.Lists.{list_of};
ghost use Rattle.json_forms.specs.Reading.{Reads};
ghost use Rattle.cli_serve.specs.Description.{IsDescription, description_at, description_fits};
ghost use Rattle.cli_serve.specs.Description.{retry_after_at, rule_at, rules_at, seat_at};
ghost use Rattle.cli_serve.specs.Description.{seat_fits, seats_at};
ghost use Rattle.cli_serve.specs.Description.{unheld_at};
ghost use Rattle.json_scripts.specs.Client.Limits.{capacity_fits};

use host_session::service::{ErrorRule, RetryAfterClassifier};
use json_forms::forms::read_blob;
use json_forms::{Arena, ReadError, Value, read};
use json_scripts::buckets::read_buckets;
use json_scripts::client::client::read_client;
use json_scripts::client::members::exact_members;
use json_scripts::client::{ClientObject, capacity_fits, client_fits};
use json_values::http::read_headers;
use retry_quota::BucketTerms;
use smithy_types::{Blob, List};
use std::alloc::Global;

/// How many members a description has.
const DESCRIPTION_MEMBERS: usize = 3;

/// How many members the description of a seat has.
const SEAT_MEMBERS: usize = 4;

/// What a host begins with.
#[derive(Drop)]
pub struct HostDescription {
    /// The token buckets, which the clients may name.
    pub buckets: List<BucketTerms>,
    /// The present moment, in nanoseconds.
    pub start: u64,
    /// The seats, in the order of their numbers.
    pub seats: List<SeatDescription>,
}

/// A seat, which is for one client.
#[derive(Drop)]
pub struct SeatDescription {
    /// The client. It doesn't hold the length of a response to its header, since of a long body a
    /// part stays with the host.
    pub client: ClientObject,
    /// Which responses are errors of a name: the first rule that a response meets gives it.
    pub errors: List<ErrorRule>,
    /// By which header a response says how long to wait before a retry, if by any.
    pub retry_after: Option<RetryAfterClassifier>,
    /// What the client's random words are made of.
    pub seed: u64,
}

// Bytes, or null.
#[tactic(auto, unfolding(json_forms::specs::View::view, json_forms::specs::Forms::optional_at))]
fn read_optional_blob(alloc: Global, value: &Value) -> Result<Option<Blob>, ReadError>
    ensures { Reads result (optional_at blob_at (view value.now)) }
{
    match value {
        Value::Null => Ok(None),
        _ => Ok(Some(read_blob(alloc, value)?)),
    }
}

// The status, the headers and the word of a response, and the name of the error that it is.
#[tactic(auto, unfolding(crate::specs::Description::rule_at))]
fn read_rule(alloc: Global, value: &Value) -> Result<ErrorRule, ReadError>
    ensures { Reads result (rule_at (view value.now)) }
{
    let (status, headers, word, name) = read::quadruple(value)?;
    let status = read::number_16(status)?;
    let headers = read_headers(alloc, headers)?;
    let word = read_optional_blob(alloc, word)?;
    let name = read_blob(alloc, name)?;
    Ok(ErrorRule {
        status,
        headers,
        word,
        name,
    })
}

#[tactic(auto, using(json_forms::proofs::ReadLists::list_reading))]
fn rule_items(alloc: Global, items: &[Value]) -> Result<List<ErrorRule>, ReadError>
    ensures { Reads result (list_of rule_at (items_view items.now)) }
{
    let mut list = List::new();
    for value in items {
        match read_rule(alloc, value) {
            Ok(rule) => list.push(alloc, rule)?,
            Err(error) => return Err(error),
        }
    }
    Ok(list)
}

#[tactic(auto, unfolding(crate::specs::Description::rules_at))]
fn read_rules(alloc: Global, value: &Value) -> Result<List<ErrorRule>, ReadError>
    ensures { Reads result (rules_at (view value.now)) }
{
    rule_items(alloc, read::items(value)?)
}

// The name of a header, and how many nanoseconds the unit of its number has.
#[tactic(auto, unfolding(crate::specs::Description::retry_after_at))]
fn read_retry_after(alloc: Global, value: &Value) -> Result<RetryAfterClassifier, ReadError>
    ensures { Reads result (retry_after_at (view value.now)) }
{
    let (name, unit) = read::pair(value)?;
    let name = read::text(alloc, name)?;
    let unit = read::number(unit)?;
    Ok(RetryAfterClassifier { name, unit })
}

// The same, or null.
#[tactic(auto, unfolding(json_forms::specs::View::view, json_forms::specs::Forms::optional_at))]
fn read_optional_retry_after(
    alloc: Global,
    value: &Value,
) -> Result<Option<RetryAfterClassifier>, ReadError>
    ensures { Reads result (optional_at retry_after_at (view value.now)) }
{
    match value {
        Value::Null => Ok(None),
        _ => Ok(Some(read_retry_after(alloc, value)?)),
    }
}

// A client that doesn't hold a response's length to its header.
#[tactic(auto, unfolding(crate::specs::Description::unheld_at))]
fn read_unheld(alloc: Global, buckets: usize, value: &Value) -> Result<ClientObject, ReadError>
    ensures { Reads result (unheld_at buckets (view value.now)) }
{
    let client = read_client(alloc, buckets, value)?;
    if client.rules.flags.enforce {
        Err(ReadError::Refused)
    } else {
        Ok(client)
    }
}

#[tactic(auto, unfolding(crate::specs::Description::seat_at))]
fn read_seat(alloc: Global, buckets: usize, value: &Value) -> Result<SeatDescription, ReadError>
    ensures { Reads result (seat_at buckets (view value.now)) }
{
    exact_members(alloc, SEAT_MEMBERS, value)?;
    let seed = read::number(read::member(value, "seed")?)?;
    let client = read_unheld(alloc, buckets, read::member(value, "client")?)?;
    let errors = read_rules(alloc, read::member(value, "errors")?)?;
    let retry_after = read_optional_retry_after(alloc, read::member(value, "retry_after")?)?;
    Ok(SeatDescription {
        client,
        errors,
        retry_after,
        seed,
    })
}

#[tactic(auto, using(json_forms::proofs::ReadLists::list_reading))]
fn seat_items(
    alloc: Global,
    buckets: usize,
    items: &[Value],
) -> Result<List<SeatDescription>, ReadError>
    ensures { Reads result (list_of (seat_at buckets) (items_view items.now)) }
{
    let mut list = List::new();
    for value in items {
        match read_seat(alloc, buckets, value) {
            Ok(seat) => list.push(alloc, seat)?,
            Err(error) => return Err(error),
        }
    }
    Ok(list)
}

#[tactic(auto, unfolding(crate::specs::Description::seats_at))]
fn read_seats(
    alloc: Global,
    buckets: usize,
    value: &Value,
) -> Result<List<SeatDescription>, ReadError>
    ensures { Reads result (seats_at buckets (view value.now)) }
{
    seat_items(alloc, buckets, read::items(value)?)
}

#[tactic(auto, unfolding(crate::specs::Description::description_at))]
fn read_value(alloc: Global, value: &Value) -> Result<HostDescription, ReadError>
    ensures { Reads result (description_at (view value.now)) }
{
    exact_members(alloc, DESCRIPTION_MEMBERS, value)?;
    let start = read::number(read::member(value, "start")?)?;
    let buckets = read_buckets(alloc, read::member(value, "buckets")?)?;
    let seats = read_seats(alloc, buckets.len(), read::member(value, "clients")?)?;
    Ok(HostDescription {
        buckets,
        start,
        seats,
    })
}

/// The description that a line is the text of, without its line feed. It is refused exactly where
/// the line is the text of none. The arena's memory is used for what the line holds.
pub fn read_description(
    alloc: Global,
    arena: &mut Arena,
    line: &[u8],
) -> Result<HostDescription, ReadError>
    ensures found { IfOk result (λ d. IsDescription line.now d) }
    ensures refused { IsErrOf result ReadError.Refused → (d : HostDescription) →
        IsDescription line.now d → ⊥ }
{
    let value = arena.read(line)?;
    read_value(alloc, &value)
}

/// Whether the description is within the limits of a script: the capacities of its buckets, and the
/// texts of its clients.
pub fn description_fits(description: &HostDescription) -> bool
    ensures { result ≡ description_fits description.now }
{
    capacities_fit(description.buckets.as_slice()) && seats_fit(description.seats.as_slice())
}

fn capacities_fit(buckets: &[BucketTerms]) -> bool
    ensures { result ≡ list_all capacity_fits buckets.now }
{
    buckets.iter().all(|terms| capacity_fits(terms))
}

fn seats_fit(seats: &[SeatDescription]) -> bool
    ensures { result ≡ list_all seat_fits seats.now }
{
    seats.iter().all(|seat| client_fits(&seat.client))
}

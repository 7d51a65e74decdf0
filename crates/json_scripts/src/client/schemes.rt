//! Readers of a client's schemes of HTTP.
ghost use Rattle.std.specs.Prelude.{◌≡◌, option_map};
ghost use Rattle.std.specs.List.{count_by};
ghost use Rattle.json_forms.specs.View.{view, items_view};
ghost use Rattle.json_forms.specs.Lists.{list_of};
ghost use Rattle.json_forms.specs.Reading.{Reads};
ghost use Rattle.json_scripts.specs.Client.Schemes.{only_says, is_alone, location_at, null_at};
ghost use Rattle.json_scripts.specs.Client.Schemes.{prefix_at, api_key_at, http_scheme_at};
ghost use Rattle.json_scripts.specs.Client.Schemes.{http_schemes_at, http_schemes_of, has_id, is_among};
ghost use Rattle.json_scripts.specs.Client.Schemes.{is_placed, are_placed, placed};

use crate::client::terms::{ApiKeyChoice, HttpSchemeChoice};
use http_schemes::ApiKeyLocation;
use json_forms::forms::{read_optional_text, read_word, says};
use json_forms::{ReadError, Value, read};
use smithy_types::{List, Text};
use std::alloc::Global;

// Whether the array has this word alone.
#[tactic(auto, unfolding(crate::specs::Client::Schemes::is_alone, json_forms::specs::View::view, json_forms::specs::View::items_view))]
fn is_alone(word: &str, value: &Value) -> bool
    ensures { result ≡ is_alone word.now (view value.now) }
{
    match value {
        Value::Array(items) => only_says(word, items.as_slice()),
        _ => false,
    }
}

#[tactic(auto, unfolding(crate::specs::Client::Schemes::only_says, json_forms::specs::View::view, json_forms::specs::View::items_view), using(crate::proofs::client::Alone::not_alone))]
fn only_says(word: &str, items: &[Value]) -> bool
    ensures { result ≡ only_says word.now (items_view items.now) }
{
    if items.len() != 1 {
        return false;
    }
    says(word, &items[0])
}

// Where requests have an API key.
#[tactic(auto, unfolding(crate::specs::Client::Schemes::location_at))]
fn read_location(value: &Value) -> Result<ApiKeyLocation, ReadError>
    ensures { Reads result (location_at (view value.now)) }
{
    if says("Header", value) {
        Ok(ApiKeyLocation::Header)
    } else if says("Query", value) {
        Ok(ApiKeyLocation::Query)
    } else {
        Err(ReadError::Refused)
    }
}

// Null, where no text may stand.
#[tactic(auto, unfolding(json_forms::specs::View::view, crate::specs::Client::Schemes::null_at))]
fn read_null(value: &Value) -> Result<Option<Text>, ReadError>
    ensures { Reads result (null_at (view value.now)) }
{
    match value {
        Value::Null => Ok(None),
        _ => Err(ReadError::Refused),
    }
}

// What stands before an API key at this place.
#[tactic(auto, unfolding(crate::specs::Client::Schemes::prefix_at))]
fn read_prefix(
    alloc: Global,
    location: ApiKeyLocation,
    value: &Value,
) -> Result<Option<Text>, ReadError>
    ensures { Reads result (prefix_at location (view value.now)) }
{
    match location {
        ApiKeyLocation::Header => read_optional_text(alloc, value),
        ApiKeyLocation::Query => read_null(value),
    }
}

// An API key.
#[tactic(auto, unfolding(crate::specs::Client::Schemes::api_key_at))]
fn read_api_key(alloc: Global, value: &Value) -> Result<ApiKeyChoice, ReadError>
    ensures { Reads result (api_key_at (view value.now)) }
{
    let (tag, location, name, prefix) = read::quadruple(value)?;
    read_word("api_key", tag)?;
    let location = read_location(location)?;
    let name = read::text(alloc, name)?;
    let prefix = read_prefix(alloc, location, prefix)?;
    Ok(ApiKeyChoice {
        location,
        name,
        prefix,
    })
}

// What is said of a scheme of HTTP.
#[tactic(auto, unfolding(crate::specs::Client::Schemes::http_scheme_at))]
fn read_http_scheme(alloc: Global, value: &Value) -> Result<HttpSchemeChoice, ReadError>
    ensures { Reads result (http_scheme_at (view value.now)) }
{
    if is_alone("bearer", value) {
        return Ok(HttpSchemeChoice::Bearer);
    }
    Ok(HttpSchemeChoice::ApiKey(read_api_key(alloc, value)?))
}

#[tactic(auto, using(json_forms::proofs::ReadLists::list_reading))]
fn scheme_items(alloc: Global, items: &[Value]) -> Result<List<HttpSchemeChoice>, ReadError>
    ensures { Reads result (list_of http_scheme_at (items_view items.now)) }
{
    let mut list = List::new();
    for value in items {
        match read_http_scheme(alloc, value) {
            Ok(scheme) => list.push(alloc, scheme)?,
            Err(error) => return Err(error),
        }
    }
    Ok(list)
}

#[tactic(auto, unfolding(crate::specs::Client::Schemes::http_schemes_at))]
fn listed_http_schemes(alloc: Global, value: &Value) -> Result<List<HttpSchemeChoice>, ReadError>
    ensures { Reads result (http_schemes_at (view value.now)) }
{
    scheme_items(alloc, read::items(value)?)
}

/// What is said of a client's schemes of HTTP: nothing where the member is left out.
pub fn read_http_schemes(
    alloc: Global,
    value: Option<&Value>,
) -> Result<List<HttpSchemeChoice>, ReadError>
    ensures { Reads result (http_schemes_of (option_map (λ v. view v.now) value.entry)) }
{
    match value {
        Some(value) => listed_http_schemes(alloc, value),
        None => Ok(List::new()),
    }
}

// Whether the id is one of these.
fn is_among(ids: &[Text], id: &str) -> bool
    ensures { result ≡ is_among ids.now id.now }
{
    ids.iter().any(|one| one.as_str() == id)
}

// How many have this id.
fn count_of(schemes: &[HttpSchemeChoice], id: &str) -> usize
    ensures { result ≡ count_by (has_id id.now) schemes.now }
{
    schemes.iter().filter(|scheme| scheme.id() == id).count()
}

// Whether the scheme's id is one of these, and no other of all has it.
fn is_placed(ids: &[Text], all: &[HttpSchemeChoice], scheme: &HttpSchemeChoice) -> bool
    ensures { result ≡ is_placed ids.now all.now scheme.now }
{
    is_among(ids, scheme.id()) && count_of(all, scheme.id()) == 1
}

fn are_placed(ids: &[Text], schemes: &[HttpSchemeChoice]) -> bool
    ensures { result ≡ are_placed ids.now schemes.now }
{
    schemes.iter().all(|scheme| is_placed(ids, schemes, scheme))
}

/// The schemes of HTTP of a client whose schemes have these ids: each has one of them, and no two
/// have the same.
pub fn placed(
    ids: &List<Text>,
    schemes: List<HttpSchemeChoice>,
) -> Result<List<HttpSchemeChoice>, ReadError>
    ensures { Reads result (placed ids.now schemes) }
{
    if are_placed(ids.as_slice(), schemes.as_slice()) {
        Ok(schemes)
    } else {
        Err(ReadError::Refused)
    }
}

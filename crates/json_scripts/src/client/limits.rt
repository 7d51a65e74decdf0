//! Limits of what a client script may hold.
ghost use Rattle.std.specs.Prelude.{◌≡◌, ◌+◌, ◌<◌, None, nat_le, sum_by, IfSome};
ghost use Rattle.std.specs.List.{list_all};
ghost use Rattle.json_scripts.specs.Client.Limits.{capacity_fits, http_scheme_fits, schemes_fit};
ghost use Rattle.json_scripts.specs.Client.Limits.{auth_fits, client_fits, clients_fit, invocation_fits};
ghost use Rattle.json_scripts.specs.Client.Limits.{fuel_of, client_script_fits};

use crate::client::script::ClientScript;
use crate::client::terms::{
    AuthChoice, AuthSchemes, ClientObject, HttpSchemeChoice, InvocationRecord,
};
use crate::records::{records_fit, sources_fit};
use crate::{FUEL_LIMIT, left_of, optional_text_fits, optional_texts_fit, text_fits, texts_fit};
use retry_quota::{BucketTerms, MAXIMUM_CAPACITY};

/// The most invocations of a script.
const INVOCATION_LIMIT: usize = 10_000;

/// Whether a bucket's capacity is within its limit.
#[tactic(auto, unfolding(crate::specs::Client::Limits::capacity_fits))]
pub fn capacity_fits(terms: &BucketTerms) -> bool
    ensures { result ≡ capacity_fits terms.now }
{
    terms.capacity <= MAXIMUM_CAPACITY
}

fn capacities_fit(buckets: &[BucketTerms]) -> bool
    ensures { result ≡ list_all capacity_fits buckets.now }
{
    buckets.iter().all(|terms| capacity_fits(terms))
}

#[tactic(auto, unfolding(crate::specs::Client::Limits::http_scheme_fits))]
fn http_scheme_fits(scheme: &HttpSchemeChoice) -> bool
    ensures { result ≡ http_scheme_fits scheme.now }
{
    match scheme {
        HttpSchemeChoice::Bearer => true,
        HttpSchemeChoice::ApiKey(key) => text_fits(&key.name) && optional_text_fits(&key.prefix),
    }
}

fn http_schemes_fit(schemes: &[HttpSchemeChoice]) -> bool
    ensures { result ≡ list_all http_scheme_fits schemes.now }
{
    schemes.iter().all(|scheme| http_scheme_fits(scheme))
}

#[tactic(auto, unfolding(crate::specs::Client::Limits::schemes_fit))]
fn schemes_fit(auth: &AuthSchemes) -> bool
    ensures { result ≡ schemes_fit auth.now }
{
    texts_fit(&auth.options)
        && texts_fit(&auth.schemes)
        && http_schemes_fit(auth.http_schemes.as_slice())
        && sources_fit(auth.identities.as_slice())
        && optional_texts_fit(&auth.preference)
}

#[tactic(auto, unfolding(crate::specs::Client::Limits::auth_fits))]
fn auth_fits(auth: &AuthChoice) -> bool
    ensures { result ≡ auth_fits auth.now }
{
    match auth {
        AuthChoice::NoAuth => true,
        AuthChoice::Schemes(schemes) => schemes_fit(schemes),
    }
}

/// Whether a client's texts are within their limit.
#[tactic(auto, unfolding(crate::specs::Client::Limits::client_fits))]
pub fn client_fits(client: &ClientObject) -> bool
    ensures { result ≡ client_fits client.now }
{
    text_fits(&client.target.service)
        && text_fits(&client.target.operation)
        && text_fits(&client.target.url)
        && optional_text_fits(&client.target.prefix)
        && auth_fits(&client.auth)
}

fn clients_fit(clients: &[ClientObject]) -> bool
    ensures { result ≡ clients_fit clients.now }
{
    clients.iter().all(|client| client_fits(client))
}

#[tactic(auto, unfolding(crate::specs::Client::Limits::invocation_fits))]
fn invocation_fits(invocation: &InvocationRecord) -> bool
    ensures { result ≡ invocation_fits invocation.now }
{
    records_fit(invocation.responses.as_slice())
}

/// Whether what comes of each request of the invocations is within its limit.
pub fn invocations_fit(invocations: &[InvocationRecord]) -> bool
    ensures { result ≡ list_all invocation_fits invocations.now }
{
    invocations
        .iter()
        .all(|invocation| invocation_fits(invocation))
}

// Whether the invocations' fuel together is within its limit.
#[tactic(auto, using(crate::proofs::client::Sums::sums))]
fn fuel_fits(invocations: &[InvocationRecord]) -> bool
    ensures { result ≡ nat_le (sum_by fuel_of invocations.now) 100000 }
{
    match fuel_left(FUEL_LIMIT, invocations) {
        Some(_) => true,
        None => false,
    }
}

/// What the fuel of these invocations leaves of the room; none where it is more.
#[tactic(auto, using(crate::proofs::client::Sums::sums))]
pub fn fuel_left(room: u64, invocations: &[InvocationRecord]) -> Option<u64>
    ensures some { IfSome result (λ left. left + sum_by fuel_of invocations.now ≡ room) }
    ensures none { result ≡ None → room < sum_by fuel_of invocations.now }
{
    let mut left = room;
    for invocation in invocations {
        match left_of(left, invocation.fuel) {
            Some(rest) => left = rest,
            None => return None,
        }
    }
    Some(left)
}

/// Whether capacities, texts, heads, the number of invocations and their fuel are within their
/// limits.
#[tactic(auto, unfolding(crate::specs::Client::Limits::client_script_fits))]
pub fn client_script_fits(script: &ClientScript) -> bool
    ensures { result ≡ client_script_fits script.now }
{
    let invocations = script.invocations.as_slice();
    capacities_fit(script.buckets.as_slice())
        && clients_fit(script.clients.as_slice())
        && invocations_fit(invocations)
        && invocations.len() <= INVOCATION_LIMIT
        && fuel_fits(invocations)
}

//! Readers of how a client signs.
ghost use Rattle.std.specs.Prelude.{◌≡◌};
ghost use Rattle.json_forms.specs.View.{view};
ghost use Rattle.json_forms.specs.Reading.{Reads};
ghost use Rattle.json_scripts.specs.Client.Auth.{lazy_of, lazy_at, cache_at, auth_schemes_at, unsigned};
ghost use Rattle.json_scripts.specs.Client.Auth.{auth_at};

use crate::client::schemes::placed;
use crate::client::terms::{AuthChoice, AuthSchemes, HttpSchemeChoice};
use crate::records::read_sources;
use identity_cell::{LazyCacheBuilder, SharedIdentityCache};
use json_forms::forms::{read_optional_number, read_optional_texts, read_tagged, read_texts, says};
use json_forms::{ReadError, Value, read};
use smithy_types::List;
use std::alloc::Global;

// The lazy cache of these parts, where they make one.
fn build_lazy(parts: LazyCacheBuilder) -> Result<SharedIdentityCache, ReadError>
    ensures { Reads result (lazy_of parts) }
{
    match parts.build() {
        Ok(cache) => Ok(cache),
        Err(_) => Err(ReadError::Refused),
    }
}

// A lazy cache: its buffer, expiration, partitions and load timeout.
#[tactic(auto, unfolding(crate::specs::Client::Auth::lazy_at))]
fn read_lazy(value: &Value) -> Result<SharedIdentityCache, ReadError>
    ensures { Reads result (lazy_at (view value.now)) }
{
    let (buffer, expiration, partitions, timeout) = read::quadruple(value)?;
    let buffer = read::number(buffer)?;
    let expiration = read::number(expiration)?;
    let partitions = read::number(partitions)?;
    let timeout = read_optional_number(timeout)?;
    build_lazy(LazyCacheBuilder {
        time_source: false,
        sleep_impl: false,
        load_timeout: timeout,
        buffer_time: Some(buffer),
        default_expiration: Some(expiration),
        max_partitions: Some(partitions),
    })
}

// How identities are kept.
#[tactic(auto, unfolding(crate::specs::Client::Auth::cache_at))]
fn read_cache(value: &Value) -> Result<SharedIdentityCache, ReadError>
    ensures { Reads result (cache_at (view value.now)) }
{
    if says("none", value) {
        return Ok(SharedIdentityCache::NoCache);
    }
    read_lazy(read_tagged("lazy", value)?)
}

// Auth schemes and what they sign with, where this is said of those of HTTP.
#[tactic(auto, unfolding(crate::specs::Client::Auth::auth_schemes_at))]
fn read_auth_schemes(
    alloc: Global,
    http_schemes: List<HttpSchemeChoice>,
    value: &Value,
) -> Result<AuthSchemes, ReadError>
    ensures { Reads result (auth_schemes_at http_schemes (view value.now)) }
{
    let (options, schemes, identities, preference, cache) = read::quintuple(value)?;
    let cache = read_cache(cache)?;
    let options = read_texts(alloc, options)?;
    let schemes = read_texts(alloc, schemes)?;
    let http_schemes = placed(&schemes, http_schemes)?;
    let identities = read_sources(alloc, identities)?;
    let preference = read_optional_texts(alloc, preference)?;
    Ok(AuthSchemes {
        options,
        schemes,
        http_schemes,
        identities,
        preference,
        cache,
    })
}

// A client that doesn't sign has no schemes, and so none of HTTP.
fn unsigned(http_schemes: List<HttpSchemeChoice>) -> Result<AuthChoice, ReadError>
    ensures { Reads result (unsigned http_schemes) }
{
    if http_schemes.is_empty() {
        Ok(AuthChoice::NoAuth)
    } else {
        Err(ReadError::Refused)
    }
}

/// How a client signs, of whose schemes of HTTP this is said.
#[tactic(auto, unfolding(crate::specs::Client::Auth::auth_at))]
pub fn read_auth(
    alloc: Global,
    http_schemes: List<HttpSchemeChoice>,
    value: &Value,
) -> Result<AuthChoice, ReadError>
    ensures { Reads result (auth_at http_schemes (view value.now)) }
{
    if says("none", value) {
        return unsigned(http_schemes);
    }
    Ok(AuthChoice::Schemes(read_auth_schemes(alloc, http_schemes, value)?))
}

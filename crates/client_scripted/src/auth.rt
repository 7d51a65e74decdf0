//! How a client signs.
ghost use Rattle.std.specs.Prelude.{◌≡◌, find, map, IfOk, option_copied};
ghost use Rattle.json_scripts.specs.Client.Schemes.{has_id};
ghost use Rattle.client_scripted.specs.Parts.{auth_parts_of, auth_terms_of, key_scheme, scheme_by};
ghost use Rattle.client_scripted.specs.Parts.{scheme_of_id, source_of};

use crate::service::{ServiceScheme, own_scheme};
use client_auth::{IdentitySource, RegisteredSource};
use client_builder::{AuthOptions, IdentityResolver, Scheme};
use http_schemes::{ApiKeyAuthScheme, BearerAuthScheme};
use identity_cell::{IdentityCache, NoAuthIdentityResolver, SharedIdentityCache};
use json_scripts::client::{ApiKeyChoice, AuthChoice, AuthSchemes, HttpSchemeChoice};
use outside_scripted::IdentityRecord;
use smithy_types::{List, OutOfMemory, Text};
use std::alloc::Global;

/// A source of a client's identities.
pub type ClientSource = RegisteredSource<IdentityResolver<NoAuthIdentityResolver>>;

/// What a client signs with.
#[derive(Drop)]
pub struct AuthParts {
    /// Whether it doesn't sign at all.
    pub no_auth: bool,
    /// The auth options.
    pub options: AuthOptions,
    /// The auth schemes.
    pub schemes: List<Scheme<ServiceScheme>>,
    /// Where identities come from: each from the outside.
    pub sources: List<ClientSource>,
    /// How identities are kept.
    pub cache: SharedIdentityCache,
}

/// What else is said of a client's signing.
#[derive(Drop)]
pub struct AuthTerms {
    /// The ids in the order in which they are preferred, where an order is given.
    pub preference: Option<List<Text>>,
    /// What the outside answers to loads of identities.
    pub identities: List<IdentityRecord>,
}

/// What a client signs with that signs so, and what else is said of it.
pub(crate) fn auth_parts(
    alloc: Global,
    auth: AuthChoice,
) -> Result<(AuthParts, AuthTerms), OutOfMemory>
    ensures parts { IfOk result (λ made. made.0 ≡ auth_parts_of auth) }
    ensures terms { IfOk result (λ made. made.1 ≡ auth_terms_of auth) }
{
    match auth {
        AuthChoice::NoAuth => Ok(no_auth()),
        AuthChoice::Schemes(schemes) => listed(alloc, schemes),
    }
}

// What a client has that doesn't sign.
fn no_auth() -> (AuthParts, AuthTerms)
    ensures parts { result.0 ≡ auth_parts_of AuthChoice.NoAuth }
    ensures terms { result.1 ≡ auth_terms_of AuthChoice.NoAuth }
{
    let parts = AuthParts {
        no_auth: true,
        options: AuthOptions::NoAuth,
        schemes: List::new(),
        sources: List::new(),
        cache: IdentityCache::no_cache(),
    };
    let terms = AuthTerms {
        preference: None,
        identities: List::new(),
    };
    (parts, terms)
}

// What a client has that signs by one of these schemes.
fn listed(alloc: Global, auth: AuthSchemes) -> Result<(AuthParts, AuthTerms), OutOfMemory>
    ensures parts { IfOk result (λ made. made.0 ≡ auth_parts_of (AuthChoice.Schemes auth)) }
    ensures terms { IfOk result (λ made. made.1 ≡ auth_terms_of (AuthChoice.Schemes auth)) }
{
    let sources = sources_of(alloc, auth.identities.as_slice())?;
    let http_schemes = auth.http_schemes;
    let schemes = schemes_of(alloc, http_schemes.as_slice(), auth.schemes)?;
    let parts = AuthParts {
        no_auth: false,
        options: AuthOptions::Listed(auth.options),
        schemes,
        sources,
        cache: auth.cache,
    };
    let terms = AuthTerms {
        preference: auth.preference,
        identities: auth.identities,
    };
    Ok((parts, terms))
}

// The schemes of these ids, where this is said of those of HTTP.
fn schemes_of(
    alloc: Global,
    http_schemes: &[HttpSchemeChoice],
    ids: List<Text>,
) -> Result<List<Scheme<ServiceScheme>>, OutOfMemory>
    ensures { IfOk result (λ list. list ≡ map (scheme_of_id http_schemes.now) ids) }
{
    let mut list = List::new();
    for id in ids.into_vec(alloc) {
        list.push(alloc, scheme_of_id(http_schemes, id)?)?;
    }
    Ok(list)
}

// The scheme of HTTP that has this id, if that is said of one, and else the service's own.
fn scheme_of_id(
    http_schemes: &[HttpSchemeChoice],
    id: Text,
) -> Result<Scheme<ServiceScheme>, OutOfMemory>
    ensures { IfOk result (λ scheme. scheme ≡ scheme_of_id http_schemes.now id) }
{
    match choice_of(http_schemes, id.as_str()) {
        Some(choice) => Ok(Scheme::Brought(scheme_by(choice)?)),
        None => Ok(own_scheme(id)),
    }
}

// What is said of the scheme of HTTP that has this id.
fn choice_of<'s>(http_schemes: &'s [HttpSchemeChoice], id: &str) -> Option<&'s HttpSchemeChoice>
    ensures { option_copied result ≡ find (has_id id.now) http_schemes.now }
{
    http_schemes.iter().find(|scheme| scheme.id() == id)
}

// The scheme of HTTP of which this is said.
fn scheme_by(choice: &HttpSchemeChoice) -> Result<ServiceScheme, OutOfMemory>
    ensures { IfOk result (λ scheme. scheme ≡ scheme_by choice.now) }
{
    match choice {
        HttpSchemeChoice::Bearer => Ok(ServiceScheme::Bearer(BearerAuthScheme::new())),
        HttpSchemeChoice::ApiKey(key) => Ok(ServiceScheme::ApiKey(key_scheme(key)?)),
    }
}

// The scheme that signs by this API key.
fn key_scheme(key: &ApiKeyChoice) -> Result<ApiKeyAuthScheme, OutOfMemory>
    ensures { IfOk result (λ scheme. scheme ≡ key_scheme key.now) }
{
    let name = key.name.clone()?;
    let prefix = optional_text(&key.prefix)?;
    Ok(ApiKeyAuthScheme::new(key.location, name, prefix))
}

fn optional_text(text: &Option<Text>) -> Result<Option<Text>, OutOfMemory>
    ensures { IfOk result (λ copy. copy ≡ text.now) }
{
    match text {
        Some(text) => Ok(Some(text.clone()?)),
        None => Ok(None),
    }
}

// A source for each of these identities.
fn sources_of(
    alloc: Global,
    identities: &[IdentityRecord],
) -> Result<List<ClientSource>, OutOfMemory>
    ensures { IfOk result (λ list. list ≡ map source_of identities.now) }
{
    let mut list = List::new();
    for identity in identities {
        list.push(alloc, source_of(identity)?)?;
    }
    Ok(list)
}

// The source of one identity.
fn source_of(identity: &IdentityRecord) -> Result<ClientSource, OutOfMemory>
    ensures { IfOk result (λ source. source ≡ source_of identity.now) }
{
    Ok(RegisteredSource {
        id: identity.id.clone()?,
        source: IdentitySource::Outside,
    })
}

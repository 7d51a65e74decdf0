//! The choice of an auth scheme among the options.
ghost use Rattle.std.specs.Prelude.{◌≡◌, not, IfOk, IfErr, OnErr, option_copied};
ghost use Rattle.auth_endpoint.specs.Choice.{is_named, is_unlisted, schemes_of, lack_of, IsChosen};
ghost use Rattle.auth_endpoint.specs.Choice.{NoneChosen};
ghost use Rattle.auth_endpoint.specs.declared.explored.NoMatchingAuthSchemeError.TheVariants.{Explored};

use crate::{ExploreResult, ExploredList, NO_AUTH_SCHEME_ID, NoMatchingAuthSchemeError};
use smithy_types::{Endpoint, List, Text};
use std::alloc::Global;

/// Which option was chosen.
#[derive(Clone, Copy, Debug, PartialEq, Eq)]
pub struct Place {
    /// Its index among the options.
    pub index: usize,
}

/// Whether the id stands in the list.
pub(crate) fn is_named(names: &[Text], id: &str) -> bool
    ensures { result ≡ is_named names.now id.now }
{
    names.iter().any(|name| name.as_str() == id)
}

// Whether the endpoint lists schemes, and this one, which isn't `noAuth`, isn't among them.
fn is_unlisted(endpoint: Option<&Endpoint>, id: &str) -> bool
    ensures { result ≡ is_unlisted (schemes_of (option_copied endpoint.entry)) id.now }
{
    match endpoint {
        Some(endpoint) => match &endpoint.schemes {
            Some(listed) => id != NO_AUTH_SCHEME_ID && !is_named(listed.as_slice(), id),
            None => false,
        },
        None => false,
    }
}

// The first thing that the option lacks.
fn lack_of(
    schemes: &List<Text>,
    resolvers: &List<Text>,
    endpoint: Option<&Endpoint>,
    id: &Text,
) -> Option<ExploreResult>
    ensures { result
        ≡ lack_of schemes.now resolvers.now (schemes_of (option_copied endpoint.entry)) id.now }
{
    if !is_named(schemes.as_slice(), id.as_str()) {
        Some(ExploreResult::NoAuthScheme)
    } else if !is_named(resolvers.as_slice(), id.as_str()) {
        Some(ExploreResult::NoIdentityResolver)
    } else if is_unlisted(endpoint, id.as_str()) {
        Some(ExploreResult::MissingEndpointConfig)
    } else {
        None
    }
}

/// The first of the options that has a scheme and a resolver and, where the endpoint lists schemes
/// and the option isn't `noAuth`, stands in that list. Schemes and resolvers are given by their
/// ids.
pub fn choose(
    alloc: Global,
    options: &List<Text>,
    schemes: &List<Text>,
    resolvers: &List<Text>,
    endpoint: Option<&Endpoint>,
) -> Result<Place, NoMatchingAuthSchemeError>
    ensures chosen { IfOk result (λ place. IsChosen
        (lack_of schemes.now resolvers.now (schemes_of (option_copied endpoint.entry)))
        options.now place.index) }
    ensures refused { (explored : _) → result ≡ Err (Explored explored)
        → NoneChosen
        (lack_of schemes.now resolvers.now (schemes_of (option_copied endpoint.entry)))
        options.now explored }
{
    let options = options.as_slice();
    let mut explored = ExploredList::new();
    for index in 0..options.len() {
        let option = &options[index];
        match lack_of(schemes, resolvers, endpoint, option) {
            None => return Ok(Place { index }),
            Some(lack) => explored.push(alloc, option, lack)?,
        }
    }
    Err(NoMatchingAuthSchemeError::Explored(explored))
}

//! Choose, without a cache of identities.
ghost use Rattle.std.specs.Prelude.{◌≡◌, None, Some, IfOk, OnErr, MatchOption, map, position};
ghost use Rattle.std.specs.Prelude.{option_copied};
ghost use Rattle.auth_endpoint.specs.Choice.{is_id, lack_of, reprioritized, schemes_of};
ghost use Rattle.client_auth.specs.Reading.{standing_preference};
ghost use Rattle.auth_endpoint.specs.Texts.{no_match_text};
ghost use Rattle.smithy_types.specs.Chain.{Chained};
ghost use Rattle.client_auth.specs.Choosing.{Asks, Chooses, Picks, PicksAmong, Resolves};
ghost use Rattle.client_auth.specs.Choosing.{ending_load, endpoint_before, is_outside, is_pending};
ghost use Rattle.client_auth.specs.Choosing.{no_load};

use crate::reading::{has_v2, standing_preference};
use crate::sources::{IdentitySource, RegisteredSource, ask_source, source_ids};
use auth_endpoint::{AuthScheme, NoMatchingAuthSchemeError, reprioritize};
use identity_cell::ResolveIdentity;
use outside::{IdentityPoll, Outside};
use run_grammar::{Answer, Chosen};
use smithy_context::{Layer, Settings};
use smithy_types::{ChooseNote, Endpoint, List, OutOfMemory, Shared, Text};
use std::alloc::Global;

/// What is open between two asks of a choice.
#[derive(Clone, Copy, Debug, PartialEq, Eq)]
pub struct OpenLoad {
    /// Whether the outside loads an identity.
    pub by_outside: bool,
}

impl OpenLoad {
    /// No load is open.
    pub fn none() -> OpenLoad
        ensures { result ≡ no_load }
    {
        OpenLoad { by_outside: false }
    }
}

/// Gives an open load up.
pub fn end_load<X: Outside>(load: &mut OpenLoad, outside: &mut X)
    ensures load { load.new ≡ no_load }
    ensures calls { Chained X.makes outside.old (ending_load load.old) outside.new }
{
    if load.by_outside {
        outside.drop_resolve();
    }
    *load = OpenLoad::none();
}

/// What was picked among the options.
#[derive(Drop)]
pub enum Picked {
    /// The option of this scheme.
    Scheme(Text),
    /// None, and why.
    Refused(Text),
}

/// Chooses a scheme among the options, and asks for its identity. Without the mark V2 the endpoint
/// comes first, and is given with the choice.
pub fn choose<X: Outside, A: AuthScheme, R: ResolveIdentity>(
    alloc: Global,
    options: &List<Text>,
    schemes: &[A],
    sources: &mut [RegisteredSource<R>],
    endpoint: &Shared<Endpoint>,
    load: &mut OpenLoad,
    outside: &mut X,
    settings: &Settings,
) -> Result<Answer, OutOfMemory>
    ensures ok { IfOk result (λ a. (calls : _) × Chained X.makes outside.old calls outside.new
        × Chooses A.names R.polls options.now schemes.now endpoint.now settings.now sources.old
        load.old a sources.new load.new calls) }
    ensures err { OnErr result ((calls : _) × Chained X.makes outside.old calls outside.new) }
{
    let before = endpoint_before(endpoint, settings)?;
    match pick(alloc, options, schemes, sources, &before, settings)? {
        Picked::Scheme(id) => resolve(alloc, sources, load, outside, id, before),
        Picked::Refused(text) => Ok(Answer::Failed(text)),
    }
}

// The endpoint, where it is resolved before the choice.
pub(crate) fn endpoint_before(
    endpoint: &Shared<Endpoint>,
    settings: &Settings,
) -> Result<Option<Shared<Endpoint>>, OutOfMemory>
    ensures { IfOk result (λ e. e ≡ endpoint_before endpoint.now settings.now) }
{
    if has_v2(settings) {
        return Ok(None);
    }
    Ok(Some(endpoint.clone()?))
}

// The option that is chosen, by its id, or why none is.
pub(crate) fn pick<A: AuthScheme, R: ResolveIdentity>(
    alloc: Global,
    options: &List<Text>,
    schemes: &[A],
    sources: &[RegisteredSource<R>],
    endpoint: &Option<Shared<Endpoint>>,
    settings: &Settings,
) -> Result<Picked, OutOfMemory>
    ensures { IfOk result (λ p. Picks (map A.names schemes.now) (map (λ s. s.id) sources.now)
        options.now endpoint.now settings.now p) }
{
    let ordered = in_order(alloc, options, settings)?;
    let names = scheme_ids(alloc, schemes)?;
    let ids = source_ids(alloc, sources)?;
    pick_among(alloc, &ordered, &names, &ids, endpoint)
}

// The options in the order of preference.
fn in_order(
    alloc: Global,
    options: &List<Text>,
    settings: &Settings,
) -> Result<List<Text>, OutOfMemory>
    ensures { IfOk result (λ l. l ≡ reprioritized (standing_preference settings.now) options.now) }
{
    let copy = copied(options)?;
    Ok(reprioritize(alloc, copy, standing_preference(settings)))
}

fn copied(options: &List<Text>) -> Result<List<Text>, OutOfMemory>
    ensures { IfOk result (λ copy. copy ≡ options.now) }
{
    Ok(options.clone()?)
}

// The first of these that qualifies, by its id, or why none does.
fn pick_among(
    alloc: Global,
    ordered: &List<Text>,
    names: &List<Text>,
    ids: &List<Text>,
    endpoint: &Option<Shared<Endpoint>>,
) -> Result<Picked, OutOfMemory>
    ensures { IfOk result (λ p. PicksAmong (lack_of names.now ids.now (schemes_of endpoint.now))
        ordered.now p) }
{
    match auth_endpoint::choose(alloc, ordered, names, ids, lent(endpoint)) {
        Ok(place) => Ok(Picked::Scheme(ordered.as_slice()[place.index].clone()?)),
        Err(error) => refused(alloc, error),
    }
}

fn lent(endpoint: &Option<Shared<Endpoint>>) -> Option<&Endpoint>
    ensures { option_copied result ≡ endpoint.now }
{
    endpoint.as_ref().map(|endpoint| endpoint.get())
}

// The failure that says why no option was chosen.
fn refused(alloc: Global, error: NoMatchingAuthSchemeError) -> Result<Picked, OutOfMemory>
    ensures { IfOk result (λ p. (explored : _)
        × (error ≡ NoMatchingAuthSchemeError.Explored explored)
        × (p ≡ Picked.Refused (no_match_text error))) }
{
    if matches!(&error, NoMatchingAuthSchemeError::OutOfMemory) {
        return Err(OutOfMemory);
    }
    let text = error.to_string(alloc)?;
    Ok(Picked::Refused(Text::from_string(text)?))
}

// The ids that have a scheme.
fn scheme_ids<A: AuthScheme>(alloc: Global, schemes: &[A]) -> Result<List<Text>, OutOfMemory>
    ensures { IfOk result (λ ids. ids ≡ map A.names schemes.now) }
{
    let mut ids = List::new();
    for scheme in schemes {
        ids.push(alloc, Text::from_str(alloc, scheme.id())?)?;
    }
    Ok(ids)
}

// Asks for the identity of the scheme that was picked.
fn resolve<X: Outside, R: ResolveIdentity>(
    alloc: Global,
    sources: &mut [RegisteredSource<R>],
    load: &mut OpenLoad,
    outside: &mut X,
    id: Text,
    endpoint: Option<Shared<Endpoint>>,
) -> Result<Answer, OutOfMemory>
    ensures ok { IfOk result (λ a. (calls : _) × Chained X.makes outside.old calls outside.new
        × Resolves R.polls id endpoint sources.old load.old a sources.new load.new calls) }
    ensures err { OnErr result ((calls : _) × Chained X.makes outside.old calls outside.new) }
{
    match ask_registered(alloc, sources, load, outside, &id)? {
        None => Ok(Answer::Absent),
        Some(IdentityPoll::Pending) => Ok(Answer::Pending),
        Some(IdentityPoll::Failed(text)) => Ok(Answer::Failed(text)),
        Some(IdentityPoll::Ready(identity)) => {
            let chosen = Chosen {
                scheme: id,
                identity: Shared::new(alloc, identity)?,
                endpoint,
                settings: Layer::new(),
                note: Some(ChooseNote::Uncached),
            };
            Ok(Answer::Chosen(Shared::new(alloc, chosen)?))
        }
    }
}

// Asks the source that is registered under this id, and notes whether its load is open. None where
// there is no such source.
pub(crate) fn ask_registered<X: Outside, R: ResolveIdentity>(
    alloc: Global,
    sources: &mut [RegisteredSource<R>],
    load: &mut OpenLoad,
    outside: &mut X,
    id: &Text,
) -> Result<Option<IdentityPoll>, OutOfMemory>
    ensures ok { IfOk result (λ polled. (calls : _) × Chained X.makes outside.old calls outside.new
        × Asks R.polls id.now (position (λ s. is_id id.now s.id) sources.old) sources.old load.old
        polled sources.new load.new calls) }
    ensures err { OnErr result ((calls : _) × Chained X.makes outside.old calls outside.new) }
{
    let Some(place) = place_of(sources, id) else {
        return Ok(None);
    };
    let registered = &mut sources[place];
    let polled = ask_source(alloc, &mut registered.source, outside, id)?;
    load.by_outside = is_outside(&registered.source) && is_pending(&polled);
    Ok(Some(polled))
}

// Where the source of this id stands.
fn place_of<R: ResolveIdentity>(sources: &[RegisteredSource<R>], id: &Text) -> Option<usize>
    ensures { result ≡ position (λ s. is_id id.now s.id) sources.now }
{
    sources
        .iter()
        .position(|registered| registered.id.as_str() == id.as_str())
}

fn is_outside<R: ResolveIdentity>(source: &IdentitySource<R>) -> bool
    ensures { result ≡ is_outside source.now }
{
    matches!(source, IdentitySource::Outside)
}

fn is_pending(polled: &IdentityPoll) -> bool
    ensures { result ≡ is_pending polled.now }
{
    matches!(polled, IdentityPoll::Pending)
}

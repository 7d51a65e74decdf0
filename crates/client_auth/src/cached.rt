//! Choose, with a lazy cache of identities.
ghost use Rattle.std.specs.Prelude.{◌≡◌, ◌⊎◌, ◌∷◌, [], ℕ, Option, None, Some, Ok, IfOk, OnOk, OnErr};
ghost use Rattle.identity_cell.specs.LazyCache.{timeout_by};
ghost use Rattle.outside.specs.Calls.{OfTimers};
ghost use Rattle.smithy_types.specs.declared.timers.TimersCall.TheVariants.{Start};
ghost use Rattle.smithy_types.specs.Chain.{Chained};
ghost use Rattle.client_auth.specs.Caching.{
  ChoosesCached,
  Continues,
  GoesOnLoading,
  LooksUp,
  OpensLoad,
  ResolvesCached,
  StaysPending,
  TimesOut,
  chosen_so,
  dropped_open,
  failed_open,
  giving_up_open,
  kept_open,
};
ghost use Rattle.client_auth.specs.Choosing.{ending_load, no_load};

use crate::choose::{OpenLoad, Picked, ask_registered, end_load, endpoint_before, pick};
use crate::sources::RegisteredSource;
use auth_endpoint::AuthScheme;
use identity_cell::{IdentityLoad, LazyCache, Looked, ResolveIdentity, SchemeId};
use outside::{IdentityPoll, Outside, present};
use run_grammar::{Answer, Chosen};
use smithy_context::{Layer, Settings};
use smithy_types::{ChooseNote, Endpoint, Identity, List, OutOfMemory, Shared, Text};
use std::alloc::Global;

/// What a look into the cache comes to.
#[derive(Drop)]
pub enum Opened {
    /// The cache has an identity.
    Hit(Identity),
    /// A load is open that isn't this choice's.
    NotYet,
    /// The load of this choice is open.
    Load,
}

/// Chooses a scheme among the options, and takes its identity from the cache or loads it into the
/// cache. A load is asked on at each ask of the choice, and its sleep where the source is pending.
pub fn choose_cached<X: Outside, A: AuthScheme, R: ResolveIdentity>(
    alloc: Global,
    options: &List<Text>,
    schemes: &[A],
    sources: &mut [RegisteredSource<R>],
    endpoint: &Shared<Endpoint>,
    time_source: bool,
    cache: &mut LazyCache,
    current: &mut Option<IdentityLoad>,
    load: &mut OpenLoad,
    outside: &mut X,
    settings: &Settings,
) -> Result<Answer, OutOfMemory>
    ensures ok { IfOk result (λ a. (calls : _) × Chained X.makes outside.old calls outside.new
        × ChoosesCached R.polls A.names options.now schemes.now endpoint.now time_source
        settings.now
        sources.old cache.old current.old load.old a sources.new cache.new current.new load.new
        calls) }
    ensures err { OnErr result ((calls : _) × Chained X.makes outside.old calls outside.new) }
{
    let before = endpoint_before(endpoint, settings)?;
    match pick(alloc, options, schemes, sources, &before, settings)? {
        Picked::Scheme(id) => resolve_cached(
            alloc,
            sources,
            time_source,
            cache,
            current,
            load,
            outside,
            settings,
            id,
            before,
        ),
        Picked::Refused(text) => Ok(Answer::Failed(text)),
    }
}

/// Abandons an open load: the outside drops it, and the cache gives its sleep and its cell up.
pub fn end_cached<X: Outside>(
    cache: &mut LazyCache,
    current: &mut Option<IdentityLoad>,
    outside: &mut X,
)
    ensures cache { cache.new ≡ dropped_open cache.old current.old }
    ensures current { current.new ≡ None }
    ensures calls { Chained X.makes outside.old (giving_up_open current.old) outside.new }
{
    if let Some(load) = current.take() {
        cache.abandon(outside, load);
    }
}

// Looks the identity of the picked scheme up, and loads it where it isn't there.
fn resolve_cached<X: Outside, R: ResolveIdentity>(
    alloc: Global,
    sources: &mut [RegisteredSource<R>],
    time_source: bool,
    cache: &mut LazyCache,
    current: &mut Option<IdentityLoad>,
    load: &mut OpenLoad,
    outside: &mut X,
    settings: &Settings,
    id: Text,
    endpoint: Option<Shared<Endpoint>>,
) -> Result<Answer, OutOfMemory>
    ensures ok { IfOk result (λ a. (calls : _) × Chained X.makes outside.old calls outside.new
        × ResolvesCached R.polls time_source settings.now id endpoint
        sources.old cache.old current.old load.old a sources.new cache.new current.new load.new
        calls) }
    ensures err { OnErr result ((calls : _) × Chained X.makes outside.old calls outside.new) }
{
    match open_load(alloc, time_source, cache, current, outside, settings, &id)? {
        Opened::Hit(identity) => chosen(alloc, id, identity, endpoint, ChooseNote::Hit),
        Opened::NotYet => Ok(Answer::Pending),
        Opened::Load => {
            let answer = go_on(alloc, sources, cache, current, load, outside, id, endpoint)?;
            Ok(answer)
        }
    }
}

// The load that is current, or else what a look comes to.
fn open_load<X: Outside>(
    alloc: Global,
    time_source: bool,
    cache: &mut LazyCache,
    current: &mut Option<IdentityLoad>,
    outside: &mut X,
    settings: &Settings,
    id: &Text,
) -> Result<Opened, OutOfMemory>
    ensures ok { IfOk result (λ found. (calls : _) × Chained X.makes outside.old calls outside.new
        × OpensLoad time_source settings.now id.now cache.old current.old found cache.new
        current.new calls) }
    ensures err { OnErr result ((calls : _) × Chained X.makes outside.old calls outside.new) }
{
    match current {
        Some(_) => Ok(Opened::Load),
        None => look_up(alloc, time_source, cache, current, outside, settings, id),
    }
}

// Looks the scheme's identity up, and begins a load where there is none.
fn look_up<X: Outside>(
    alloc: Global,
    time_source: bool,
    cache: &mut LazyCache,
    current: &mut Option<IdentityLoad>,
    outside: &mut X,
    settings: &Settings,
    id: &Text,
) -> Result<Opened, OutOfMemory>
    requires { current.old ≡ None }
    ensures ok { IfOk result (λ found. (calls : _) × Chained X.makes outside.old calls outside.new
        × LooksUp time_source settings.now id.now cache.old found cache.new current.new calls) }
    ensures err { OnErr result ((calls : _) × Chained X.makes outside.old calls outside.new) }
{
    let scheme = SchemeId::new(id.clone()?);
    let kept = scheme.clone()?;
    let moment = present(time_source, outside);
    let now = moment.unwrap_or(0);
    match cache.look(alloc, &scheme, now)? {
        Looked::Hit(identity) => Ok(Opened::Hit(identity)),
        Looked::NotYet => Ok(Opened::NotYet),
        Looked::Load(ticket) => {
            begin_load(alloc, cache, current, outside, settings, kept, ticket, now)?;
            Ok(Opened::Load)
        }
    }
}

// Starts the sleep of a load that was begun at this moment.
fn begin_load<X: Outside>(
    alloc: Global,
    cache: &mut LazyCache,
    current: &mut Option<IdentityLoad>,
    outside: &mut X,
    settings: &Settings,
    scheme: SchemeId,
    ticket: u64,
    now: u64,
) -> Result<(), OutOfMemory>
    ensures ok { OnOk result ((sleep : Option ℕ)
        × (cache.new ≡ cache.old)
        × (current.new ≡ Some (record {
          id = scheme;
          ticket = ticket;
          asked_at = now;
          timeout = timeout_by cache.old.terms
              settings.now;
          sleep = sleep;
        }))
        × Chained X.makes outside.old
        (OfTimers (Start (timeout_by cache.old.terms settings.now) (Ok sleep)) ∷ [])
        outside.new) }
    ensures err { OnErr result ((calls : _) × Chained X.makes outside.old calls outside.new) }
{
    let begun = cache.open(alloc, outside, scheme, ticket, now, settings)?;
    *current = Some(begun);
    Ok(())
}

// The choice of this identity.
fn chosen(
    alloc: Global,
    id: Text,
    identity: Identity,
    endpoint: Option<Shared<Endpoint>>,
    note: ChooseNote,
) -> Result<Answer, OutOfMemory>
    ensures { IfOk result (λ a. a ≡ chosen_so id identity endpoint note) }
{
    let chosen = Chosen {
        scheme: id,
        identity: Shared::new(alloc, identity)?,
        endpoint,
        settings: Layer::new(),
        note: Some(note),
    };
    Ok(Answer::Chosen(Shared::new(alloc, chosen)?))
}

// Asks the source of an open load.
fn go_on<X: Outside, R: ResolveIdentity>(
    alloc: Global,
    sources: &mut [RegisteredSource<R>],
    cache: &mut LazyCache,
    current: &mut Option<IdentityLoad>,
    load: &mut OpenLoad,
    outside: &mut X,
    id: Text,
    endpoint: Option<Shared<Endpoint>>,
) -> Result<Answer, OutOfMemory>
    ensures ok { IfOk result (λ a. (calls : _) × Chained X.makes outside.old calls outside.new
        × GoesOnLoading R.polls id endpoint
        sources.old cache.old current.old load.old a sources.new cache.new current.new load.new
        calls) }
    ensures err { OnErr result ((calls : _) × Chained X.makes outside.old calls outside.new) }
{
    let polled = ask_registered(alloc, sources, load, outside, &id)?;
    let answer = go_on_with(alloc, polled, cache, current, load, outside, id, endpoint)?;
    Ok(answer)
}

// Goes on with what the source answered.
fn go_on_with<X: Outside>(
    alloc: Global,
    polled: Option<IdentityPoll>,
    cache: &mut LazyCache,
    current: &mut Option<IdentityLoad>,
    load: &mut OpenLoad,
    outside: &mut X,
    id: Text,
    endpoint: Option<Shared<Endpoint>>,
) -> Result<Answer, OutOfMemory>
    ensures ok { IfOk result (λ a. (calls : _) × Chained X.makes outside.old calls outside.new
        × Continues id endpoint polled cache.old current.old load.old a cache.new current.new
        load.new calls) }
    ensures err { OnErr result ((calls : _) × Chained X.makes outside.old calls outside.new) }
{
    let Some(answer) = polled else {
        return Ok(Answer::Absent);
    };
    match answer {
        IdentityPoll::Pending => wait(alloc, cache, current, load, outside),
        IdentityPoll::Failed(text) => {
            fail(cache, current, outside);
            Ok(Answer::Failed(text))
        }
        IdentityPoll::Ready(identity) => {
            let word = outside.word();
            let kept = keep(cache, current, outside, identity, word)?;
            let choice = chosen(alloc, id, kept, endpoint, ChooseNote::Load)?;
            Ok(choice)
        }
    }
}

// Asks the sleep of a load whose source is pending.
fn wait<X: Outside>(
    alloc: Global,
    cache: &mut LazyCache,
    current: &mut Option<IdentityLoad>,
    load: &mut OpenLoad,
    outside: &mut X,
) -> Result<Answer, OutOfMemory>
    ensures ok { IfOk result (λ a. (calls : _) × Chained X.makes outside.old calls outside.new
        × (StaysPending cache.old current.old load.old a cache.new current.new load.new calls
        ⊎ TimesOut cache.old current.old load.old a cache.new current.new load.new calls)) }
    ensures err { OnErr result ((calls : _) × Chained X.makes outside.old calls outside.new) }
{
    let Some(waiting) = current else {
        return Ok(Answer::Pending);
    };
    match cache.wait(alloc, outside, waiting)? {
        None => Ok(Answer::Pending),
        Some(reason) => {
            *current = None;
            end_load(load, outside);
            Ok(Answer::Failed(reason))
        }
    }
}

// The open load failed.
fn fail<X: Outside>(cache: &mut LazyCache, current: &mut Option<IdentityLoad>, outside: &mut X)
    ensures cache { cache.new ≡ failed_open cache.old current.old }
    ensures current { current.new ≡ None }
    ensures calls { Chained X.makes outside.old (giving_up_open current.old) outside.new }
{
    if let Some(load) = current.take() {
        cache.fail(outside, load);
    }
}

// Keeps what the open load gave, and answers it.
fn keep<X: Outside>(
    cache: &mut LazyCache,
    current: &mut Option<IdentityLoad>,
    outside: &mut X,
    identity: Identity,
    word: u64,
) -> Result<Identity, OutOfMemory>
    ensures identity { IfOk result (λ kept. kept ≡ identity) }
    ensures cache { OnOk result (cache.new ≡ kept_open cache.old current.old identity word) }
    ensures current { current.new ≡ None }
    ensures calls { Chained X.makes outside.old (giving_up_open current.old) outside.new }
{
    match current.take() {
        Some(load) => cache.keep(outside, load, identity, word),
        None => Ok(identity),
    }
}

//! A client's identities: where they come from, their cache, and what is open of a choice.
ghost use Rattle.std.specs.Prelude.{◌≡◌, [], IfOk, OnErr};
ghost use Rattle.smithy_types.specs.Chain.{Chained};
ghost use Rattle.client_auth.specs.Choosing.{no_load};
ghost use Rattle.client_auth.specs.Identities.{
  ChoosesBy,
  at_rest,
  cached_by,
  ending_cached,
  ending_choice,
  has_cache,
  loads_of,
  rested,
};

use crate::cached::{choose_cached, end_cached};
use crate::choose::{OpenLoad, choose, end_load};
use crate::sources::RegisteredSource;
use auth_endpoint::AuthScheme;
use identity_cell::{IdentityLoad, LazyCache, ResolveIdentity, SharedIdentityCache};
use outside::Outside;
use run_grammar::Answer;
use smithy_context::Settings;
use smithy_types::{Endpoint, List, OutOfMemory, Shared, Text};
use std::alloc::Global;

/// A cache of identities, with the load into it that is open.
#[derive(Drop)]
pub struct CachedIdentities {
    /// The identities by the ids of their schemes.
    pub cache: LazyCache,
    /// The load that the choice at hand waits for.
    pub current: Option<IdentityLoad>,
}

/// A client's identities. R is a resolver of the program.
#[derive(Drop)]
pub struct Identities<R: ResolveIdentity> {
    /// Where they come from.
    pub sources: Vec<RegisteredSource<R>>,
    /// Their cache, where the client has one.
    pub cached: Option<CachedIdentities>,
    /// What the outside loads for the choice at hand.
    pub load: OpenLoad,
}

impl<R: ResolveIdentity> Identities<R> {
    /// Identities of these sources that are kept so. No load is open, and nothing is kept yet.
    pub fn new(
        alloc: Global,
        sources: Vec<RegisteredSource<R>>,
        cache: SharedIdentityCache,
    ) -> Identities<R>
        ensures { result ≡ record { sources = sources; cached = cached_by cache; load = no_load } }
    {
        Identities {
            sources,
            cached: cached_by(alloc, cache),
            load: OpenLoad::none(),
        }
    }

    /// Whether identities are kept.
    pub fn has_cache(&self) -> bool
        ensures { result ≡ has_cache self.now }
    {
        self.cached.is_some()
    }

    /// How many loads were begun into the cache, those too that failed or were given up. It stops
    /// at `u64::MAX`. Without a cache 0.
    pub fn loads(&self) -> u64
        ensures { result ≡ loads_of self.now.cached }
    {
        match &self.cached {
            None => 0,
            Some(cached) => cached.cache.loads(),
        }
    }

    /// Chooses a scheme among the options, and takes its identity from the cache or from its
    /// source.
    pub fn choose<X: Outside, A: AuthScheme>(
        &mut self,
        alloc: Global,
        options: &List<Text>,
        schemes: &[A],
        endpoint: &Shared<Endpoint>,
        time_source: bool,
        outside: &mut X,
        settings: &Settings,
    ) -> Result<Answer, OutOfMemory>
        ensures ok { IfOk result (λ a. (calls : _) × Chained X.makes outside.old calls outside.new
            × ChoosesBy A.names R.polls options.now schemes.now endpoint.now time_source
            settings.now
            self.old.cached self.old a self.new calls) }
        ensures err { OnErr result ((calls : _) × Chained X.makes outside.old calls outside.new) }
    {
        let sources = self.sources.as_mut_slice();
        let load = &mut self.load;
        match &mut self.cached {
            None => choose(
                alloc, options, schemes, sources, endpoint, load, outside, settings,
            ),
            Some(cached) => choose_cached(
                alloc,
                options,
                schemes,
                sources,
                endpoint,
                time_source,
                &mut cached.cache,
                &mut cached.current,
                load,
                outside,
                settings,
            ),
        }
    }

    /// Gives up what is open of a choice: the outside's load, and then the load into the cache.
    pub fn end_choice<X: Outside>(&mut self, outside: &mut X)
        ensures identities { self.new ≡ at_rest self.old }
        ensures calls { Chained X.makes outside.old (ending_choice self.old) outside.new }
    {
        end_load(&mut self.load, outside);
        end_load_into(&mut self.cached, outside);
    }
}

// The cache that keeps identities so, with nothing in it.
fn cached_by(alloc: Global, cache: SharedIdentityCache) -> Option<CachedIdentities>
    ensures { result ≡ cached_by cache }
{
    match cache {
        SharedIdentityCache::NoCache => None,
        SharedIdentityCache::Lazy(terms) => Some(CachedIdentities {
            cache: LazyCache::new(alloc, terms),
            current: None,
        }),
    }
}

// Gives up the load into the cache that is open.
fn end_load_into<X: Outside>(cached: &mut Option<CachedIdentities>, outside: &mut X)
    ensures cached { cached.new ≡ rested cached.old }
    ensures calls { Chained X.makes outside.old (ending_cached cached.old) outside.new }
{
    if let Some(kept) = cached {
        end_cached(&mut kept.cache, &mut kept.current, outside);
    }
}

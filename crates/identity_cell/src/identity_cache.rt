//! Whether and how a client keeps identities.
ghost use Rattle.std.specs.Prelude.{◌≡◌};
ghost use Rattle.identity_cell.specs.Builder.{no_parts};
ghost use Rattle.identity_cell.specs.declared.identity_cache.SharedIdentityCache.TheVariants.{NoCache};

use crate::{LazyCacheBuilder, LazyCacheTerms};

/// How a client keeps its identities.
#[derive(Clone, Copy, Debug, PartialEq, Eq)]
pub enum SharedIdentityCache {
    /// Nothing: each choice resolves an identity.
    NoCache,
    /// Each identity until it expires, by these numbers.
    Lazy(LazyCacheTerms),
}

/// The ways to keep identities.
pub struct IdentityCache;

impl IdentityCache {
    /// No identity is kept.
    pub fn no_cache() -> SharedIdentityCache
        ensures { result ≡ NoCache }
    {
        SharedIdentityCache::NoCache
    }

    /// Identities are kept until they expire, and loaded when they are asked for: a builder without
    /// any part.
    pub fn lazy() -> LazyCacheBuilder
        ensures { result ≡ no_parts }
    {
        LazyCacheBuilder::new()
    }
}

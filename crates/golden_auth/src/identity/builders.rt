//! Builders of lazy caches, and what they build or refuse.

use anyhow::{Result, bail};
use identity_cell::{IdentityCache, LazyCacheBuilder, LazyCacheTerms, SharedIdentityCache};
use smithy_types::BuildError;
use std::alloc::Global;

const SECOND: u64 = 1_000_000_000;

/// The numbers of the cache that the builder builds.
pub fn terms_of(builder: LazyCacheBuilder) -> Result<LazyCacheTerms> {
    match builder.build() {
        Ok(cache) => lazy_terms(&cache),
        Err(_) => bail!("no cache is built"),
    }
}

fn lazy_terms(cache: &SharedIdentityCache) -> Result<LazyCacheTerms> {
    match cache {
        SharedIdentityCache::Lazy(terms) => Ok(*terms),
        _ => bail!("the cache isn't lazy"),
    }
}

// What the builder builds, or why it doesn't, and whether it came back as it was.
fn built(alloc: Global, builder: LazyCacheBuilder) -> Result<String> {
    match builder.build() {
        Ok(cache) => Ok(format!(in alloc; "{cache:?}")?),
        Err((back, error)) => refused(alloc, error, back == builder),
    }
}

fn refused(alloc: Global, error: BuildError, is_same: bool) -> Result<String> {
    Ok(format!(in alloc; "{error:?}, the builder came back: {is_same}")?)
}

fn print_built(rt: &HostRuntime, name: &str, builder: LazyCacheBuilder) -> Result<()> {
    let text = built(rt.alloc(), builder)?;
    println!(rt; "builder {name}: {text}")?;
    Ok(())
}

// Without partitions and with a short expiration, and then mended.
fn print_refused(rt: &HostRuntime) -> Result<()> {
    let least = IdentityCache::lazy().default_expiration(900 * SECOND);
    print_built(rt, "of 900 s", least)?;
    let short = IdentityCache::lazy().default_expiration(899 * SECOND);
    print_built(rt, "of 899 s", short)?;
    let mut none = short.max_partitions(0);
    print_built(rt, "of 899 s and no partition", none)?;
    none.set_max_partitions(Some(1))
        .set_default_expiration(None);
    print_built(rt, "of one partition", none)
}

fn by_value() -> LazyCacheBuilder {
    LazyCacheBuilder::new()
        .time_source()
        .sleep_impl()
        .load_timeout(SECOND)
        .buffer_time(2 * SECOND)
        .default_expiration(1000 * SECOND)
        .max_partitions(3)
}

fn by_reference() -> LazyCacheBuilder {
    let mut builder = LazyCacheBuilder::default();
    builder
        .set_time_source()
        .set_sleep_impl()
        .set_load_timeout(Some(SECOND))
        .set_buffer_time(Some(2 * SECOND))
        .set_default_expiration(Some(1000 * SECOND))
        .set_max_partitions(Some(3));
    builder
}

/// Prints what builders build.
pub fn print(rt: &HostRuntime) -> Result<()> {
    println!(rt; "no cache: {:?}", IdentityCache::no_cache())?;
    print_built(rt, "of nothing", IdentityCache::lazy())?;
    print_refused(rt)?;
    println!(rt; "{:?}", by_value())?;
    print_built(rt, "of all parts", by_value())?;
    let is_same = by_reference() == by_value();
    println!(rt; "the setters by reference give the same: {is_same}")?;
    let mut cleared = by_reference();
    cleared.set_load_timeout(None).set_buffer_time(None);
    print_built(rt, "of all parts but two", cleared)
}

//! Which partitions are equal.
use crate::quota::registry::names::{custom_named, custom_partition, default_partition};
use crate::quota::registry::registers::two_buckets;
use anyhow::Result;
use retry_quota::RetryPartition;
use smithy_types::OutOfMemory;
use std::alloc::Global;
use std::hash::{DefaultHasher, Hash, Hasher};

fn hash_of(partition: &RetryPartition) -> u64 {
    let mut hasher = DefaultHasher::new();
    partition.hash(&mut hasher);
    hasher.finish()
}

fn print_compared(
    rt: &HostRuntime,
    name: &'static str,
    first: &RetryPartition,
    second: &RetryPartition,
) -> Result<()> {
    let equal = first == second;
    let hashed = hash_of(first) == hash_of(second);
    println!(rt; "  {name}: equal {equal}, equal hashes {hashed}")?;
    Ok(())
}

// A custom partition `test`, which may bring its numbers.
fn custom(alloc: Global, bucket: Option<u32>) -> Result<RetryPartition, OutOfMemory> {
    custom_partition(&mut two_buckets(alloc)?, alloc, bucket)
}

// A custom partition of this name.
fn named(alloc: Global, name: &'static str) -> Result<RetryPartition, OutOfMemory> {
    custom_named(&mut two_buckets(alloc)?, alloc, name)
}

fn copied(partition: &RetryPartition) -> Result<RetryPartition, OutOfMemory> {
    Ok(partition.clone()?)
}

/// Prints which partitions are equal and hash equally, and how one is printed.
pub fn print(rt: &HostRuntime) -> Result<()> {
    println!(rt; "a default and a custom partition differ")?;
    let test = default_partition("test");
    let same = default_partition("test");
    print_compared(rt, "two default ones named test", &test, &same)?;
    let shorter = default_partition("tes");
    print_compared(rt, "default ones named test and tes", &test, &shorter)?;
    print_customs(rt, &test)?;
    println!(rt; "  printed: {test}")?;
    Ok(())
}

fn print_customs(rt: &HostRuntime, test: &RetryPartition) -> Result<()> {
    let first = custom(rt.alloc(), None)?;
    print_compared(rt, "a default and a custom one named test", test, &first)?;
    print_brought(rt, &copied(&first)?)
}

// Compares a custom partition with one that brings its numbers.
fn print_brought(rt: &HostRuntime, first: &RetryPartition) -> Result<()> {
    let second = custom(rt.alloc(), Some(5))?;
    print_compared(rt, "two custom ones named test", first, &second)?;
    let other = named(rt.alloc(), "other")?;
    print_compared(rt, "custom ones named test and other", first, &other)
}

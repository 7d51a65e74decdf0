//! Which bucket and which limiter a partition has.
use crate::quota::registry::registers::{acquire, cost, print_sums, two_buckets};
use anyhow::Result;
use retry_quota::{Quota, RetryPartition, RetryPartitionBuilder};
use smithy_types::{ErrorKind, OutOfMemory, PartitionRegistry, RetrySpec, RetrySpecVersion, Text};
use std::alloc::Global;

/// The default partition of this name.
pub fn default_partition(name: &'static str) -> RetryPartition {
    RetryPartition::new(Text::from_static(name))
}

/// A custom partition `test`, which may bring its numbers.
pub fn custom_partition<R: PartitionRegistry>(
    registry: &mut R,
    alloc: Global,
    bucket: Option<u32>,
) -> Result<RetryPartition, OutOfMemory> {
    let built = match bucket {
        Some(bucket) => bringing(bucket).build(alloc, registry),
        None => bringing_nothing().build(alloc, registry),
    };
    built.map_err(|refused| refused.1)
}

/// A custom partition of this name, which brings nothing.
pub fn custom_named<R: PartitionRegistry>(
    registry: &mut R,
    alloc: Global,
    name: &'static str,
) -> Result<RetryPartition, OutOfMemory> {
    let built = RetryPartition::custom(Text::from_static(name)).build(alloc, registry);
    built.map_err(|refused| refused.1)
}

fn bringing_nothing() -> RetryPartitionBuilder {
    RetryPartition::custom(Text::from_static("test"))
}

fn bringing(bucket: u32) -> RetryPartitionBuilder {
    bringing_nothing()
        .token_bucket(bucket)
        .client_rate_limiter(9)
}

fn bucket_number<Q: Quota>(
    quota: &mut Q,
    alloc: Global,
    partition: &RetryPartition,
    spec: Option<&RetrySpec>,
) -> Result<u32, OutOfMemory> {
    quota.bucket_for(alloc, partition, spec)
}

fn limiter_number<Q: Quota>(
    quota: &mut Q,
    alloc: Global,
    partition: &RetryPartition,
) -> Result<u32, OutOfMemory> {
    quota.limiter_for(alloc, partition, 0)
}

fn print_numbers<Q: Quota>(
    rt: &HostRuntime,
    name: &'static str,
    quota: &mut Q,
    partition: &RetryPartition,
) -> Result<()> {
    let bucket = bucket_number(quota, rt.alloc(), partition, None)?;
    let limiter = limiter_number(quota, rt.alloc(), partition)?;
    println!(rt; "  {name} {partition}: bucket {bucket}, limiter {limiter}")?;
    Ok(())
}

fn print_default<Q: Quota>(rt: &HostRuntime, name: &'static str, quota: &mut Q) -> Result<()> {
    let partition = default_partition("test");
    print_numbers(rt, name, quota, &partition)
}

fn print_custom<Q: Quota + PartitionRegistry>(
    rt: &HostRuntime,
    name: &'static str,
    quota: &mut Q,
    bucket: Option<u32>,
) -> Result<()> {
    let custom = custom_partition(quota, rt.alloc(), bucket)?;
    print_numbers(rt, name, quota, &custom)
}

/// Prints the numbers of partitions, what a default one pays, and what a retry costs in a bucket by
/// the version under which its name came.
pub fn print(rt: &HostRuntime) -> Result<()> {
    print_kept(rt, &mut two_buckets(rt.alloc())?)?;
    print_paid(rt, &mut two_buckets(rt.alloc())?)?;
    print_versions(rt, &mut two_buckets(rt.alloc())?)
}

fn print_kept<Q: Quota + PartitionRegistry>(rt: &HostRuntime, quota: &mut Q) -> Result<()> {
    println!(rt; "a partition keeps its bucket and its limiter")?;
    print_default(rt, "default", quota)?;
    print_default(rt, "default again", quota)?;
    print_custom(rt, "custom", quota, None)?;
    print_custom(rt, "another custom", quota, None)?;
    print_custom(rt, "custom with its own", quota, Some(7))
}

// The sums of a default partition's bucket, of which the first acquire makes it.
fn print_paid<Q: Quota>(rt: &HostRuntime, quota: &mut Q) -> Result<()> {
    println!(rt; "a default partition pays from its bucket")?;
    print_payment(rt, "once", quota)?;
    print_payment(rt, "twice", quota)
}

fn print_payment<Q: Quota>(rt: &HostRuntime, name: &'static str, quota: &mut Q) -> Result<()> {
    let bucket = bucket_number(quota, rt.alloc(), &default_partition("test"), None)?;
    let _ = acquire(quota, bucket);
    print_sums(rt, name, quota, bucket)
}

const FIRST: RetrySpec = RetrySpec {
    version: RetrySpecVersion::V2_0,
    long_polling: false,
    non_throttling_initial_backoff: 0,
};

const SECOND: RetrySpec = RetrySpec {
    version: RetrySpecVersion::V2_1,
    long_polling: false,
    non_throttling_initial_backoff: 0,
};

/// Names and the versions under which their buckets are asked for.
const VERSIONS: &[(&'static str, RetrySpec)] = &[
    ("a", FIRST),
    ("a", SECOND),
    ("b", SECOND),
    ("b", FIRST),
];

const KINDS: &[ErrorKind] = &[
    ErrorKind::TransientError,
    ErrorKind::ThrottlingError,
    ErrorKind::ServerError,
    ErrorKind::ClientError,
];

// The bucket of a name is that of the version under which the name came first.
fn print_versions<Q: Quota>(rt: &HostRuntime, quota: &mut Q) -> Result<()> {
    println!(rt; "a name's first version opens its bucket")?;
    for (name, spec) in VERSIONS {
        print_version(rt, *name, quota, spec)?;
    }
    Ok(())
}

fn print_version<Q: Quota>(
    rt: &HostRuntime,
    name: &'static str,
    quota: &mut Q,
    spec: &RetrySpec,
) -> Result<()> {
    let bucket = bucket_number(quota, rt.alloc(), &default_partition(name), Some(spec))?;
    println!(rt; "  {name} under {:?}: bucket {bucket}", spec.version)?;
    for kind in KINDS {
        println!(rt; "    {kind:?}: {:?}", cost(quota, bucket, *kind))?;
    }
    Ok(())
}

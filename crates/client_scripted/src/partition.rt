//! The retry partitions of clients.
ghost use Rattle.std.specs.Prelude.{◌≡◌, Some, IfOk};
ghost use Rattle.client_scripted.specs.Parts.{PartitionOf};

use crate::client::ClientQuota;
use smithy_types::{OutOfMemory, RetryPartition, Text};
use std::alloc::Global;

/// The custom partition of a client with this bucket, and a limiter of its own that is registered.
/// Without a bucket the client has the default partition of its service.
pub fn partition_of(
    alloc: Global,
    service: &Text,
    bucket: Option<usize>,
    registry: &mut ClientQuota,
) -> Result<Option<RetryPartition>, OutOfMemory>
    ensures { IfOk result (λ partition. PartitionOf service.now bucket registry.old partition
        registry.new) }
{
    let Some(bucket) = bucket else {
        return Ok(None);
    };
    Ok(Some(custom_partition(alloc, service, bucket, registry)?))
}

// The custom partition of this bucket.
fn custom_partition(
    alloc: Global,
    service: &Text,
    bucket: usize,
    registry: &mut ClientQuota,
) -> Result<RetryPartition, OutOfMemory>
    ensures { IfOk result (λ partition. PartitionOf service.now (Some bucket) registry.old
        (Some partition) registry.new) }
{
    let Ok(bucket) = u32::try_from(bucket) else {
        return Err(OutOfMemory);
    };
    let builder = RetryPartition::custom(service.clone()?).token_bucket(bucket);
    match builder.build(alloc, registry) {
        Ok(partition) => Ok(partition),
        Err((_, error)) => Err(error),
    }
}

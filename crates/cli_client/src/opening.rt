//! The buckets that stand before a script's first invocation.
ghost use Rattle.std.specs.Prelude.{◌≡◌, IfOk};
ghost use Rattle.cli_client.specs.Opening.{quota_of};

use client_scripted::ClientQuota;
use retry_quota::{BucketTerms, Registry, TokenBucket};
use smithy_types::OutOfMemory;
use std::alloc::Global;

/// The registry of these buckets, each under its place in the script.
pub fn open_quota(alloc: Global, terms: &[BucketTerms]) -> Result<ClientQuota, OutOfMemory>
    ensures { IfOk result (λ quota. quota ≡ quota_of terms.now) }
{
    let mut quota = Registry::new(alloc)?;
    for one in terms {
        quota.add_bucket(alloc, TokenBucket::with_terms(*one))?;
    }
    Ok(quota)
}

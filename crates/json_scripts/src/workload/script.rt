//! The whole script.
ghost use Rattle.std.specs.Prelude.{◌≡◌, ◌≤◌, true, IfOk};
ghost use Rattle.json_scripts.specs.Client.Limits.{client_script_fits};
ghost use Rattle.json_scripts.specs.Client.Placed.{IsPlaced};
ghost use Rattle.json_scripts.specs.Workload.Made.{made_script};

use crate::client::ClientScript;
use crate::workload::client::made_client;
use crate::workload::invocations::made_invocations;
use retry_quota::BucketTerms;
use smithy_types::{List, OutOfMemory};
use std::alloc::Global;

/// A script of one client and one bucket, with so many invocations. By the seed each of them meets
/// a service that is unavailable up to twice. Each place that it names is there, and up to a
/// thousand invocations are within the limits of a script.
pub fn made_script(alloc: Global, count: u64, seed: u64) -> Result<ClientScript, OutOfMemory>
    ensures made { IfOk result (λ s. s ≡ made_script count seed) }
    ensures placed { IfOk result IsPlaced }
    ensures fits { IfOk result (λ s. count ≤ 1000 → client_script_fits s ≡ true) }
{
    let script = whole_script(alloc, count, seed)?;
    Ok(script)
}

// The script, part by part.
fn whole_script(alloc: Global, count: u64, seed: u64) -> Result<ClientScript, OutOfMemory>
    ensures { IfOk result (λ s. s ≡ made_script count seed) }
{
    let mut buckets = List::new();
    buckets.push(alloc, BucketTerms::default())?;
    let mut clients = List::new();
    clients.push(alloc, made_client(alloc)?)?;
    Ok(ClientScript {
        buckets,
        start: 0,
        words: List::new(),
        clients,
        invocations: made_invocations(alloc, count, seed)?,
    })
}

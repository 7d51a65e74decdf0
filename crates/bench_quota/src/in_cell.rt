//! Callers at a bucket in a cell, each with a pass.
ghost use Rattle.std.specs.Prelude.{◌≡◌, ◌≤◌, [], IfOk, vec_len};
ghost use Rattle.retry_quota_cell.specs.Known.{IsOf};
ghost use Rattle.retry_quota_cell.specs.Callers.{HasMade, IsUnused, own};

use crate::form::Load;
use crate::rounds::pay;
use rate_limit::ClientRateLimiter;
use retry_quota::{Sums, TokenBucket};
use retry_quota_cell::{At, Caller, CellBucket, CellQuota, Pass, run_callers};
use smithy_types::OutOfMemory;
use std::alloc::Global;
use std::marker::Brand;
use std::snapshot::Snapshot;
use std::sync::Wait;
use std::thread::Threads;

/// A caller that makes so many rounds.
#[derive(Drop)]
pub struct Payer {
    rounds: u32,
    end: Option<Snapshot<Pass>>,
}

impl Caller for Payer {
    ghost use Rattle.std.specs.Prelude.{◌≡◌, []};
    ghost use Rattle.std.specs.Option.{option_map_or};
    ghost use Rattle.retry_quota_cell.specs.Callers.{own};

    ghost made = { λ p. option_map_or (λ end. own end.value.view) p.end [] };

    ghost ends = { λ _ p q. q.rounds ≡ p.rounds };

    fn run<R: Wait>(self, rt: &R, bucket: &CellBucket, pass: Pass) -> (Payer, Pass) {
        let pass = pay_by_pass::<Brand, R>(rt, bucket, pass, self.rounds);
        let payer = Payer {
            rounds: self.rounds,
            end: Some(Snapshot::of(&pass)),
        };
        (payer, pass)
    }
}

// Makes so many rounds over a pass.
fn pay_by_pass<B: At, R: Wait>(rt: &R, bucket: &CellBucket, pass: Pass, rounds: u32) -> Pass
    requires place { bucket.now ≡ B.place }
    requires own { IsOf bucket.now pass }
    requires unused { IsUnused pass.view }
    ensures own { IsOf bucket.now result }
    ensures made { HasMade (own result.view) result.view }
{
    let mut quota = CellQuota::<B, _, R>::new(rt, bucket, pass, ClientRateLimiter::default());
    pay(&mut quota, rounds);
    quota.into_pass()
}

// So many callers.
fn payers(alloc: Global, load: Load) -> Result<Vec<Payer>, OutOfMemory>
    ensures { IfOk result (λ all. vec_len all ≡ load.callers) }
{
    let mut payers = Vec::new(alloc);
    while payers.len() < load.callers as usize {
        payers.push(Payer {
            rounds: load.rounds,
            end: None,
        })?;
    }
    Ok(payers)
}

/// Lets the callers spend in threads, and answers the sums and the number of steps.
pub fn spend<R: Threads + Wait + Sync>(
    rt: &R,
    alloc: Global,
    bucket: TokenBucket,
    load: Load,
) -> Result<(Sums, u64), OutOfMemory>
    requires { (1 ≤ load.callers) × (load.callers ≤ 16) }
{
    let callers = payers(alloc, load)?;
    let (bucket, pass) = CellBucket::new(rt, alloc, bucket, load.callers)?;
    let (_, sums, steps) = run_callers(rt, &bucket, pass, callers);
    Ok((sums, steps))
}

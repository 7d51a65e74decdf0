//! The quota of one caller over its handle on a shared bucket.
ghost use Rattle.std.specs.Prelude.{◌≡◌};

use crate::SharedBucket;
use retry_quota::{CallerQuota, Limiter, Permit, RequestReason};
use smithy_types::ErrorKind;
use std::marker::Model;
use std::sync::Wait;
use std::sync::ledger::Ledger;

/// A caller's quota. Its bucket 0 is the shared bucket, which serves every partition, and its
/// limiter 0 is the caller's own (`CallerQuota`). It tells neither books nor steps.
#[derive(Drop)]
pub struct SharedQuota<'a, L: Ledger, M: Limiter, R: Wait> {
    rt: &'a R,
    handle: SharedBucket<L>,
    limiter: M,
}

/// A quota is seen as what its handle stands for, and its limiter.
impl<'a, L: Ledger, M: Limiter, R: Wait> Model for SharedQuota<'a, L, M, R> {
    ghost use Rattle.retry_quota_locked.specs.Stake.{Stake};

    ghost Value = { Stake × M };

    ghost view = { λ q. (q.handle, q.limiter) };
}

impl<'a, L: Ledger, M: Limiter, R: Wait> SharedQuota<'a, L, M, R> {
    /// The quota over this handle, with this limiter.
    pub fn new(rt: &'a R, handle: SharedBucket<L>, limiter: M) -> SharedQuota<'a, L, M, R>
        ensures { result ≡ (handle, limiter) }
    {
        SharedQuota {
            rt,
            handle,
            limiter,
        }
    }

    /// The handle, for a join once the caller is done.
    pub fn into_handle(self) -> SharedBucket<L>
        ensures { result ≡ self.entry.0 }
    {
        self.handle
    }
}

impl<'a, L: Ledger, M: Limiter, R: Wait> CallerQuota for SharedQuota<'a, L, M, R> {
    ghost use Rattle.retry_quota_locked.specs.Stake.{caller_part};

    type Limiter = M;

    ghost means = { λ q. caller_part q.0.terms q.1 };

    fn pay(&mut self, kind: ErrorKind, now_secs: u64) -> Option<Permit> {
        let rt = self.rt;
        self.handle.acquire(rt, kind, now_secs)
    }

    fn give_back(&mut self, permit: Permit) {
        let rt = self.rt;
        self.handle.release(rt, permit);
    }

    fn give_up(&mut self, permit: Permit) {
        let rt = self.rt;
        self.handle.forget(rt, permit);
    }

    fn credit(&mut self) {
        let rt = self.rt;
        self.handle.reward_success(rt);
    }

    fn add_token(&mut self) {
        let rt = self.rt;
        self.handle.regenerate_a_token(rt);
    }

    fn reward(&self) -> u64 {
        self.handle.success_reward()
    }

    fn price(&self, kind: ErrorKind) -> u32 {
        self.handle.cost(kind)
    }

    fn ask_limiter(&mut self, now: u64, reason: RequestReason) -> Result<(), u64> {
        self.limiter.acquire(now, reason)
    }

    fn tell_limiter(&mut self, now: u64, throttled: bool) {
        self.limiter.update(now, throttled);
    }
}

//! The quota of one caller over its pass on a shared bucket.
ghost use Rattle.std.specs.Prelude.{◌≡◌};
ghost use Rattle.retry_quota_cell.specs.Known.{IsOf};
ghost use Rattle.retry_quota_cell.specs.Callers.{HasMade, own};
ghost use Rattle.retry_quota_cell.specs.Caller.{IsAlone};

use crate::cell_bucket::{CellBucket, Pass};
use retry_quota::{CallerQuota, Limiter, Permit, RequestReason};
use smithy_types::ErrorKind;
use std::marker::{Brand, Model, PhantomData};
use std::sync::Wait;

/// Names the bucket that a quota spends from, so that its type says which it is. Who makes the
/// quota picks it.
pub trait At {
    ghost use Rattle.retry_quota_cell.specs.Known.{Place};

    ghost place: { Place };
}

impl At for Brand {
    ghost use Rattle.retry_quota_cell.specs.Known.{no_place};

    ghost place = { no_place };
}

/// A caller's quota. Its bucket 0 is the shared bucket, which serves every partition, and its
/// limiter 0 is the caller's own (`CallerQuota`). It tells the steps that its pass made, with their
/// replies, and no books.
#[derive(Drop)]
pub struct CellQuota<'a, B: At, M: Limiter, R: Wait> {
    rt: &'a R,
    bucket: &'a CellBucket,
    pass: Pass,
    limiter: M,
    at: PhantomData<B>,
}

/// A quota is seen as its pass and its limiter.
impl<'a, B: At, M: Limiter, R: Wait> Model for CellQuota<'a, B, M, R> {
    ghost use Rattle.std.specs.Prelude.{◌≡◌};
    ghost use Rattle.retry_quota_cell.specs.Caller.{Caller, IsAlone};

    ghost Value = { Caller M };

    ghost view = { λ q. record { pass = q.pass; limiter = q.limiter } };

    ghost invariant = { λ q. (q.bucket.now ≡ B.place) × IsAlone B.place q.pass };
}

impl<'a, B: At, M: Limiter, R: Wait> CellQuota<'a, B, M, R> {
    /// The quota of one caller over its pass of the bucket, with this limiter. The pass has one
    /// part and has joined no other.
    pub fn new(rt: &'a R, bucket: &'a CellBucket, pass: Pass, limiter: M) -> CellQuota<'a, B, M, R>
        requires place { bucket.now ≡ B.place }
        requires alone { IsAlone B.place pass }
        ensures pass { result.pass ≡ pass }
        ensures limiter { result.limiter ≡ limiter }
    {
        CellQuota {
            rt,
            bucket,
            pass,
            limiter,
            at: PhantomData,
        }
    }

    /// The pass, for a join once the caller is done. It has made the steps that the quota told.
    pub fn into_pass(self) -> Pass
        ensures pass { result ≡ self.entry.pass }
        ensures own { IsOf B.place result }
        ensures made { HasMade (own result.view) result.view }
    {
        self.pass
    }
}

impl<'a, B: At, M: Limiter, R: Wait> CallerQuota for CellQuota<'a, B, M, R> {
    ghost use Rattle.retry_quota_cell.specs.Caller.{caller_part};

    type Limiter = M;

    ghost means = { caller_part B.place };

    fn pay(&mut self, kind: ErrorKind, now_secs: u64) -> Option<Permit> {
        let rt = self.rt;
        let bucket = self.bucket;
        bucket.acquire(rt, &mut self.pass, kind, now_secs)
    }

    fn give_back(&mut self, permit: Permit) {
        let rt = self.rt;
        let bucket = self.bucket;
        bucket.release(rt, &mut self.pass, permit);
    }

    fn give_up(&mut self, permit: Permit) {
        let rt = self.rt;
        let bucket = self.bucket;
        bucket.forget(rt, &mut self.pass, permit);
    }

    fn credit(&mut self) {
        let rt = self.rt;
        let bucket = self.bucket;
        bucket.reward_success(rt, &mut self.pass);
    }

    fn add_token(&mut self) {
        let rt = self.rt;
        let bucket = self.bucket;
        bucket.regenerate_a_token(rt, &mut self.pass);
    }

    fn reward(&self) -> u64 {
        self.bucket.success_reward()
    }

    fn price(&self, kind: ErrorKind) -> u32 {
        self.bucket.cost(kind)
    }

    fn ask_limiter(&mut self, now: u64, reason: RequestReason) -> Result<(), u64> {
        self.limiter.acquire(now, reason)
    }

    fn tell_limiter(&mut self, now: u64, throttled: bool) {
        self.limiter.update(now, throttled);
    }
}

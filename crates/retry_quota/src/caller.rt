//! The quota of one caller at a bucket that it shares with others.
ghost use Rattle.std.specs.Prelude.{◌≡◌, IfSome, option_map};
ghost use Rattle.retry_quota.specs.Caller.{Limits, Makes};
ghost use Rattle.retry_quota.specs.History.{Acquire, Release, Forget, Reward, Regenerate, Done};
ghost use Rattle.retry_quota.specs.History.{acquire_reply};

use crate::{Limiter, Permit, Quota, RequestReason, Sums};
use smithy_types::{ErrorKind, OutOfMemory, RetryPartition, RetrySpec};
use std::alloc::Global;

/// A caller's way to a bucket that it shares with others, and a limiter of its own. By that it is a
/// `Quota`, whose bucket 0 is the shared one and serves every partition, and whose limiter 0 is its
/// own. It tells no books.
pub trait CallerQuota {
    ghost use Rattle.retry_quota.specs.Caller.{CallerMeaning};

    type Limiter: Limiter;

    /// What the bucket costs and rewards, which steps are told, and the limiter.
    ghost means: { Self → CallerMeaning Self.Limiter };

    /// Pays for a retry after a failure of this kind, at this second. The permit's bucket is 0.
    fn pay(&mut self, kind: ErrorKind, now_secs: u64) -> Option<Permit>
        ensures made { Makes (means self.old) (Acquire kind now_secs)
            (acquire_reply (option_map (λ p. p.amount) result)) (means self.new) }
        ensures permit { IfSome result
            (λ p. (p.bucket ≡ 0) × (p.amount ≡ (means self.old).cost kind)) };

    /// Gives a permit's tokens back, where the bucket holds as much.
    fn give_back(&mut self, permit: Permit)
        ensures { Makes (means self.old) (Release permit.amount) Done (means self.new) };

    /// Gives a permit's tokens up, where the bucket holds as much.
    fn give_up(&mut self, permit: Permit)
        ensures { Makes (means self.old) (Forget permit.amount) Done (means self.new) };

    /// Adds the reward of a success to the fraction.
    fn credit(&mut self)
        ensures { Makes (means self.old) Reward Done (means self.new) };

    /// Adds a token, where there is room for it.
    fn add_token(&mut self)
        ensures { Makes (means self.old) Regenerate Done (means self.new) };

    /// What a success adds to the fraction, in thousandths of a token.
    fn reward(&self) -> u64
        ensures { result ≡ (means self.now).reward };

    /// What a retry after a failure of this kind costs, in tokens.
    fn price(&self, kind: ErrorKind) -> u32
        ensures { result ≡ (means self.now).cost kind };

    /// Asks the limiter for a request at this moment.
    fn ask_limiter(&mut self, now: u64, reason: RequestReason) -> Result<(), u64>
        ensures limiter { Limits (means self.old) (λ l. Self.Limiter.after_acquire l now reason)
            (means self.new) }
        ensures reply { result ≡ Self.Limiter.reply_to (means self.old).limiter now reason };

    /// Tells the limiter of a response at this moment, and whether it was throttled.
    fn tell_limiter(&mut self, now: u64, throttled: bool)
        ensures { Limits (means self.old) (λ l. Self.Limiter.after_update l now throttled)
            (means self.new) };
}

impl<C: CallerQuota> Quota for C {
    ghost use Rattle.retry_quota.specs.Caller.{one_bucket};

    type Permit = Permit;

    type Limiter = C::Limiter;

    ghost meaning = { λ quota. one_bucket (C.means quota) };

    ghost permit_bucket = { λ p. p.bucket };

    ghost permit_amount = { λ p. p.amount };

    fn has(&self, bucket: u32) -> bool {
        bucket == 0
    }

    fn acquire(&mut self, _bucket: u32, kind: ErrorKind, now_secs: u64) -> Option<Permit> {
        self.pay(kind, now_secs)
    }

    fn release(&mut self, permit: Permit) {
        if permit.bucket == 0 {
            self.give_back(permit);
        }
    }

    fn forget(&mut self, permit: Permit) {
        if permit.bucket == 0 {
            self.give_up(permit);
        }
    }

    fn reward_success(&mut self, _bucket: u32) {
        self.credit();
    }

    fn regenerate_a_token(&mut self, _bucket: u32) {
        self.add_token();
    }

    fn success_reward(&self, _bucket: u32) -> u64 {
        self.reward()
    }

    fn cost(&self, _bucket: u32, kind: ErrorKind) -> u32 {
        self.price(kind)
    }

    fn sums(&self, _bucket: u32) -> Option<Sums> {
        None
    }

    fn bucket_for(
        &mut self,
        _alloc: Global,
        partition: &RetryPartition,
        _spec: Option<&RetrySpec>,
    ) -> Result<u32, OutOfMemory> {
        match partition.custom {
            Some(numbers) => Ok(numbers.bucket),
            None => Ok(0),
        }
    }

    fn limiter_for(
        &mut self,
        _alloc: Global,
        partition: &RetryPartition,
        _now: u64,
    ) -> Result<u32, OutOfMemory> {
        match partition.custom {
            Some(numbers) => Ok(numbers.limiter),
            None => Ok(0),
        }
    }

    fn limiter_acquire(
        &mut self,
        limiter: u32,
        now: u64,
        reason: RequestReason,
    ) -> Result<(), u64> {
        if limiter == 0 {
            self.ask_limiter(now, reason)
        } else {
            Ok(())
        }
    }

    fn limiter_update(&mut self, limiter: u32, now: u64, throttled: bool) {
        if limiter == 0 {
            self.tell_limiter(now, throttled);
        }
    }

    ghost told = { λ quota. tt };
}

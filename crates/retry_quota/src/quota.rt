//! What retries are paid from.
ghost use Rattle.std.specs.Prelude.{◌≡◌, ℕ, IsTrue, IfSome, IfOk, OnErr, Option, slice_get};
ghost use Rattle.std.specs.Prelude.{option_map, option_copied, Ok};
ghost use Rattle.std.specs.Option.{option_map_or};
ghost use Rattle.retry_quota.specs.Book.{sums_of};
ghost use Rattle.retry_quota.specs.History.{Acquire, Release, Forget, Reward, Regenerate, Done};
ghost use Rattle.retry_quota.specs.History.{acquire_reply};

use crate::{Limiter, RequestReason, Sums};
use smithy_types::{ErrorKind, OutOfMemory, RetryPartition, RetrySpec};
use std::alloc::Global;

/// Buckets and limiters by their numbers, from which retries are paid.
pub trait Quota {
    ghost use Rattle.retry_quota.specs.Meaning.{Meaning, Steps, Settles, ChangesLimiter};
    ghost use Rattle.retry_quota.specs.Meaning.{AreTheBuckets, AnswersBucket, AnswersLimiter};
    ghost use Rattle.retry_quota.specs.Meaning.{BucketIsThere, LimiterIsThere, IsKept, book_at};

    /// What an acquire gives. It is spent by a release or a forget.
    type Permit: Drop;

    type Limiter: Limiter;

    /// What it tells: which buckets and limiters are there, their books and its steps.
    ghost meaning: { Self → Meaning Self.Limiter };

    /// The number of a permit's bucket.
    ghost permit_bucket: { Self.Permit → ℕ };

    /// How many tokens a permit stands for.
    ghost permit_amount: { Self.Permit → ℕ };

    /// Whether the bucket is there. One that is there stays there.
    fn has(&self, bucket: u32) -> bool
        ensures { result ≡ (meaning self.now).has bucket };

    /// Pays for a retry after a failure of this kind, at this second.
    fn acquire(&mut self, bucket: u32, kind: ErrorKind, now_secs: u64) -> Option<Self::Permit>
        requires { IsTrue ((meaning self.old).has bucket) }
        ensures step { Steps (meaning self.old) bucket (Acquire kind now_secs)
            (acquire_reply (option_map permit_amount result)) (meaning self.new) }
        ensures permit { IfSome result
            (λ p. (permit_bucket p ≡ bucket)
            × (permit_amount p ≡ (meaning self.old).cost bucket kind)) };

    /// Gives a permit's tokens back to its bucket. Where that bucket isn't there or doesn't hold as
    /// much, the permit is spent and no sum changes.
    fn release(&mut self, permit: Self::Permit)
        ensures { Settles (meaning self.old) (permit_bucket permit) (Release (permit_amount permit))
            (meaning self.new) };

    /// Gives a permit's tokens up in its bucket. Where that bucket isn't there or doesn't hold as
    /// much, the permit is spent and no sum changes.
    fn forget(&mut self, permit: Self::Permit)
        ensures { Settles (meaning self.old) (permit_bucket permit) (Forget (permit_amount permit))
            (meaning self.new) };

    /// Adds the bucket's reward of a success to its fraction.
    fn reward_success(&mut self, bucket: u32)
        requires { IsTrue ((meaning self.old).has bucket) }
        ensures { Steps (meaning self.old) bucket Reward Done (meaning self.new) };

    /// Adds a token to the bucket, where there is room for it.
    fn regenerate_a_token(&mut self, bucket: u32)
        requires { IsTrue ((meaning self.old).has bucket) }
        ensures { Steps (meaning self.old) bucket Regenerate Done (meaning self.new) };

    /// The bucket's reward of a success, in thousandths of a token. It never changes.
    fn success_reward(&self, bucket: u32) -> u64
        requires { IsTrue ((meaning self.now).has bucket) }
        ensures { result ≡ (meaning self.now).reward bucket };

    /// What a retry after a failure of this kind costs in the bucket. It never changes.
    fn cost(&self, bucket: u32, kind: ErrorKind) -> u32
        requires { IsTrue ((meaning self.now).has bucket) }
        ensures { result ≡ (meaning self.now).cost bucket kind };

    /// The bucket's sums, where the books are told.
    fn sums(&self, bucket: u32) -> Option<Sums>
        requires { IsTrue ((meaning self.now).has bucket) }
        ensures { result ≡ option_map sums_of (book_at (meaning self.now) bucket) };

    /// The number of the partition's bucket: a custom one brings it. For a default one it is the
    /// bucket that is kept under its name, and where the name is new a bucket is added as the
    /// specification has it. A default partition's bucket is there.
    fn bucket_for(
        &mut self,
        alloc: Global,
        partition: &RetryPartition,
        spec: Option<&RetrySpec>,
    ) -> Result<u32, OutOfMemory>
        ensures ok { IfOk result (λ number. AnswersBucket (meaning self.old) partition.now
            (option_copied spec.entry) number (meaning self.new)) }
        ensures there { IfOk result (λ number. BucketIsThere (meaning self.new) partition.now
            number) }
        ensures err { OnErr result (IsKept (meaning self.old) (meaning self.new)) };

    /// The number of the partition's limiter: a custom one brings it. For a default one it is the
    /// limiter that is kept under its name, and one that begins now is added where the name is new.
    /// A default partition's limiter is there.
    fn limiter_for(
        &mut self,
        alloc: Global,
        partition: &RetryPartition,
        now: u64,
    ) -> Result<u32, OutOfMemory>
        ensures ok { IfOk result (λ number. AnswersLimiter (meaning self.old) partition.now
            (Self.Limiter.at now) number (meaning self.new)) }
        ensures there { IfOk result (λ number. LimiterIsThere (meaning self.new) partition.now
            number) }
        ensures err { OnErr result (IsKept (meaning self.old) (meaning self.new)) };

    /// Asks a limiter for a request at this moment. A number that isn't there refuses nothing.
    fn limiter_acquire(&mut self, limiter: u32, now: u64, reason: RequestReason) -> Result<(), u64>
        ensures limiter { ChangesLimiter (meaning self.old) limiter
            (λ l. Self.Limiter.after_acquire l now reason) (meaning self.new) }
        ensures reply { result ≡ option_map_or (λ l. Self.Limiter.reply_to l now reason)
            (slice_get (meaning self.old).limiters limiter) (Ok tt) };

    /// Tells a limiter of a response at this moment, and whether it was throttled. A number that
    /// isn't there changes nothing.
    fn limiter_update(&mut self, limiter: u32, now: u64, throttled: bool)
        ensures { ChangesLimiter (meaning self.old) limiter
            (λ l. Self.Limiter.after_update l now throttled) (meaning self.new) };

    /// The books that are told are those of the buckets.
    ghost told: { (q : Self) → IfSome (meaning q).books (AreTheBuckets (meaning q)) };
}

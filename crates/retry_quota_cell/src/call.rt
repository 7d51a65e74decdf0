//! The calls that change a bucket, each with its answer.
ghost use Rattle.std.specs.Prelude.{◌≡◌};

use retry_quota::{Permit, TokenBucket};
use smithy_types::ErrorKind;

/// A call on a bucket, which is one step of its book.
pub trait Call {
    ghost use Rattle.retry_quota.specs.History.{Step, Reply, after, reply_to};

    type Answer: Drop;

    /// The step that the call makes.
    ghost step: { Self → Step };

    /// The reply that an answer stands for.
    ghost reply: { Self.Answer → Reply };

    /// Makes the step on a bucket.
    fn make(&self, bucket: &mut TokenBucket) -> Self::Answer
        ensures book { bucket.new ≡ after (step self.now) bucket.old }
        ensures reply { reply result ≡ reply_to (step self.now) bucket.old };
}

/// Pays for a retry after a failure of this kind, at this second. The answer is what it cost.
#[derive(Clone, Copy, Drop)]
pub struct Acquire {
    /// What the retry is of.
    pub kind: ErrorKind,
    /// The second.
    pub now_secs: u64,
}

impl Call for Acquire {
    ghost use Rattle.retry_quota.specs.History.{acquire_reply, Acquire as Acquires};

    type Answer = Option<u32>;

    ghost step = { λ c. Acquires c.kind c.now_secs };

    ghost reply = { acquire_reply };

    fn make(&self, bucket: &mut TokenBucket) -> Option<u32> {
        match bucket.acquire(self.kind, self.now_secs) {
            Some(permit) => Some(permit.amount),
            None => None,
        }
    }
}

/// Gives so many tokens back, where as many are held.
#[derive(Clone, Copy, Drop)]
pub struct Release {
    /// How many tokens.
    pub amount: u32,
}

impl Call for Release {
    ghost use Rattle.retry_quota.specs.History.{Done, Release as Releases};

    type Answer = ();

    ghost step = { λ c. Releases c.amount };

    ghost reply = { λ a. Done };

    fn make(&self, bucket: &mut TokenBucket) {
        if self.amount as u64 <= bucket.sums().held {
            let permit = Permit {
                bucket: 0,
                amount: self.amount,
            };
            bucket.release(permit);
        }
    }
}

/// Gives so many tokens up, where as many are held.
#[derive(Clone, Copy, Drop)]
pub struct Forget {
    /// How many tokens.
    pub amount: u32,
}

impl Call for Forget {
    ghost use Rattle.retry_quota.specs.History.{Done, Forget as Forgets};

    type Answer = ();

    ghost step = { λ c. Forgets c.amount };

    ghost reply = { λ a. Done };

    fn make(&self, bucket: &mut TokenBucket) {
        if self.amount as u64 <= bucket.sums().held {
            let permit = Permit {
                bucket: 0,
                amount: self.amount,
            };
            bucket.forget(permit);
        }
    }
}

/// Adds the reward of a success to the fraction.
#[derive(Clone, Copy, Drop)]
pub struct Reward;

impl Call for Reward {
    ghost use Rattle.retry_quota.specs.History.{Done, Reward as Rewards};

    type Answer = ();

    ghost step = { λ c. Rewards };

    ghost reply = { λ a. Done };

    fn make(&self, bucket: &mut TokenBucket) {
        bucket.reward_success();
    }
}

/// Adds a token, where there is room for it.
#[derive(Clone, Copy, Drop)]
pub struct Regenerate;

impl Call for Regenerate {
    ghost use Rattle.retry_quota.specs.History.{Done, Regenerate as Regenerates};

    type Answer = ();

    ghost step = { λ c. Regenerates };

    ghost reply = { λ a. Done };

    fn make(&self, bucket: &mut TokenBucket) {
        bucket.regenerate_a_token();
    }
}

/// Takes the whole tokens out of the fraction. The answer is whether nothing can be added now, and
/// whether no token is available.
#[derive(Clone, Copy, Drop)]
pub struct Convert;

impl Call for Convert {
    ghost use Rattle.retry_quota.specs.History.{Level, Convert as Converts};

    type Answer = (bool, bool);

    ghost step = { λ c. Converts };

    ghost reply = { λ a. Level a.0 a.1 };

    fn make(&self, bucket: &mut TokenBucket) -> (bool, bool) {
        let full = bucket.is_full();
        let empty = bucket.sums().available == 0;
        (full, empty)
    }
}

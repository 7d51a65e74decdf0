//! The steps of a bucket, with what each does to the tokens that are held.
ghost use Rattle.std.specs.Prelude.{◌≡◌, ◌+◌, ◌≤◌, IfSome, option_map};
ghost use Rattle.std.specs.Option.{IfNone};
ghost use Rattle.retry_quota.specs.History.{
  after,
  acquire_reply,
  reply_to,
  Acquire,
  Release,
  Forget,
  Reward,
  Regenerate,
  Convert,
};
ghost use Rattle.retry_quota.specs.Book.{cost_of, is_empty, is_full};

use retry_quota::{Permit, TokenBucket};
use smithy_types::ErrorKind;

/// Pays for a retry after a failure of this kind, at this second. Where it is granted, the permit's
/// amount is held.
pub fn acquire(bucket: &mut TokenBucket, kind: ErrorKind, now_secs: u64) -> Option<Permit>
    ensures book { bucket.new ≡ after (Acquire kind now_secs) bucket.old }
    ensures reply { acquire_reply (option_map (λ p. p.amount) result) ≡
        reply_to (Acquire kind now_secs) bucket.old }
    ensures permit { IfSome result
        (λ p. p ≡ record { bucket = 0; amount = cost_of kind bucket.old }) }
    ensures granted { IfSome result (λ p. bucket.new.held ≡ bucket.old.held + p.amount) }
    ensures refused { IfNone result (bucket.new.held ≡ bucket.old.held) }
{
    let permit = bucket.acquire(kind, now_secs);
    permit
}

/// Gives a permit's tokens back.
pub fn release(bucket: &mut TokenBucket, permit: Permit)
    requires { permit.amount ≤ bucket.old.held }
    ensures book { bucket.new ≡ after (Release permit.amount) bucket.old }
    ensures held { bucket.new.held + permit.amount ≡ bucket.old.held }
{
    bucket.release(permit);
}

/// Gives a permit's tokens up.
pub fn forget(bucket: &mut TokenBucket, permit: Permit)
    requires { permit.amount ≤ bucket.old.held }
    ensures book { bucket.new ≡ after (Forget permit.amount) bucket.old }
    ensures held { bucket.new.held + permit.amount ≡ bucket.old.held }
{
    bucket.forget(permit);
}

/// Adds a token, where there is room for it.
pub fn regenerate_a_token(bucket: &mut TokenBucket)
    ensures book { bucket.new ≡ after Regenerate bucket.old }
    ensures held { bucket.new.held ≡ bucket.old.held }
{
    bucket.regenerate_a_token();
}

/// Whether nothing can be added, once whole tokens have left the fraction.
pub fn is_full(bucket: &mut TokenBucket) -> bool
    ensures book { bucket.new ≡ after Convert bucket.old }
    ensures full { result ≡ is_full bucket.new }
    ensures held { bucket.new.held ≡ bucket.old.held }
{
    bucket.is_full()
}

/// Whether no token is available, once whole tokens have left the fraction.
pub fn is_empty(bucket: &mut TokenBucket) -> bool
    ensures book { bucket.new ≡ after Convert bucket.old }
    ensures empty { result ≡ is_empty bucket.new }
    ensures held { bucket.new.held ≡ bucket.old.held }
{
    bucket.is_empty()
}

//! Paying for a poll.
ghost use Rattle.std.specs.Prelude.{◌≡◌};
ghost use Rattle.retry_quota.specs.History.{is_granted};
ghost use Rattle.waiter_fleet.specs.Steps.{asked};

use retry_quota::TokenBucket;
use smithy_types::ErrorKind;

/// Acquires the cost of a retry after a server's error at this second, and forgets it at once.
/// Answers whether the bucket granted it.
pub(crate) fn charge(bucket: &mut TokenBucket, second: u64) -> bool
    ensures granted { result ≡ is_granted ErrorKind.ServerError second bucket.old }
    ensures book { bucket.new ≡ asked second result bucket.old }
{
    match bucket.acquire(ErrorKind::ServerError, second) {
        Some(permit) => {
            bucket.forget(permit);
            true
        }
        None => false,
    }
}

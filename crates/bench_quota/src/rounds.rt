//! What a caller does: so many rounds at bucket 0 of its quota.
ghost use Rattle.std.specs.Prelude.{IsTrue};

use retry_quota::Quota;
use smithy_types::ErrorKind;

/// Makes so many rounds.
pub fn pay<Q: Quota>(quota: &mut Q, rounds: u32)
    requires { IsTrue ((Q.meaning quota.old).has 0) }
    ensures { IsTrue ((Q.meaning quota.new).has 0) }
{
    for _ in 0..rounds {
        match quota.acquire(0, ErrorKind::ServerError, 0) {
            Some(permit) => quota.release(permit),
            None => quota.reward_success(0),
        }
    }
}

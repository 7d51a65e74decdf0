//! The limits of a script's numbers.
ghost use Rattle.std.specs.Prelude.{◌≡◌};
ghost use Rattle.cli_waiters.specs.Script.Script.{is_within};

use crate::script::terms::WaitersScript;
use json_scripts::FUEL_LIMIT;
use retry_quota::MAXIMUM_CAPACITY;

/// The most waiters of a script.
const WAITERS_LIMIT: usize = 64;

/// Whether the fuel, the waiters and the bucket's capacity are within their limits.
pub fn is_within(script: &WaitersScript) -> bool
    ensures { result ≡ is_within script.now }
{
    script.fuel <= FUEL_LIMIT
        && script.waiters.len() <= WAITERS_LIMIT
        && script.bucket.capacity <= MAXIMUM_CAPACITY
}

//! What builders of clients are given.
ghost use Rattle.std.specs.Prelude.{◌≡◌, true};
ghost use Rattle.smithy_types.specs.Config.{standard_retry};

use smithy_types::RetryConfig;

/// At most three attempts, a second and two seconds apart, without a random part.
pub fn steady_retry() -> RetryConfig
    ensures { result ≡ record standard_retry { static_base = true } }
{
    let mut retry = RetryConfig::standard();
    retry.static_base = true;
    retry
}

/// The same value, without the facts that are known of it: of a builder nothing is known then, and
/// no goal behind its setters computes on the parts of the empty one.
pub fn without_facts<T>(value: T) -> T {
    value
}

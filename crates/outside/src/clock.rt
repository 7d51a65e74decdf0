//! The present moment, for a client that may have no time source.
ghost use Rattle.std.specs.Prelude.{IsSome, IsTrue, ◌↔◌};
ghost use Rattle.smithy_types.specs.Chain.{Chained};
ghost use Rattle.outside.specs.Clock.{clock_calls};

use crate::Outside;

/// The present moment in nanoseconds, none without a time source.
pub fn present<X: Outside>(time_source: bool, outside: &mut X) -> Option<u64>
    ensures calls { Chained X.makes outside.old (clock_calls result) outside.new }
    ensures known { IsSome result ↔ IsTrue time_source }
{
    if time_source {
        Some(outside.now())
    } else {
        None
    }
}

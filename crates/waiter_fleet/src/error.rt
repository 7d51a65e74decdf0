//! Why a fleet can't run.
ghost use Rattle.std.specs.Prelude.{◌≡◌};

use smithy_types::OutOfMemory;
use thiserror::Error;

/// Why a fleet's run has no events.
#[derive(Clone, Copy, Debug, PartialEq, Eq, Error)]
pub enum FleetError {
    /// The first waiter whose plan no waiter can follow: its least delay is below a second, or its
    /// greatest delay below the least.
    #[error("the plan of waiter {waiter} has a least delay below a second or above its greatest")]
    BadPlan {
        /// Its number, from 0 on.
        waiter: u32,
    },
    /// An allocation was refused.
    #[error("out of memory")]
    OutOfMemory,
}

impl From<OutOfMemory> for FleetError {
    ghost use Rattle.waiter_fleet.specs.declared.error.FleetError.TheVariants as variant;

    ghost from_gives = { λ _ error. error ≡ variant.OutOfMemory };

    fn from(_refused: OutOfMemory) -> FleetError {
        FleetError::OutOfMemory
    }
}

//! An error that tells more than its name: a parcel is too heavy, and this is the most that it may
//! weigh.

use json_payloads::{
    DetailedError, JsonForm, JsonPayload, ModeledError, ReadError, Value, print_object, read_object,
};
use smithy_types::{ErrorKind, OutOfMemory};
use std::alloc::Global;

/// The status of responses with this error.
pub const TOO_HEAVY: u32 = 413;

/// What the service refuses.
#[derive(Clone, Copy, Debug, PartialEq, Eq)]
pub enum Fault {
    /// The parcel is too heavy.
    TooHeavy,
}

/// What a parcel may weigh, which must be there, and where a heavier one is taken.
#[derive(Debug, Drop)]
pub struct Limit {
    /// The most that is taken here.
    pub grams: u32,
    /// How many seconds to wait for a larger van.
    pub wait: Option<u32>,
}

/// An error with the limit that came with it.
pub type ParcelRefused = DetailedError<Fault, Limit>;

impl JsonForm for Limit {
    ghost use Rattle.golden_payloads.specs.Refusals.{limit};

    ghost form = { limit };

    fn print(&self, alloc: Global) -> Result<Value, OutOfMemory> {
        print_object!(alloc, "grams" => &self.grams, "wait" => &self.wait)
    }

    fn read(alloc: Global, value: &Value) -> Result<Limit, ReadError> {
        read_object!(alloc, value => Limit { grams: "grams", wait: "wait" })
    }
}

impl JsonPayload for Limit {
    ghost use Rattle.std.specs.Prelude.{refl};

    ghost nests = { refl };
}

impl ModeledError for Fault {
    ghost use Rattle.std.specs.Prelude.{refl};
    ghost use Rattle.golden_payloads.specs.Refusals.{fault_of};
    ghost use Rattle.golden_payloads.specs.declared.refusals.Fault.TheVariants.{TooHeavy};
    ghost use Rattle.smithy_types.specs.declared.kinds.ErrorKind.TheVariants.{ClientError};
    ghost use Rattle.std.specs.Prelude.{Some};

    ghost status = { λ _. 413 };

    ghost of_status = { fault_of };

    ghost retry = { λ _. Some ClientError };

    fn status(&self) -> u32 {
        TOO_HEAVY
    }

    fn of_status(code: u32) -> Option<Fault> {
        match code {
            TOO_HEAVY => Some(Fault::TooHeavy),
            _ => None,
        }
    }

    fn retry(&self) -> Option<ErrorKind> {
        Some(ErrorKind::ClientError)
    }

    ghost statuses_differ = { elim [ TooHeavy ↦ refl ] };
}

//! The service's model: what its two operations take and answer, its errors, and how they stand in
//! JSON.

use json_payloads::{
    DateTime, Json, JsonForm, JsonPayload, ModeledError, ReadError, ServiceError, Value,
    print_object, read_object,
};
use smithy_runtime::{ErrorKind, OutOfMemory, Text};
use std::alloc::Global;
use thiserror::Error;

/// What `SendParcel` takes and answers, each with the kind of its payloads.
pub type SendInput = Json<Parcel, 1>;

pub type SendOutput = Json<Receipt, 2>;

/// What `TrackParcel` takes, a parcel's number, and what it answers.
pub type TrackInput = Json<Text, 3>;

pub type TrackOutput = Json<Sight, 4>;

/// An error of the service, with its message.
pub type ParcelError = ServiceError<ParcelFault>;

/// A parcel that is sent.
#[derive(Debug, Drop)]
pub struct Parcel {
    pub recipient: Text,
    pub weight_grams: u32,
    pub note: Option<Text>,
}

/// What came of it.
#[derive(Debug, Drop)]
pub struct Receipt {
    pub number: Text,
    pub price_cents: u64,
}

/// Whether a parcel was delivered, and when it was seen.
#[derive(Debug, Drop)]
pub struct Sight {
    pub delivered: bool,
    pub seen: Option<DateTime>,
}

/// What the service refuses.
#[derive(Clone, Copy, Debug, PartialEq, Eq, Error)]
pub enum ParcelFault {
    #[error("too many parcels are sent")]
    Overloaded,
    #[error("there is no such parcel")]
    NoSuchParcel,
}

impl JsonForm for Parcel {
    ghost use Rattle.example_parcel.specs.Model.{parcel};

    ghost form = { parcel };

    fn print(&self, alloc: Global) -> Result<Value, OutOfMemory> {
        print_object!(
            alloc,
            "recipient" => &self.recipient,
            "weightGrams" => &self.weight_grams,
            "note" => &self.note,
        )
    }

    fn read(alloc: Global, value: &Value) -> Result<Parcel, ReadError> {
        read_object!(alloc, value => Parcel {
            recipient: "recipient",
            weight_grams: "weightGrams",
            note: "note",
        })
    }
}

impl JsonForm for Receipt {
    ghost use Rattle.example_parcel.specs.Model.{receipt};

    ghost form = { receipt };

    fn print(&self, alloc: Global) -> Result<Value, OutOfMemory> {
        print_object!(alloc, "number" => &self.number, "priceCents" => &self.price_cents)
    }

    fn read(alloc: Global, value: &Value) -> Result<Receipt, ReadError> {
        read_object!(alloc, value => Receipt { number: "number", price_cents: "priceCents" })
    }
}

impl JsonForm for Sight {
    ghost use Rattle.example_parcel.specs.Model.{sight};

    ghost form = { sight };

    fn print(&self, alloc: Global) -> Result<Value, OutOfMemory> {
        print_object!(alloc, "delivered" => &self.delivered, "seen" => &self.seen)
    }

    fn read(alloc: Global, value: &Value) -> Result<Sight, ReadError> {
        read_object!(alloc, value => Sight { delivered: "delivered", seen: "seen" })
    }
}

impl JsonPayload for Parcel {
    ghost use Rattle.std.specs.Prelude.{refl};

    ghost nests = { refl };
}

impl JsonPayload for Receipt {
    ghost use Rattle.std.specs.Prelude.{refl};

    ghost nests = { refl };
}

impl JsonPayload for Sight {
    ghost use Rattle.std.specs.Prelude.{refl};

    ghost nests = { refl };
}

impl ModeledError for ParcelFault {
    ghost use Rattle.std.specs.Prelude.{refl};
    ghost use Rattle.example_parcel.specs.Model.{fault_of, retry_of, status_of};
    ghost use Rattle.example_parcel.specs.declared.model.ParcelFault.TheVariants.{
      NoSuchParcel,
      Overloaded,
    };

    ghost status = { status_of };

    ghost of_status = { fault_of };

    ghost retry = { retry_of };

    fn status(&self) -> u32 {
        match self {
            ParcelFault::Overloaded => 429,
            ParcelFault::NoSuchParcel => 404,
        }
    }

    fn of_status(code: u32) -> Option<ParcelFault> {
        match code {
            429 => Some(ParcelFault::Overloaded),
            404 => Some(ParcelFault::NoSuchParcel),
            _ => None,
        }
    }

    fn retry(&self) -> Option<ErrorKind> {
        match self {
            ParcelFault::Overloaded => Some(ErrorKind::ThrottlingError),
            ParcelFault::NoSuchParcel => None,
        }
    }

    ghost statuses_differ = { elim [ Overloaded ↦ refl | NoSuchParcel ↦ refl ] };
}

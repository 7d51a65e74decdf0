//! A model with a member of every shape.

use json_payloads::{Double, EpochSeconds, SparseList, TextMap};
use smithy_types::{Blob, List, Text};

/// Where a shipment is.
#[derive(Clone, Copy, Debug, PartialEq, Eq)]
pub enum State {
    /// It waits.
    Packed,
    /// It was fetched.
    OnTheWay,
    /// It has come.
    Delivered,
}

/// Where somebody lives.
#[derive(Debug, Drop)]
pub struct Address {
    /// The street's name.
    pub street: Text,
    /// The house's number.
    pub house: Option<u32>,
}

/// How a shipment is paid.
#[derive(Debug, Drop)]
pub enum Payment {
    /// By a card of this number.
    Card(Text),
    /// In so many cents.
    Cents(u64),
    /// By somebody who lives there.
    Voucher(Address),
}

/// A number of each type.
#[derive(Debug, Drop)]
pub struct Numbers {
    pub u8: u8,
    pub u16: u16,
    pub u32: u32,
    pub u64: u64,
    pub i8: i8,
    pub i16: i16,
    pub i32: i32,
    pub i64: i64,
    pub double: Option<Double>,
}

/// What is sent.
#[derive(Debug, Drop)]
pub struct Shipment {
    /// Its name.
    pub id: Text,
    /// Where it is.
    pub state: State,
    /// Who sends it.
    pub from: Address,
    /// Who gets it.
    pub to: Option<Address>,
    /// What each parcel is called.
    pub parcels: List<Text>,
    /// How heavy each parcel is, where it was weighed.
    pub weights: Option<SparseList<u32>>,
    /// What is written on it, by language.
    pub labels: Option<TextMap<Text>>,
    /// How often the door bell is rung, 3 times where it isn't said.
    pub rings: u8,
    /// Whether it breaks.
    pub fragile: bool,
    /// How it looks.
    pub image: Option<Blob>,
    /// When it was packed.
    pub packed: EpochSeconds,
    /// How it is paid.
    pub payment: Option<Payment>,
    /// Its numbers.
    pub numbers: Option<Numbers>,
}

//! The model in JSON, and the payload that a shipment is.
ghost use Rattle.std.specs.Prelude.{◌≡◌};
ghost use Rattle.golden_payloads.specs.Model.{state_name};

use crate::model::{Address, Numbers, Shipment, State};
use json_payloads::{
    JsonForm, ReadError, Refusal, Value, json_payload, members, print_object, read_json,
    read_members, read_object, read_str,
};
use smithy_types::{OutOfMemory, Payload, Text, Wire};
use std::alloc::Global;

/// The kind of a shipment.
pub const SHIPMENT: u32 = 1;

impl JsonForm for State {
    ghost use Rattle.golden_payloads.specs.Model.{state};

    ghost form = { state };

    fn print(&self, alloc: Global) -> Result<Value, OutOfMemory> {
        Text::from_static(state_name(*self)).print(alloc)
    }

    fn read(_alloc: Global, value: &Value) -> Result<State, ReadError> {
        match read_str(value)? {
            "PACKED" => Ok(State::Packed),
            "ON_THE_WAY" => Ok(State::OnTheWay),
            "DELIVERED" => Ok(State::Delivered),
            _ => Err(ReadError::Refused(Refusal::Misspelled)),
        }
    }
}

// How a state is spelled.
fn state_name(state: State) -> &'static str
    ensures { result.now ≡ state_name state }
{
    match state {
        State::Packed => "PACKED",
        State::OnTheWay => "ON_THE_WAY",
        State::Delivered => "DELIVERED",
    }
}

impl JsonForm for Address {
    ghost use Rattle.golden_payloads.specs.Model.{address};

    ghost form = { address };

    fn print(&self, alloc: Global) -> Result<Value, OutOfMemory> {
        print_object!(
            alloc,
            "street" => &self.street,
            "house" => &self.house,
        )
    }

    fn read(alloc: Global, value: &Value) -> Result<Address, ReadError> {
        read_object!(alloc, value => Address { street: "street", house: "house" })
    }
}

impl JsonForm for Numbers {
    ghost use Rattle.golden_payloads.specs.Model.{numbers};

    ghost form = { numbers };

    fn print(&self, alloc: Global) -> Result<Value, OutOfMemory> {
        print_object!(
            alloc,
            "u8" => &self.u8,
            "u16" => &self.u16,
            "u32" => &self.u32,
            "u64" => &self.u64,
            "i8" => &self.i8,
            "i16" => &self.i16,
            "i32" => &self.i32,
            "i64" => &self.i64,
            "double" => &self.double,
        )
    }

    fn read(alloc: Global, value: &Value) -> Result<Numbers, ReadError> {
        read_object!(alloc, value => Numbers {
            u8: "u8",
            u16: "u16",
            u32: "u32",
            u64: "u64",
            i8: "i8",
            i16: "i16",
            i32: "i32",
            i64: "i64",
            double: "double",
        })
    }
}

impl JsonForm for Shipment {
    ghost use Rattle.golden_payloads.specs.Model.{shipment};

    ghost form = { shipment };

    fn print(&self, alloc: Global) -> Result<Value, OutOfMemory> {
        print_object!(
            alloc,
            "id" => &self.id,
            "state" => &self.state,
            "from" => &self.from,
            "to" => &self.to,
            "parcels" => &self.parcels,
            "weights" => &self.weights,
            "labels" => &self.labels,
            "rings" => &self.rings,
            "fragile" => &self.fragile,
            "image" => &self.image,
            "packed" => &self.packed,
            "payment" => &self.payment,
            "numbers" => &self.numbers,
        )
    }

    fn read(alloc: Global, value: &Value) -> Result<Shipment, ReadError> {
        let members!(
            id, state, from, to, parcels, weights, labels, rings, fragile, image, packed, payment,
            numbers
        ) = read_members(
            alloc,
            value,
            &[
                "id", "state", "from", "to", "parcels", "weights", "labels", "rings", "fragile",
                "image", "packed", "payment", "numbers",
            ],
        )?;
        let rings: Option<u8> = rings;
        Ok(Shipment {
            id,
            state,
            from,
            to,
            parcels,
            weights,
            labels,
            rings: rings.unwrap_or(3),
            fragile,
            image,
            packed,
            payment,
            numbers,
        })
    }
}

impl Wire for Shipment {
    ghost use Rattle.json_payloads.specs.Payloads.{
      accepts as accepts_form,
      one_value as one_of_form,
      reads_as as reads_as_form,
    };
    ghost use Rattle.golden_payloads.specs.Model.{shipment};

    ghost accepts = { accepts_form shipment 1 };

    ghost reads_as = { reads_as_form shipment 1 };

    ghost one_value = { one_of_form shipment 1 };

    fn to_payload(&self, alloc: Global) -> Result<Payload, OutOfMemory> {
        json_payload(alloc, SHIPMENT, self)
    }

    fn from_payload(alloc: Global, payload: &Payload) -> Result<Option<Shipment>, OutOfMemory> {
        read_json(alloc, SHIPMENT, payload)
    }
}

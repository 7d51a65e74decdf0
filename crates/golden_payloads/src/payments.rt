//! Payments in JSON: an object with one member.

use crate::model::{Address, Payment};
use json_payloads::{Case, JsonForm, NoCase, ReadError, Value, print_case, read_case};
use smithy_types::{OutOfMemory, Text};
use std::alloc::Global;

type Cases = Case<Text, Case<u64, Case<Address, NoCase>>>;

impl JsonForm for Payment {
    ghost use Rattle.golden_payloads.specs.Model.{payment};

    ghost form = { payment };

    fn print(&self, alloc: Global) -> Result<Value, OutOfMemory> {
        match self {
            Payment::Card(number) => print_case(alloc, "card", number),
            Payment::Cents(amount) => print_case(alloc, "cents", amount),
            Payment::Voucher(from) => print_case(alloc, "voucher", from),
        }
    }

    fn read(alloc: Global, value: &Value) -> Result<Payment, ReadError> {
        let case: Cases = read_case(alloc, value, &["card", "cents", "voucher"])?;
        Ok(match case {
            Case::This(number) => Payment::Card(number),
            Case::Other(Case::This(amount)) => Payment::Cents(amount),
            Case::Other(Case::Other(Case::This(from))) => Payment::Voucher(from),
            Case::Other(Case::Other(Case::Other(none))) => match none {},
        })
    }
}

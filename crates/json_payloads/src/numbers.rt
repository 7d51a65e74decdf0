//! Whole numbers.
ghost use Rattle.std.specs.Prelude.{◌≡◌, ◌^◌};
ghost use Rattle.serde_json.specs.View.{view};
ghost use Rattle.json_payloads.specs.Numbers.{unsigned_at, signed_at, under, within};
ghost use Rattle.json_payloads.specs.Reading.{Reads};

use crate::{JsonForm, ReadError, Refusal, Value};
use serde_json::Number;
use smithy_types::OutOfMemory;
use std::alloc::Global;

// The whole number without a sign that stands here.
fn read_unsigned(value: &Value) -> Result<u64, ReadError>
    ensures { Reads result (unsigned_at (view value.now)) }
{
    match value.as_u64() {
        Some(number) => Ok(number),
        None => Err(ReadError::Refused(why(value))),
    }
}

// The whole number with a sign that stands here.
fn read_signed(value: &Value) -> Result<i64, ReadError>
    ensures { Reads result (signed_at (view value.now)) }
{
    match value.as_i64() {
        Some(number) => Ok(number),
        None => Err(ReadError::Refused(why(value))),
    }
}

// Why no whole number was read.
fn why(value: &Value) -> Refusal {
    if value.is_number() {
        Refusal::OutOfRange
    } else {
        Refusal::WrongType
    }
}

// The number, where it has 8 bits.
fn to_u8(number: u64) -> Result<u8, ReadError>
    ensures { Reads result (under (2 ^ 8) number) }
{
    if number < 1 << 8 {
        Ok(number as u8)
    } else {
        Err(ReadError::Refused(Refusal::OutOfRange))
    }
}

impl JsonForm for u8 {
    ghost use Rattle.std.specs.Prelude.{◌^◌};
    ghost use Rattle.json_payloads.specs.Numbers.{number_under};

    ghost form = { number_under (2 ^ 8) };

    fn print(&self, _alloc: Global) -> Result<Value, OutOfMemory> {
        let number = *self;
        Ok(Value::Number(Number::from(number)))
    }

    fn read(_alloc: Global, value: &Value) -> Result<u8, ReadError> {
        to_u8(read_unsigned(value)?)
    }
}

// The number, where it has 16 bits.
fn to_u16(number: u64) -> Result<u16, ReadError>
    ensures { Reads result (under (2 ^ 16) number) }
{
    if number < 1 << 16 {
        Ok(number as u16)
    } else {
        Err(ReadError::Refused(Refusal::OutOfRange))
    }
}

impl JsonForm for u16 {
    ghost use Rattle.std.specs.Prelude.{◌^◌};
    ghost use Rattle.json_payloads.specs.Numbers.{number_under};

    ghost form = { number_under (2 ^ 16) };

    fn print(&self, _alloc: Global) -> Result<Value, OutOfMemory> {
        let number = *self;
        Ok(Value::Number(Number::from(number)))
    }

    fn read(_alloc: Global, value: &Value) -> Result<u16, ReadError> {
        to_u16(read_unsigned(value)?)
    }
}

// The number, where it has 32 bits.
fn to_u32(number: u64) -> Result<u32, ReadError>
    ensures { Reads result (under (2 ^ 32) number) }
{
    if number < 1 << 32 {
        Ok(number as u32)
    } else {
        Err(ReadError::Refused(Refusal::OutOfRange))
    }
}

impl JsonForm for u32 {
    ghost use Rattle.std.specs.Prelude.{◌^◌};
    ghost use Rattle.json_payloads.specs.Numbers.{number_under};

    ghost form = { number_under (2 ^ 32) };

    fn print(&self, _alloc: Global) -> Result<Value, OutOfMemory> {
        let number = *self;
        Ok(Value::Number(Number::from(number)))
    }

    fn read(_alloc: Global, value: &Value) -> Result<u32, ReadError> {
        to_u32(read_unsigned(value)?)
    }
}

impl JsonForm for u64 {
    ghost use Rattle.json_payloads.specs.Numbers.{whole_number};

    ghost form = { whole_number };

    fn print(&self, _alloc: Global) -> Result<Value, OutOfMemory> {
        Ok(Value::Number(Number::from(*self)))
    }

    fn read(_alloc: Global, value: &Value) -> Result<u64, ReadError> {
        read_unsigned(value)
    }
}

// The number, where it has 8 bits.
fn to_i8(number: i64) -> Result<i8, ReadError>
    ensures { Reads result (within (2 ^ 7) number) }
{
    if -(1 << 7) <= number && number < 1 << 7 {
        Ok(number as i8)
    } else {
        Err(ReadError::Refused(Refusal::OutOfRange))
    }
}

impl JsonForm for i8 {
    ghost use Rattle.std.specs.Prelude.{◌^◌};
    ghost use Rattle.json_payloads.specs.Numbers.{integer_within};

    ghost form = { integer_within (2 ^ 7) };

    fn print(&self, _alloc: Global) -> Result<Value, OutOfMemory> {
        let number = *self;
        Ok(Value::Number(Number::from(number)))
    }

    fn read(_alloc: Global, value: &Value) -> Result<i8, ReadError> {
        to_i8(read_signed(value)?)
    }
}

// The number, where it has 16 bits.
fn to_i16(number: i64) -> Result<i16, ReadError>
    ensures { Reads result (within (2 ^ 15) number) }
{
    if -(1 << 15) <= number && number < 1 << 15 {
        Ok(number as i16)
    } else {
        Err(ReadError::Refused(Refusal::OutOfRange))
    }
}

impl JsonForm for i16 {
    ghost use Rattle.std.specs.Prelude.{◌^◌};
    ghost use Rattle.json_payloads.specs.Numbers.{integer_within};

    ghost form = { integer_within (2 ^ 15) };

    fn print(&self, _alloc: Global) -> Result<Value, OutOfMemory> {
        let number = *self;
        Ok(Value::Number(Number::from(number)))
    }

    fn read(_alloc: Global, value: &Value) -> Result<i16, ReadError> {
        to_i16(read_signed(value)?)
    }
}

// The number, where it has 32 bits.
fn to_i32(number: i64) -> Result<i32, ReadError>
    ensures { Reads result (within (2 ^ 31) number) }
{
    if -(1 << 31) <= number && number < 1 << 31 {
        Ok(number as i32)
    } else {
        Err(ReadError::Refused(Refusal::OutOfRange))
    }
}

impl JsonForm for i32 {
    ghost use Rattle.std.specs.Prelude.{◌^◌};
    ghost use Rattle.json_payloads.specs.Numbers.{integer_within};

    ghost form = { integer_within (2 ^ 31) };

    fn print(&self, _alloc: Global) -> Result<Value, OutOfMemory> {
        let number = *self;
        Ok(Value::Number(Number::from(number)))
    }

    fn read(_alloc: Global, value: &Value) -> Result<i32, ReadError> {
        to_i32(read_signed(value)?)
    }
}

impl JsonForm for i64 {
    ghost use Rattle.json_payloads.specs.Numbers.{integer};

    ghost form = { integer };

    fn print(&self, _alloc: Global) -> Result<Value, OutOfMemory> {
        let number = *self;
        Ok(Value::Number(Number::from(number)))
    }

    fn read(_alloc: Global, value: &Value) -> Result<i64, ReadError> {
        read_signed(value)
    }
}

//! Reads lines, each a structure, a name and the bytes of a payload, with tabs between them. Prints
//! the name with what the payload is as JSON when it is read and made again, or why it is refused.
#![tactic(auto)]

mod declaration;
mod forms;
mod model;
mod payments;
mod refusals;

use anyhow::Result;
use declaration::{DECLARATION, Declaration};
use forms::SHIPMENT;
use json_payloads::{Json, JsonForm, ReadError, Refusal, ServiceError, read_payload};
use model::Shipment;
use refusals::{Fault, ParcelRefused, TOO_HEAVY};
use smithy_types::{Blob, OutOfMemory, Payload, Wire};
use std::alloc::Global;
use std::io::Read;

fn main(rt: HostRuntime) -> Result<()> {
    let alloc = rt.alloc();
    let mut input = Vec::new(alloc);
    rt.stdin().read_to_end(&mut input)?;
    for line in input.as_slice().split(|byte| *byte == b'\n') {
        print_line(rt, line)?;
    }
    Ok(())
}

// Prints the outcome of a line, which is a structure, a name and a payload.
fn print_line(rt: HostRuntime, line: &[u8]) -> Result<()> {
    let mut parts = line.splitn(3, |byte| *byte == b'\t');
    if let (Some(structure), Some(name), Some(bytes)) = (parts.next(), parts.next(), parts.next()) {
        print_outcome(rt, text_of(structure), text_of(name), bytes)?;
    }
    Ok(())
}

// Prints what the payload is when it is read and made again, or why it is refused.
fn print_outcome(rt: HostRuntime, structure: &str, name: &str, bytes: &[u8]) -> Result<()> {
    let bytes = Blob::from_slice(rt.alloc(), bytes)?;
    match structure {
        "shipment" => print_made::<Shipment, Shipment>(rt, name, SHIPMENT, bytes),
        "declaration" => {
            print_made::<Json<Declaration, DECLARATION>, Declaration>(rt, name, DECLARATION, bytes)
        }
        "refusal" => print_error::<ParcelRefused>(rt, name, bytes),
        "error" => print_error::<ServiceError<Fault>>(rt, name, bytes),
        _ => Ok(()),
    }
}

// Prints what the payload of this kind is when it is read and made again, or why it is refused.
fn print_made<W: Wire + Drop, T: JsonForm + Drop>(
    rt: HostRuntime,
    name: &str,
    kind: u32,
    bytes: Blob,
) -> Result<()> {
    let alloc = rt.alloc();
    let payload = Payload { kind, bytes };
    match made_again::<W>(alloc, &payload)? {
        Some(again) => println!(rt; "{name}\t{}", text_of(again.bytes.as_slice()))?,
        None => match why_not::<T>(alloc, &payload)? {
            Some(why) => println!(rt; "{name}\t{why:?}")?,
            None => println!(rt; "{name}\tis read after all")?,
        },
    }
    Ok(())
}

// Prints what an error with this body is when it is read and made again.
fn print_error<W: Wire + Drop>(rt: HostRuntime, name: &str, bytes: Blob) -> Result<()> {
    let payload = Payload {
        kind: TOO_HEAVY,
        bytes,
    };
    if let Some(again) = made_again::<W>(rt.alloc(), &payload)? {
        println!(rt; "{name}\t{}", text_of(again.bytes.as_slice()))?;
    }
    Ok(())
}

// The payload that the value is which this payload is.
fn made_again<T: Wire + Drop>(
    alloc: Global,
    payload: &Payload,
) -> Result<Option<Payload>, OutOfMemory> {
    match T::from_payload(alloc, payload)? {
        Some(value) => Ok(Some(value.to_payload(alloc)?)),
        None => Ok(None),
    }
}

// Why the payload is no value of the type.
fn why_not<T: JsonForm + Drop>(
    alloc: Global,
    payload: &Payload,
) -> Result<Option<Refusal>, OutOfMemory> {
    match read_payload::<T>(alloc, payload.kind, payload) {
        Ok(_) => Ok(None),
        Err(ReadError::Refused(why)) => Ok(Some(why)),
        Err(ReadError::Memory) => Err(OutOfMemory),
    }
}

fn text_of(bytes: &[u8]) -> &str {
    match str::from_utf8(bytes) {
        Ok(text) => text,
        Err(_) => "not text",
    }
}

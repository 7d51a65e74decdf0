//! A bakery's client, as its user writes it: what an operation is built of, how it is invoked, and
//! how an order is waited for.
#![tactic(auto)]

mod client;
mod watching;

pub use client::{BakeryBuilder, BakeryOperation, invoke};
pub use watching::{Ending, wait};

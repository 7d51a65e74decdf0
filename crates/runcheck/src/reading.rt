//! A run is read one entry at a time, along its grammar.

pub mod grammar;
pub mod laws;
pub mod production;
pub mod walk;

//! What holds of every run of a client: its attempts, what each question is handed, and what is
//! told of buckets and choices. Each law is the contract of a function that does nothing.
#![tactic(auto)]

pub mod attempts;
pub mod choices;
pub mod questions;
pub mod retries;

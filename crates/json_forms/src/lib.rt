//! JSON without floats, as it is printed and read. What is printed is read as the same.
#![tactic(auto)]

pub mod arena;
pub mod forms;
pub mod laws;
pub mod lines;
pub mod lists;
pub mod members;
mod numbers;
pub mod printing;
pub mod read;

pub use crate::printing::{Json, Row};
pub use arena::{Arena, Value};
pub use read::ReadError;

//! The program's commands: which words name them, and what each does over a source and a sink.
#![tactic(auto)]

pub mod help;
pub mod program;
pub mod run;
pub mod words;

pub use cli_fleet::{Gate, OpenGate};

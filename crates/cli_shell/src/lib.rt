//! The shell of a program: it reads a source to its end, hands the bytes to a command and writes
//! what the command says to a sink. Every promise about reading and writing is made here, once.
#![tactic(auto)]

pub mod command;
pub mod fixed;
pub mod laws;
pub mod memory;
pub mod script_command;
pub mod serve;
pub mod sink;
pub mod source;
pub mod standard;
pub mod status;
pub mod streams;

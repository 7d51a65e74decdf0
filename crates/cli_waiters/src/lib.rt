//! The command `waiters`: many waiters over a script, whose polls one bucket pays for. Its script,
//! the world that follows it, and the print.
#![tactic(auto)]

pub mod command;
pub mod fleet;
pub mod laws;
pub mod print;
pub mod running;
pub mod script;

pub use command::WaitersCommand;

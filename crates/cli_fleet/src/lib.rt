//! The command `fleet`: callers in threads over one bucket, each with a client of its own, and
//! their print.
#![tactic(auto)]

pub mod caller;
pub mod caller_outside;
pub mod command;
pub mod gate;
pub mod gated;
pub mod invocation;
pub mod laws;
pub mod play;
pub mod print;
pub mod work;

pub use command::answer_fleet;
pub use gate::{Gate, OpenGate};

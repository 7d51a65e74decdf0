//! Invocations of the clients that a script describes, and how they are printed.
#![tactic(auto)]

pub mod invocation;
pub mod noting;
pub mod print;
pub mod set;

pub use invocation::invoke;
pub use noting::Notes;
pub use set::ClientSet;

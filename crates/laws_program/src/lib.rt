//! What holds of the program's scripts and of what it prints of them. Each law is the contract of a
//! function that does nothing.
#![tactic(auto)]

pub mod client_scripts;
pub mod clients;
pub mod hosts;
pub mod made;
pub mod paid;
pub mod runs;
pub mod scripts;
pub mod waits;

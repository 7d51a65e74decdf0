//! The command `replay`: its script with the limits of that, its print, what a run left over, and
//! what holds of every replay.
#![tactic(auto)]

pub mod command;
pub mod laws;
pub mod left_over;
pub mod script;
pub mod world;

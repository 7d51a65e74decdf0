//! The commands `client` and `make`, which run clients over a script that is read, or that is made.
#![tactic(auto)]

pub mod client;
pub mod make;
pub mod marks;
pub mod moments;
pub mod opening;
pub mod play;
pub mod report;
pub mod tally;

pub use client::ClientCommand;
pub use make::MakeCommand;
pub use moments::MomentsCommand;

//! A run that its caller drives from one wait to the next, in a world that doesn't wait itself.
#![tactic(auto)]

pub mod driving;
pub mod running;

pub use driving::{Driven, Parking, drive_on};
pub use running::DrivenRun;

//! Waiters that follow a script, under one clock.

pub mod due;
pub mod laws;
pub mod places;
pub mod polls;
pub mod scripted_fleet;
pub mod waiter;

pub use places::{Place, Places};
pub use polls::told_by;
pub use scripted_fleet::ScriptedFleet;
pub use waiter::{ScriptedWaiter, plans_of};

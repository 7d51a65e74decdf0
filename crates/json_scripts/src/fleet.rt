//! The script of the command `fleet`: its reader and its limits.

pub mod callers;
pub mod limits;
pub mod script;
pub mod terms;

pub use limits::fleet_script_fits;
pub use script::read_fleet_script;
pub use terms::{CallerRecord, FleetScript};

//! The script of the command `waiters`: its reader and its limits.

pub mod limits;
pub mod members;
pub mod script;
pub mod terms;

pub use limits::is_within;
pub use script::read_script;
pub use terms::WaitersScript;

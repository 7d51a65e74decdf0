//! The engine: runs an operation by asking a world one question at a time.
#![tactic(auto)]

mod execution;
pub mod finish;
mod invocation;
pub mod laws;
mod log;
mod operation;
mod point;
mod reply;
mod script;
mod stage;
mod way;
mod world;

pub use execution::{InvokeError, invoke, invoke_with_stop_point};
pub use invocation::{Invocation, Step};
pub use log::{with_entry, with_room};
pub use operation::Operation;
pub use run_grammar::{Answer, Entry, Kind, Question, StopPoint};
pub use script::{ScriptAnswer, ScriptWorld};
pub use world::World;

//! An outside that follows a script: its clock moves only where something is waited for, and each
//! answer comes when the script says. `service` makes such an outside of statuses and bodies.
#![tactic(auto)]

pub mod call;
pub mod laws;
pub mod loads;
pub mod queue;
pub mod records;
mod rows;
pub mod scripted_outside;
pub mod sleeps;
pub mod wake;
pub mod words;

pub use call::{OpenBody, OpenCall};
pub use loads::OpenLoad;
pub use queue::Records;
pub use records::{
    Frame, IdentityAnswer, IdentityRecord, RecordAnswer, ResponseRecord, ScriptedResponse,
};
pub use rows::{Row, service};
pub use scripted_outside::ScriptedOutside;
pub use sleeps::Sleeps;
pub use words::Words;

//! What a run of an operation is: the questions and answers of a log, what stands after them, and
//! which lists of them are runs.
#![tactic(auto)]

pub mod answer;
mod apply;
mod fits;
pub mod kind;
pub mod laws;
pub mod production;
pub mod question;
pub mod samples;
pub mod standing;

pub use answer::{Answer, Chosen, Entry};
pub use kind::{Abandonable, ConfigureStage, Kind, Role};
pub use production::Test;
pub use question::Question;
pub use smithy_types::StopPoint;
pub use standing::Standing;

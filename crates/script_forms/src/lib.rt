//! The forms of the scripts that commands read and of the lines that a host says, as tables; where
//! one isn't of its form, and what is wanted there; and the JSON Schema of a command's scripts.
#![tactic(auto)]

pub mod explaining;
pub mod finder;
pub mod form;
pub mod items;
pub mod leaves;
pub mod limits;
pub mod members;
pub mod names;
pub mod place;
pub mod rules;
pub mod schemas;
pub mod shape;
pub mod syntax;
pub mod tables;
pub mod walk;

pub use explaining::{Cause, explain, refusal_of_line};
pub use names::nearest;
pub use schemas::write_schema;
pub use shape::{ScriptKind, TextKind};

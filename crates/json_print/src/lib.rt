//! The print of a run: the line that it is begun with, a line for each entry, and the last line. A
//! run over any world ends with what that line says (`world`), and its entries determine it
//! (`determined`).
#![tactic(auto)]

mod answer;
pub mod determined;
pub mod ending;
mod forms;
pub mod head;
pub mod laws;
mod parts;
mod plain;
pub mod print;
pub mod world;

pub use ending::Ending;
pub use head::RunHead;

//! Tells whether a text is the print of a whole run and of its answer: the command `check`. The
//! text is read line by line, its calls are followed along the grammar (`reading`), and what they
//! come to is printed again.
#![tactic(auto)]

pub mod command;
pub mod ending;
pub mod failing;
pub mod flaw;
pub mod follow;
pub mod judge;
pub mod laws;
pub mod reading;
pub mod told;

pub use flaw::{Cause, Flaw, flaw_of};
pub use judge::{Verdict, check};

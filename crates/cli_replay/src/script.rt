//! The reader of the script of `replay`, and its limits.

pub mod limits;
pub mod replay;

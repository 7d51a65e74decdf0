//! A token bucket that callers on many threads share in a cell of words. Each reply is that of one
//! thread's bucket at its place in one history.
#![tactic(auto)]

mod call;
pub mod cell_bucket;
pub mod cell_quota;
pub mod fleet;
pub mod laws;
mod rule;
mod steps;

pub use cell_bucket::{CellBucket, Pass};
pub use cell_quota::{At, CellQuota};
pub use fleet::{Caller, run_callers};

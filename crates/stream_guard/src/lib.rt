//! Whether a stream stalls: its throughput over a window of time, as a log of what was polled and
//! transferred reports it.
#![tactic(auto)]

pub mod bin;
pub mod logs;
pub mod options;
pub mod report;
mod ring;
pub mod steps;
pub mod throughput;
mod totals;
mod window;

pub use bin::{Bin, BinLabel};
pub use logs::ThroughputLogs;
pub use options::{MinimumThroughputBodyOptions, MinimumThroughputBodyOptionsBuilder};
pub use report::ThroughputReport;
pub use steps::Steps;
pub use throughput::Throughput;

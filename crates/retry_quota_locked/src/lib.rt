//! A token bucket that callers on many threads share behind a lock, and the quota of one caller.
#![tactic(auto)]

mod locked;
pub mod shared_bucket;
pub mod shared_quota;
mod steps;

pub use shared_bucket::SharedBucket;
pub use shared_quota::SharedQuota;

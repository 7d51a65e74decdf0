//! The adaptive limiter of a client's sending rate. It measures the rate of requests, and once a
//! service has throttled them it lets through what a rate allows that falls with each throttle and
//! grows again between them.
#![tactic(auto)]

pub mod builder;
pub mod curve;
pub mod laws;
pub mod limiter;
pub mod partition;
pub mod root;

pub use builder::ClientRateLimiterBuilder;
pub use limiter::ClientRateLimiter;
pub use partition::ClientRateLimiterPartition;
pub use retry_quota::RequestReason;
pub use root::cube_root;

//! The retry quota: buckets that pay for retries, their registry, a limiter that refuses nothing.
#![tactic(auto)]

pub mod builder;
pub mod caller;
pub mod error;
pub mod free_limiter;
pub mod laws;
pub mod limiter;
pub mod partition_table;
pub mod permit;
pub mod quota;
pub mod registry;
pub mod state;
pub mod static_partition_map;
pub mod token_bucket;

pub use builder::TokenBucketBuilder;
pub use caller::CallerQuota;
pub use error::QuotaError;
pub use limiter::{Limiter, RequestReason};
pub use partition_table::PartitionTable;
pub use permit::Permit;
pub use quota::Quota;
pub use registry::Registry;
pub use smithy_types::{RetryPartition, RetryPartitionBuilder, Sums};
pub use state::{BucketState, BucketTerms};
pub use static_partition_map::StaticPartitionMap;
pub use token_bucket::TokenBucket;

/// The most tokens that a bucket may have, as its capacity or initial quota.
pub const MAXIMUM_CAPACITY: u64 = 500_000_000;

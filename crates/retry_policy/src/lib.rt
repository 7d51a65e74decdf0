//! Whether a failed attempt is made again: classifiers that say what a failure is, and strategies
//! that pay for a further attempt from a quota.
#![tactic(auto)]

pub(crate) mod backoff;
pub mod classify;
pub mod connection_poisoning;
pub mod decision;
pub mod laws;
pub mod modeled;
pub mod never;
pub mod standard;
pub(crate) mod standing;
pub mod status;
pub mod token_bucket_provider;
pub mod transient;

pub use classify::{Classifier, ClassifyRetry, run_classifiers_on_ctx};
pub use connection_poisoning::ConnectionPoisoningInterceptor;
pub use decision::{Decision, Initial, StrategyError};
pub use modeled::ModeledAsRetryableClassifier;
pub use never::NeverRetryStrategy;
pub use smithy_types::RetryAction;
pub use standard::StandardRetryStrategy;
pub use status::HttpStatusCodeClassifier;
pub use token_bucket_provider::TokenBucketProvider;
pub use transient::TransientErrorClassifier;

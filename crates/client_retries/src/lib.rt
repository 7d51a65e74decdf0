//! What a client does about retries and hooks, kind by kind: each is a small function over the
//! parts that it touches.
#![tactic(auto)]

pub mod configure;
pub mod decide;
pub mod hooking;
pub mod initial;
pub mod meaning;
pub mod offers;
mod reading;
pub mod strategy;

pub use meaning::{InterceptorMeaning, QuotaMeaning};
pub use offers::TakeOffer;
pub use strategy::RetryStrategy;

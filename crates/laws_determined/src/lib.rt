//! What determines the answers of a client: two that are alike answer alike. Each law is the
//! contract of a function that does nothing.
#![tactic(auto)]

pub mod auth;
pub mod calls;
pub mod client;
pub mod retries;
pub mod steady;

//! What lies outside of a client: the connector and its bodies, the clock and its sleeps, loads of
//! identities, random words, and waiting.
#![tactic(auto)]

pub mod answers;
pub mod clock;
pub mod outside;

pub use answers::{IdentityPoll, Sent};
pub use clock::present;
pub use outside::Outside;

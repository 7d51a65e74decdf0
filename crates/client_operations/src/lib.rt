//! What every client would copy: the protocol of a service that speaks JSON, signing by a bearer
//! token, a retry without a random part, what a second operation takes over, and a waiter over an
//! operation.
#![tactic(auto)]

mod building;
mod json;
mod polling;
mod signing;
mod sleeping;
mod taking;
mod watching;

pub use building::{steady_retry, without_facts};
pub use json::{JsonBuilder, JsonDeserializer, JsonSerializer};
pub use polling::polled;
pub use signing::{Signing, bearer_id, signing_by};
pub use sleeping::{SleepingOutside, SleepingTypes};
pub use taking::taken_apart;
pub use watching::{Polled, Watch};

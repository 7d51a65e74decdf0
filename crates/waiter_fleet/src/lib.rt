//! Many waiters whose later polls are paid from one token bucket.
#![tactic(auto)]

mod asking;
mod charging;
mod closing;
mod ending;
pub mod error;
pub mod event;
mod found;
pub mod laws;
mod log;
mod paid;
mod pausing;
mod paying;
pub mod plan;
mod polling;
mod ran;
mod running;
mod schedule;
mod seat;
mod seats;
mod turn;
mod turned;
mod waiting;
pub mod world;

pub use error::FleetError;
pub use event::{FleetEnd, FleetEvent, Seen};
pub use plan::Plan;
pub use waiting::wait_all;
pub use world::FleetWorld;

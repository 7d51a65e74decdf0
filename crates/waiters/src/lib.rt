//! Waiters: a resource is polled until it is in the desired state, with random delays between the
//! polls that grow, as the Smithy 2.0 specification of waiters says.
#![tactic(auto)]

mod asking;
pub mod backoff;
pub mod builder;
mod laws;
pub mod orchestrator;
pub mod outcome;
mod progress;
pub mod timers;
mod verdict;

pub use backoff::{Backoff, delay};
pub use builder::WaiterOrchestratorBuilder;
pub use laws::an_ended_walk_is_finished;
pub use orchestrator::WaiterOrchestrator;
pub use outcome::{FinalPoll, WaiterError};
pub use smithy_types::{AcceptorState, BuildError, Part};
pub use timers::{PollAnswer, WaiterCall, WaiterTimers};

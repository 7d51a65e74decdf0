//! The messages of a host, as they are read: a run is begun, the moment and what came since, a run
//! is given up, the buckets' sums are wanted, the end. And what a host is told while a run waits, as
//! it is printed.
#![tactic(auto)]

pub mod event;
pub mod message;
pub mod reply;

pub use event::read_event;
pub use message::{HostInvocation, HostMessage, SeatMessage, read_message};
pub use reply::{write_end, write_opened, write_poison, write_refused, write_told};

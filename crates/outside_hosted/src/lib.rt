//! An outside that its host feeds: what is wanted stands in it until the host is told, and what the
//! host hands in stands in it until it is asked for. It never waits.
#![tactic(auto)]

pub mod body;
pub mod call;
pub mod events;
pub mod frames;
pub mod handing;
pub mod hosted_outside;
pub mod laws;
pub mod load;
pub mod telling;

pub use body::HostBody;
pub use call::{HostCall, Order};
pub use events::{HostEvent, HostFrame, HostIdentity, HostReply};
pub use frames::Frames;
pub use hosted_outside::HostedOutside;
pub use load::HostLoad;
pub use telling::{Told, ToldLoad};

//! The session of a host with its clients: each line of the host is taken, and what the host is
//! told of it is written. Each client has a seat (`seat`), and all share one quota (`session`), which
//! takes one line and waits for nothing; `talking` takes line after line of a source. A client is
//! one of parts whose outside is the host's (`hosted`); its inputs are whole requests, and its
//! outputs whole responses (`service`).
#![tactic(auto)]

pub mod ending;
pub mod handing;
pub mod hosted;
pub mod laws;
pub mod lines;
pub mod seat;
pub mod service;
pub mod session;
pub mod talking;
pub mod why;
pub mod world;

pub use handing::feed;
pub use hosted::HostedClient;
pub use lines::Lines;
pub use seat::{Seat, SeatRun, SeatTerms};
pub use session::{Fed, Session};
pub use talking::talk;
pub use why::Why;
pub use world::{HostQuota, HostedMeans, HostedWorld};

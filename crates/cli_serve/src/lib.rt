//! The command that serves a host: it reads the host's lines one by one, and writes what the host
//! is told of a line before it reads the next one. The client is the one that the first line
//! describes.
#![tactic(auto)]

pub mod description;
pub mod opening;
pub mod serving;

pub use serving::serve_host;

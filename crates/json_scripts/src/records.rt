//! Readers of what a script says of the scripted outside, and what it may hold: the responses of
//! requests, and the sources of identities.

pub mod identities;
pub mod limits;
pub mod responses;

pub use identities::read_sources;
pub use limits::{records_fit, sources_fit};
pub use responses::read_records;

//! The plain types of a run: texts and blobs, requests and responses, faults, notes, and what
//! values and timers are to a crate above.
#![tactic(auto)]

pub mod acceptor;
pub mod blob;
pub mod build_error;
pub mod config;
pub mod fault;
pub mod hook;
pub mod http;
pub mod identity;
pub mod kinds;
pub mod list;
pub mod memory;
pub mod notes;
pub mod partition;
pub mod payload;
pub mod polled;
pub mod provide_error_kind;
mod redacted;
pub mod reserved_list;
pub mod shared;
pub mod sums;
pub mod text;
pub mod timers;
pub mod wire;

pub use acceptor::AcceptorState;
pub use blob::Blob;
pub use build_error::{BuildError, Part};
pub use config::{
    ReconnectMode, RetryConfig, RetryMode, RetrySpec, RetrySpecVersion,
    StalledStreamProtectionConfig, TimeoutConfig,
};
pub use fault::{Fault, FaultKind, Outcome, SdkError};
pub use hook::{Hook, RunPart};
pub use http::{Body, Headers, HttpRequest, HttpResponse};
pub use identity::{Endpoint, EndpointHeader, Identity};
pub use kinds::{ConnectorKind, ErrorKind, Phase, StopPoint};
pub use list::List;
pub use memory::OutOfMemory;
pub use notes::{Choice, ChooseNote, DecideNote, Reason, RetryAction};
pub use partition::{CustomPartition, PartitionRegistry, RetryPartition, RetryPartitionBuilder};
pub use payload::Payload;
pub use polled::Polled;
pub use provide_error_kind::ProvideErrorKind;
pub use reserved_list::ReservedList;
pub use shared::Shared;
pub use sums::Sums;
pub use text::Text;
pub use timers::{Timers, TimersCall};
pub use wire::Wire;

//! Guards around the bodies of requests and responses: that a stream doesn't stall, and that it has
//! the length that was declared.
#![tactic(auto)]

pub mod content_length;
pub mod download;
pub mod enforce_length;
mod events;
pub mod faults;
pub mod grace;
pub mod laws;
pub mod length;
pub mod polled;
mod rates;
pub mod stalled_stream;
pub mod upload;

pub use content_length::{ContentLengthEnforcingBody, ContentLengthError};
pub use download::{MinimumThroughputBody, MinimumThroughputDownloadBody};
pub use enforce_length::{EnforceContentLengthInterceptor, EnforceContentLengthRuntimePlugin};
pub use faults::ThroughputBelowMinimum;
pub use grace::{Grace, GraceAnswer};
pub use length::{LengthFault, extract_content_length};
pub use polled::{NoBody, PolledBody};
pub use stalled_stream::{
    StalledStreamProtectionInterceptor, StalledStreamProtectionInterceptorKind,
};
pub use upload::{
    MaybeUploadThroughputCheck, ThroughputReadingBody, UploadThroughput, UploadThroughputCheck,
};

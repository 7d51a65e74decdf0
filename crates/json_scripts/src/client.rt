//! Scripts of clients, as they are read: buckets, clients and invocations with what the outside
//! answers, and the limits of what they may hold.

pub mod auth;
pub mod client;
pub mod invocation;
pub mod limits;
pub mod members;
pub mod retries;
pub mod schemes;
pub mod script;
pub mod terms;

pub use limits::{capacity_fits, client_fits, client_script_fits};
pub use script::{ClientScript, read_client_script};
pub use terms::{
    ApiKeyChoice, AuthChoice, AuthSchemes, ClassifierChoice, ClientFlags, ClientObject,
    ClientRules, ClientTarget, HttpSchemeChoice, InvocationRecord, RetryChoice,
};

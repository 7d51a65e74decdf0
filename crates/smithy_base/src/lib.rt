//! What every client stands on: the plain types of a run, its settings and context, and
//! interceptors.
#![tactic(auto)]

pub mod chain;
pub mod components;
pub mod initial_config;
pub mod intercept;
pub mod map_request;
pub mod mutate_request;
pub mod request_function;
mod request_hooks;
pub mod resolver;
mod walk;

pub use chain::{run_chain, run_each};
pub use components::ComponentsDraft;
pub use initial_config::InitialConfig;
pub use intercept::{Intercept, Slot};
pub use map_request::MapRequestInterceptor;
pub use mutate_request::MutateRequestInterceptor;
pub use request_function::{MapRequest, MutateRequest};
pub use resolver::Resolver;
pub use smithy_context::{
    Change, CloneableLayer, FrozenLayer, HookAnswer, HookView, InterceptorContext, Layer,
    LayerEntry, RewindResult, Setting, SettingKey, Settings,
};
pub use smithy_types::{
    AcceptorState, Blob, Body, Choice, ChooseNote, ConnectorKind, CustomPartition, DecideNote,
    Endpoint, EndpointHeader, ErrorKind, Fault, FaultKind, Headers, Hook, HttpRequest,
    HttpResponse, Identity, List, OutOfMemory, Outcome, PartitionRegistry, Payload, Phase,
    ProvideErrorKind, Reason, ReconnectMode, RetryAction, RetryConfig, RetryMode, RetryPartition,
    RetryPartitionBuilder, RetrySpec, RetrySpecVersion, SdkError, Shared,
    StalledStreamProtectionConfig, StopPoint, Sums, Text, TimeoutConfig, Timers, TimersCall, Wire,
};

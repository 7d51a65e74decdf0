//! The parts of a client.

use crate::ClientTypes;
use client_auth::Identities;
use client_call::{Call, Sleeps};
use client_retries::RetryStrategy;
use retry_quota::Quota;
use smithy_context::Layer;
use smithy_types::{Endpoint, List, Shared, Text};

/// What was given to the builder and never changes.
#[derive(Drop)]
pub struct Given<T: ClientTypes> {
    /// What the client's step of the configuration sets.
    pub client: Layer,
    /// Whether sleeps are used.
    pub sleep_impl: bool,
    /// Whether the clock is used.
    pub time_source: bool,
    /// The retry classifiers in the order of their priority.
    pub classifiers: Vec<T::Classifier>,
    /// The auth options by their ids.
    pub options: List<Text>,
    /// The auth schemes.
    pub schemes: Vec<T::Scheme>,
    /// Where requests go.
    pub endpoint: Shared<Endpoint>,
    /// What makes requests of inputs.
    pub serializer: T::Serializer,
    /// What makes outcomes of responses.
    pub deserializer: T::Deserializer,
    /// Whether the deserializer is asked by the response's head first.
    pub may_stream: bool,
}

/// All that a client answers from.
#[derive(Drop)]
pub struct Parts<T: ClientTypes> {
    /// What never changes.
    pub given: Given<T>,
    /// The open sleeps.
    pub sleeps: Sleeps,
    /// The call at the connector.
    pub call: Call,
    /// The retry strategy with the permit that it holds.
    pub strategy: RetryStrategy<<T::Quota as Quota>::Permit>,
    /// The interceptors, in their order.
    pub interceptors: Vec<T::Interceptor>,
    /// Where identities come from, their cache, and what is open of a choice.
    pub identities: Identities<T::Resolver>,
    /// What lies outside of the client.
    pub outside: T::Outside,
    /// From what retries are paid.
    pub quota: T::Quota,
}

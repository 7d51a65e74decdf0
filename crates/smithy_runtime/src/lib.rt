//! The one library that a client's crate lists: what its user calls, from the plain types of a run
//! to the builder of a client, under the names of the crates that hold them. It has no code of its
//! own.
#![tactic(auto)]

// What a model and a protocol are made of.
pub use smithy_types::{
    Blob, Body, Endpoint, EndpointHeader, ErrorKind, Fault, FaultKind, Headers, HttpRequest,
    HttpResponse, Identity, List, OutOfMemory, Outcome, Payload, Phase, Polled, ProvideErrorKind,
    SdkError, Shared, Text, Wire,
};
pub use text_payloads::{read_text, text_payload};

// An operation, its client, and how the two are built and invoked.
pub use client_auth::responses::{body_bytes, failed};
pub use client_auth::{
    DeserializeResponse, Deserializer, IdentitySource, SerializeRequest, Serialized, Serializer,
};
pub use client_builder::{
    BuildRefusal, Client, IdentityResolver, OperationBuilder, Plugin, Scheme, added, refusal_of,
};
pub use client_components::{ClientMeans, ClientTypes, Parts, RuntimeComponents, TypesOf};
pub use client_operations::{
    JsonBuilder, JsonDeserializer, JsonSerializer, Signing, SleepingOutside, SleepingTypes, Watch,
    bearer_id, polled, signing_by, steady_retry, taken_apart, without_facts,
};
pub use client_retries::TakeOffer;
pub use orchestrate::{
    Answer, Entry, Invocation, InvokeError, Kind, Operation, Question, ScriptAnswer, ScriptWorld,
    Step, StopPoint, World, invoke, invoke_with_stop_point,
};
pub use smithy_types::{BuildError, Part};

// Settings and interceptors.
pub use smithy_base::{
    ComponentsDraft, Intercept, MapRequest, MapRequestInterceptor, MutateRequest,
    MutateRequestInterceptor, Slot,
};
pub use smithy_context::{
    Change, HookAnswer, HookView, InterceptorContext, Layer, LayerEntry, Setting, SettingKey,
    Settings,
};
pub use smithy_types::{Hook, RunPart, StalledStreamProtectionConfig, TimeoutConfig};

// Retries, and the quotas that they are paid from.
pub use rate_limit::{
    ClientRateLimiter, ClientRateLimiterBuilder, ClientRateLimiterPartition, RequestReason,
};
pub use retry_policy::{
    Classifier, ClassifyRetry, ConnectionPoisoningInterceptor, HttpStatusCodeClassifier,
    ModeledAsRetryableClassifier, RetryAction, TransientErrorClassifier,
};
pub use retry_quota::{
    BucketState, BucketTerms, Limiter, PartitionTable, Permit, Quota, QuotaError, Registry,
    RetryPartition, RetryPartitionBuilder, StaticPartitionMap, Sums, TokenBucket,
    TokenBucketBuilder,
};
pub use retry_quota_cell::{At, Caller, CellBucket, CellQuota, Pass, run_callers};
pub use retry_quota_locked::{SharedBucket, SharedQuota};
pub use smithy_types::{
    DecideNote, ReconnectMode, RetryConfig, RetryMode, RetrySpec, RetrySpecVersion,
};

// Auth schemes, identities and where they come from, and endpoints.
pub use auth_endpoint::{
    AuthScheme, NoAuthScheme, SharedAuthScheme, SharedIdentityResolver, Signed,
    StaticUriEndpointResolver, StaticUriEndpointResolverParams,
};
pub use http_schemes::{
    ApiKeyAuthScheme, ApiKeyLocation, BearerAuthScheme, HTTP_API_KEY_AUTH_SCHEME_ID,
    HTTP_BEARER_AUTH_SCHEME_ID, HttpIdentityResolver,
};
pub use identity_cell::{
    IdentityCache, LazyCache, LazyCacheBuilder, LazyCacheTerms, NoAuthIdentityResolver,
    ResolveIdentity, SchemeId, SharedIdentityCache,
};

// What lies outside of a client: the connector, sleeps and clock, and sources of identities.
pub use outside::{IdentityPoll, Outside, Sent};
pub use outside_scripted::{
    Frame, IdentityAnswer, IdentityRecord, RecordAnswer, ResponseRecord, Row, ScriptedOutside,
    ScriptedResponse, service,
};
pub use smithy_types::{Timers, TimersCall};

// Waiters, one by one and many under one bucket.
pub use smithy_types::AcceptorState;
pub use waiter_fleet::{FleetEnd, FleetError, FleetEvent, FleetWorld, Plan, Seen, wait_all};
pub use waiters::{
    Backoff, FinalPoll, PollAnswer, WaiterCall, WaiterError, WaiterOrchestrator,
    WaiterOrchestratorBuilder, WaiterTimers,
};

// Laws of every client, each cited by a call.
pub use client_components::laws::further_attempts_are_paid;
pub use laws_client::retries::{decisions_tell_the_bucket, settings_bound_attempts};

//! What is known of a client before it is built, and the setters that take no memory.
ghost use Rattle.std.specs.Prelude.{◌≡◌, Some, true, false};
ghost use Rattle.client_builder.specs.Builder.{no_parts};

use crate::plugin::no_draft;
use crate::{IdentityResolver, OwnInterceptor, Plugin, Scheme};
use auth_endpoint::{AuthScheme, SharedAuthScheme, SharedIdentityResolver};
use client_auth::{Deserializer, RegisteredSource, Serializer};
use identity_cell::{IdentityCache, ResolveIdentity, SharedIdentityCache};
use retry_policy::Classifier;
use smithy_base::{ComponentsDraft, Slot};
use smithy_types::{List, RetryConfig, StalledStreamProtectionConfig, Text, TimeoutConfig};
use std::marker::PhantomData;

/// Which strategy decides on retries.
#[derive(Clone, Copy, Debug, PartialEq, Eq)]
pub enum StrategyKind {
    /// Nothing is retried.
    Never,
    /// Retries are paid for.
    Standard,
}

/// The auth options of a client, as they were set last.
#[derive(Debug, Drop)]
pub enum AuthOptions {
    /// `noAuth` alone.
    NoAuth,
    /// These, by the ids of their schemes.
    Listed(List<Text>),
}

/// A deserializer, and how it is asked.
#[derive(Drop)]
pub struct RegisteredDeserializer<D> {
    /// What makes outcomes of responses.
    pub deserializer: D,
    /// Whether it is asked by a response's head first.
    pub may_stream: bool,
}

/// Builds an operation with input `I`, output `O` and modelled error `E`, and the client that it is
/// invoked over. A is a scheme of the program, R a resolver of identities, Z the serializer and D
/// the deserializer; without them the program brings boxes.
#[derive(Drop)]
pub struct OperationBuilder<
    I,
    O,
    E,
    A: AuthScheme = SharedAuthScheme,
    R: ResolveIdentity = SharedIdentityResolver,
    Z = Serializer,
    D = Deserializer,
> {
    /// The service's name, which is the name of the retry partition too.
    pub service_name: Option<Text>,
    /// The operation's name.
    pub operation_name: Option<Text>,
    /// The version of behaviour that was asked for. Nothing goes by it.
    pub behavior_version: Option<u32>,
    /// Which parts of the outside are used.
    pub components: ComponentsDraft,
    /// Where requests go.
    pub endpoint_url: Option<Text>,
    /// Which strategy decides on retries.
    pub strategy: Option<StrategyKind>,
    /// How retries are paced.
    pub retry: Option<RetryConfig>,
    /// The deadlines.
    pub timeouts: Option<TimeoutConfig>,
    /// How streams are protected from stalls. Where it is set, the interceptor is registered.
    pub stall: Option<StalledStreamProtectionConfig>,
    /// Whether connections are given up on which a transient failure came.
    pub poisoning: bool,
    /// Whether `no_auth` was called.
    pub no_auth: bool,
    /// The auth options.
    pub options: AuthOptions,
    /// The auth schemes, in the order of their registration.
    pub schemes: List<Scheme<A>>,
    /// Where identities come from, in the order of their registration.
    pub sources: List<RegisteredSource<IdentityResolver<R>>>,
    /// How identities are kept.
    pub cache: SharedIdentityCache,
    /// The retry classifiers, in the order of their registration.
    pub classifiers: List<Classifier<E>>,
    /// The program's interceptors, in the order of their registration.
    pub interceptors: List<Slot<OwnInterceptor>>,
    /// The plugins, in the order of their registration.
    pub plugins: List<Plugin>,
    /// What makes requests of inputs.
    pub serializer: Option<Z>,
    /// What makes outcomes of responses.
    pub deserializer: Option<RegisteredDeserializer<D>>,
    /// The types of the operation.
    pub types: PhantomData<(I, O, E)>,
}

impl<I, O, E, A: AuthScheme, R: ResolveIdentity, Z, D> OperationBuilder<I, O, E, A, R, Z, D> {
    /// The builder without any part. It takes no memory. A program that brings its parts in boxes
    /// names three types: `let builder: OperationBuilder<I, O, E> = OperationBuilder::new();`.
    pub fn new() -> Self
        ensures { result ≡ no_parts }
    {
        OperationBuilder {
            service_name: None,
            operation_name: None,
            behavior_version: None,
            components: no_draft(),
            endpoint_url: None,
            strategy: None,
            retry: None,
            timeouts: None,
            stall: None,
            poisoning: false,
            no_auth: false,
            options: AuthOptions::Listed(List::new()),
            schemes: List::new(),
            sources: List::new(),
            cache: IdentityCache::no_cache(),
            classifiers: List::new(),
            interceptors: List::new(),
            plugins: List::new(),
            serializer: None,
            deserializer: None,
            types: PhantomData,
        }
    }
}

impl<I, O, E, A: AuthScheme, R: ResolveIdentity, Z, D> Default
    for OperationBuilder<I, O, E, A, R, Z, D> {
    ghost use Rattle.std.specs.Prelude.{◌≡◌};
    ghost use Rattle.client_builder.specs.Builder.{no_parts};

    ghost is_default = { λ builder. builder ≡ no_parts };

    /// The builder without any part.
    fn default() -> Self {
        OperationBuilder::new()
    }
}

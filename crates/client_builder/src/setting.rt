//! The setters that take no memory.
ghost use Rattle.std.specs.Prelude.{◌≡◌, Some, true, false};
ghost use Rattle.identity_cell.specs.declared.identity_cache.SharedIdentityCache.TheVariants.{NoCache};
ghost use Rattle.client_builder.specs.declared.builder.AuthOptions.TheVariants.{NoAuth, Listed};
ghost use Rattle.client_builder.specs.declared.builder.StrategyKind.TheVariants.{Never};
ghost use Rattle.client_builder.specs.declared.builder.StrategyKind.TheVariants.{Standard};

use crate::{AuthOptions, OperationBuilder, RegisteredDeserializer, StrategyKind};
use auth_endpoint::AuthScheme;
use client_auth::{DeserializeResponse, Deserializer, SerializeRequest, Serializer};
use identity_cell::{IdentityCache, ResolveIdentity, SharedIdentityCache};
use smithy_types::{List, RetryConfig, StalledStreamProtectionConfig, Text, TimeoutConfig};

impl<I, O, E, A: AuthScheme, R: ResolveIdentity, Z, D> OperationBuilder<I, O, E, A, R, Z, D> {
    /// The service's name. The client's retries are paid from the bucket of the default partition
    /// of this name.
    pub fn service_name(mut self, service_name: Text) -> Self
        ensures { result ≡ record self { service_name = Some service_name } }
    {
        self.service_name = Some(service_name);
        self
    }

    /// The operation's name.
    pub fn operation_name(mut self, operation_name: Text) -> Self
        ensures { result ≡ record self { operation_name = Some operation_name } }
    {
        self.operation_name = Some(operation_name);
        self
    }

    /// The version of behaviour. It is kept, and nothing goes by it.
    pub fn behavior_version(mut self, behavior_version: u32) -> Self
        ensures { result ≡ record self { behavior_version = Some behavior_version } }
    {
        self.behavior_version = Some(behavior_version);
        self
    }

    /// The outside's connector is used.
    pub fn http_client(mut self) -> Self
        ensures { result ≡ record self { components = record self.components { client = true } } }
    {
        self.components.client = true;
        self
    }

    /// The outside's sleeps are used.
    pub fn sleep_impl(mut self) -> Self
        ensures { result ≡ record self { components = record self.components { sleep = true } } }
    {
        self.components.sleep = true;
        self
    }

    /// The outside's clock is used.
    pub fn time_source(mut self) -> Self
        ensures { result ≡ record self { components = record self.components { time = true } } }
    {
        self.components.time = true;
        self
    }

    /// Each request goes to this URL, which is checked where it is applied. The parameters of the
    /// endpoint's resolver are set too.
    pub fn endpoint_url(mut self, url: Text) -> Self
        ensures { result ≡ record self { endpoint_url = Some url } }
    {
        self.endpoint_url = Some(url);
        self
    }

    /// Nothing is retried. What `standard_retry` set stays a setting.
    pub fn no_retry(mut self) -> Self
        ensures { result ≡ record self { strategy = Some Never } }
    {
        self.strategy = Some(StrategyKind::Never);
        self
    }

    /// Retries are made and paid for, by this setting.
    pub fn standard_retry(mut self, retry: RetryConfig) -> Self
        ensures { result ≡ record self { strategy = Some Standard; retry = Some retry } }
    {
        self.strategy = Some(StrategyKind::Standard);
        self.retry = Some(retry);
        self
    }

    /// The deadlines.
    pub fn timeout_config(mut self, timeouts: TimeoutConfig) -> Self
        ensures { result ≡ record self { timeouts = Some timeouts } }
    {
        self.timeouts = Some(timeouts);
        self
    }

    /// Requests aren't signed: the one option is `noAuth`, its scheme and resolver are registered,
    /// the parameters of the options' resolver are set, and no identity is kept.
    pub fn no_auth(mut self) -> Self
        ensures { result ≡ record self { no_auth = true; options = NoAuth; cache = NoCache } }
    {
        self.no_auth = true;
        self.options = AuthOptions::NoAuth;
        self.cache = IdentityCache::no_cache();
        self
    }

    /// How identities are kept, in place of a former way. Without it none is.
    pub fn identity_cache(mut self, cache: SharedIdentityCache) -> Self
        ensures { result ≡ record self { cache = cache } }
    {
        self.cache = cache;
        self
    }

    /// The auth options by the ids of their schemes, in place of former ones.
    pub fn auth_scheme_options(mut self, options: List<Text>) -> Self
        ensures { result ≡ record self { options = Listed options } }
    {
        self.options = AuthOptions::Listed(options);
        self
    }

    /// Connections are given up on which a transient failure came.
    pub fn with_connection_poisoning(mut self) -> Self
        ensures { result ≡ record self { poisoning = true } }
    {
        self.poisoning = true;
        self
    }

    /// How streams are protected from stalls. The interceptor that does it is registered too.
    pub fn stalled_stream_protection(mut self, stall: StalledStreamProtectionConfig) -> Self
        ensures { result ≡ record self { stall = Some stall } }
    {
        self.stall = Some(stall);
        self
    }
}

impl<I, O, E, A: AuthScheme, R: ResolveIdentity, Z: SerializeRequest, D> OperationBuilder<
    I,
    O,
    E,
    A,
    R,
    Z,
    D,
> {
    /// What makes requests of inputs, of the program's own type.
    pub fn own_serializer(mut self, serializer: Z) -> Self
        ensures { result ≡ record self { serializer = Some serializer } }
    {
        self.serializer = Some(serializer);
        self
    }
}

impl<I, O, E, A: AuthScheme, R: ResolveIdentity, D> OperationBuilder<I, O, E, A, R, Serializer, D> {
    /// What makes requests of inputs.
    pub fn serializer(mut self, serializer: Box<dyn SerializeRequest>) -> Self
        ensures { result ≡ record self { serializer = Some (Serializer.Boxed serializer) } }
    {
        self.serializer = Some(Serializer::Boxed(serializer));
        self
    }
}

impl<I, O, E, A: AuthScheme, R: ResolveIdentity, Z, D: DeserializeResponse> OperationBuilder<
    I,
    O,
    E,
    A,
    R,
    Z,
    D,
> {
    /// What makes outcomes of responses, of the program's own type. It is asked once a response is
    /// read.
    pub fn own_deserializer(mut self, deserializer: D) -> Self
        ensures { result ≡ record self
            { deserializer = Some (record { deserializer = deserializer; may_stream = false }) } }
    {
        self.deserializer = Some(RegisteredDeserializer {
            deserializer,
            may_stream: false,
        });
        self
    }

    /// The same, and it is asked by a response's head first.
    pub fn own_deserializer_impl(mut self, deserializer: D) -> Self
        ensures { result ≡ record self
            { deserializer = Some (record { deserializer = deserializer; may_stream = true }) } }
    {
        self.deserializer = Some(RegisteredDeserializer {
            deserializer,
            may_stream: true,
        });
        self
    }
}

impl<I, O, E, A: AuthScheme, R: ResolveIdentity, Z> OperationBuilder<
    I,
    O,
    E,
    A,
    R,
    Z,
    Deserializer,
> {
    /// What makes outcomes of responses. It is asked once a response is read.
    pub fn deserializer(mut self, deserializer: Box<dyn DeserializeResponse>) -> Self
        ensures { result ≡ record self {
          deserializer = Some (record
              { deserializer = Deserializer.Boxed deserializer; may_stream = false });
        } }
    {
        self.deserializer = Some(RegisteredDeserializer {
            deserializer: Deserializer::Boxed(deserializer),
            may_stream: false,
        });
        self
    }

    /// What makes outcomes of responses. It is asked by a response's head first.
    pub fn deserializer_impl(mut self, deserializer: Box<dyn DeserializeResponse>) -> Self
        ensures { result ≡ record self {
          deserializer = Some (record
              { deserializer = Deserializer.Boxed deserializer; may_stream = true });
        } }
    {
        self.deserializer = Some(RegisteredDeserializer {
            deserializer: Deserializer::Boxed(deserializer),
            may_stream: true,
        });
        self
    }
}

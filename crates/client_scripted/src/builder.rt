//! The builder of a client.
ghost use Rattle.std.specs.Prelude.{◌≡◌};
ghost use Rattle.client_scripted.specs.Parts.{retry_of, strategy_of};
ghost use Rattle.client_scripted.specs.Clients.{builder_with};

use crate::auth::AuthParts;
use crate::client::ServiceBuilder;
use crate::service::{ServiceDeserializer, ServiceError, ServiceSerializer};
use client_builder::{OperationBuilder, Plugin, RegisteredDeserializer, StrategyKind};
use json_scripts::client::{ClientRules, RetryChoice};
use retry_policy::Classifier;
use smithy_base::ComponentsDraft;
use smithy_types::{List, RetryConfig, Text};
use std::marker::PhantomData;

/// What a client is called, and where it sends its requests.
#[derive(Drop)]
pub struct ClientNames {
    /// The service's name.
    pub service: Text,
    /// The operation's name.
    pub operation: Text,
    /// Where requests go.
    pub url: Text,
}

/// The builder of a client that has these parts and goes by these rules.
pub(crate) fn builder_with(
    names: ClientNames,
    rules: ClientRules,
    classifiers: List<Classifier<ServiceError>>,
    auth: AuthParts,
    plugins: List<Plugin>,
) -> ServiceBuilder
    ensures { result ≡ builder_with names rules classifiers auth plugins }
{
    OperationBuilder {
        service_name: Some(names.service),
        operation_name: Some(names.operation),
        behavior_version: None,
        components: ComponentsDraft {
            sleep: rules.flags.sleep,
            time: rules.flags.time,
            client: true,
        },
        endpoint_url: Some(names.url),
        strategy: Some(strategy_of(rules.retry)),
        retry: retry_of(rules.retry),
        timeouts: Some(rules.timeouts),
        stall: rules.stall,
        poisoning: rules.flags.poisoning,
        no_auth: auth.no_auth,
        options: auth.options,
        schemes: auth.schemes,
        sources: auth.sources,
        cache: auth.cache,
        classifiers,
        interceptors: List::new(),
        plugins,
        serializer: Some(ServiceSerializer),
        deserializer: Some(RegisteredDeserializer {
            deserializer: ServiceDeserializer,
            may_stream: false,
        }),
        types: PhantomData,
    }
}

fn strategy_of(retry: RetryChoice) -> StrategyKind
    ensures { result ≡ strategy_of retry }
{
    match retry {
        RetryChoice::Never => StrategyKind::Never,
        RetryChoice::Standard(_) => StrategyKind::Standard,
    }
}

fn retry_of(retry: RetryChoice) -> Option<RetryConfig>
    ensures { result ≡ retry_of retry }
{
    match retry {
        RetryChoice::Never => None,
        RetryChoice::Standard(retry) => Some(retry),
    }
}

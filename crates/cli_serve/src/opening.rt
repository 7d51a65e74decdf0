//! The client of a host's description.
ghost use Rattle.std.specs.Prelude.{◌≡◌, None, IfOk};
ghost use Rattle.client_builder.specs.Refusal.{refusal};
ghost use Rattle.cli_serve.specs.Opening.{IsFresh, IsServedFrom, served_builder};

use client_builder::{
    BuildRefusal, IdentityResolver, OperationBuilder, OwnInterceptor, RegisteredDeserializer,
    Scheme, refusal_of,
};
use client_components::TypesOf;
use client_scripted::service::{ServiceError, ServiceScheme};
use client_scripted::{ClientQuota, ServiceBuilder};
use host_session::HostedClient;
use host_session::service::{
    ErrorRule, HostedClassifier, HostedDeserializer, HostedSerializer, RetryAfterClassifier,
    classifiers_room, with_retry_after,
};
use identity_cell::NoAuthIdentityResolver;
use outside_hosted::HostedOutside;
use retry_policy::{Classifier, ClassifyRetry};
use smithy_base::Slot;
use smithy_types::{List, OutOfMemory, Payload};
use std::alloc::Global;
use std::marker::PhantomData;

/// The types of a host's client.
pub type ServedTypes = TypesOf<
    HostedOutside,
    ClientQuota,
    HostedClassifier<Classifier<ServiceError>>,
    Slot<OwnInterceptor>,
    Scheme<ServiceScheme>,
    IdentityResolver<NoAuthIdentityResolver>,
    HostedSerializer,
    HostedDeserializer,
>;

/// A host's client.
pub type ServedClient = HostedClient<ServedTypes>;

/// The builder of such a client.
pub type ServedBuilder = OperationBuilder<
    Payload,
    Payload,
    ServiceError,
    ServiceScheme,
    NoAuthIdentityResolver,
    HostedSerializer,
    HostedDeserializer,
>;

/// The outside before anything was handed in.
pub(crate) fn first_outside(alloc: Global, start: u64, seed: u64) -> HostedOutside
    ensures { IsFresh start seed result }
{
    HostedOutside::new(alloc, start, seed)
}

/// Builds a client whose builder lacks nothing, so that it is refused for want of memory alone. Its
/// classifiers are those of the builder, and the one for delays behind them, if there is one.
#[tactic(auto, using(crate::proofs::Whole::served_from))]
pub(crate) fn build(
    alloc: Global,
    builder: ServedBuilder,
    outside: HostedOutside,
    quota: ClientQuota,
    retry_after: Option<RetryAfterClassifier>,
) -> Result<ServedClient, OutOfMemory>
    requires { refusal builder ≡ None }
    ensures { IfOk result (λ client.
        IsServedFrom ⟦<Classifier<ServiceError> as ClassifyRetry>⟧.ranked builder outside quota
        retry_after client) }
{
    let Ok(room) = classifiers_room(alloc, &builder.classifiers) else {
        refusal_of((builder, outside, quota, BuildRefusal::OutOfMemory));
        return Err(OutOfMemory);
    };
    match builder.build(alloc, outside, quota) {
        Ok((_, built)) => Ok(HostedClient {
            components: with_retry_after(built, room, retry_after),
        }),
        Err(back) => {
            refusal_of(back);
            room.destroy_empty();
            Err(OutOfMemory)
        }
    }
}

/// The builder with inputs that are requests, and outputs that are responses.
pub(crate) fn served(builder: ServiceBuilder, errors: List<ErrorRule>) -> ServedBuilder
    ensures { result ≡ served_builder builder errors }
{
    OperationBuilder {
        service_name: builder.service_name,
        operation_name: builder.operation_name,
        behavior_version: builder.behavior_version,
        components: builder.components,
        endpoint_url: builder.endpoint_url,
        strategy: builder.strategy,
        retry: builder.retry,
        timeouts: builder.timeouts,
        stall: builder.stall,
        poisoning: builder.poisoning,
        no_auth: builder.no_auth,
        options: builder.options,
        schemes: builder.schemes,
        sources: builder.sources,
        cache: builder.cache,
        classifiers: builder.classifiers,
        interceptors: builder.interceptors,
        plugins: builder.plugins,
        serializer: Some(HostedSerializer),
        deserializer: Some(RegisteredDeserializer {
            deserializer: HostedDeserializer { rules: errors },
            may_stream: false,
        }),
        types: PhantomData,
    }
}

//! A client of a script.
ghost use Rattle.std.specs.Prelude.{◌≡◌, None, map, IfOk};
ghost use Rattle.client_scripted.specs.Parts.{classifier_of, identities_of, plugin_layer};
ghost use Rattle.client_scripted.specs.Parts.{plugins_of};
ghost use Rattle.client_builder.specs.Refusal.{refusal};
ghost use Rattle.client_scripted.specs.Clients.{Builds, IsBuiltBy, IsOperationOf, builder_of};
ghost use Rattle.client_scripted.specs.Clients.{builder_with};

use crate::auth::{AuthParts, auth_parts};
use crate::builder::{ClientNames, builder_with};
use crate::classifiers::classifiers_of;
use crate::partition::partition_of;
use crate::plugins::own_plugins;
use crate::service::{ServiceDeserializer, ServiceError, ServiceScheme, ServiceSerializer};
use client_builder::{
    BuildRefusal, IdentityResolver, OperationBuilder, OwnInterceptor, Plugin, Scheme, refusal_of,
};
use client_components::{RuntimeComponents, TypesOf};
use client_retries::TakeOffer;
use identity_cell::NoAuthIdentityResolver;
use json_print::world::PayloadOperation;
use json_scripts::client::{ClassifierChoice, ClientObject, ClientRules, ClientTarget};
use outside_scripted::{IdentityRecord, ScriptedOutside};
use rate_limit::ClientRateLimiter;
use retry_policy::{Classifier, ClassifyRetry};
use retry_quota::Registry;
use smithy_base::Slot;
use smithy_types::{List, OutOfMemory, Payload, RetryPartition, Shared, Text};
use std::alloc::Global;

/// The buckets and the limiters of a script's clients.
pub type ClientQuota = Registry<ClientRateLimiter>;

/// The types of a client of the service. X is its outside, Q its quota, C a classifier and I an
/// interceptor.
pub type ServiceTypes<X, Q, C, I> = TypesOf<
    X,
    Q,
    C,
    I,
    Scheme<ServiceScheme>,
    IdentityResolver<NoAuthIdentityResolver>,
    ServiceSerializer,
    ServiceDeserializer,
>;

/// The client of a script's service.
pub type ServiceWorld<C, I> = RuntimeComponents<ServiceTypes<ScriptedOutside, ClientQuota, C, I>>;

/// The client of a script's service as its builder builds it.
pub type BuiltWorld = ServiceWorld<Classifier<ServiceError>, Slot<OwnInterceptor>>;

/// The builder of such a client.
pub type ServiceBuilder = OperationBuilder<
    Payload,
    Payload,
    ServiceError,
    ServiceScheme,
    NoAuthIdentityResolver,
    ServiceSerializer,
    ServiceDeserializer,
>;

/// A client that a script describes, and what the outside answers to its loads of identities.
#[derive(Drop)]
pub struct ScriptedClient<C: ClassifyRetry, I: TakeOffer> {
    /// The operation.
    pub operation: PayloadOperation,
    /// What the operation is invoked over. At rest it has an outside and a quota of its own, which
    /// stay as they are.
    pub world: ServiceWorld<C, I>,
    /// Its identities.
    pub identities: Shared<List<IdentityRecord>>,
}

/// A client as its builder builds it.
pub type BuiltClient = ScriptedClient<Classifier<ServiceError>, Slot<OwnInterceptor>>;

/// The client that this object describes. Its bucket is one of the registry's.
pub fn build_client(
    alloc: Global,
    object: ClientObject,
    registry: &mut ClientQuota,
) -> Result<BuiltClient, OutOfMemory>
    ensures { IfOk result (λ client. Builds ⟦<Classifier<ServiceError> as ClassifyRetry>⟧.ranked
        registry.old object client registry.new) }
{
    let operation = operation_of(&object.target)?;
    let service = &object.target.service;
    let partition = partition_of(alloc, service, object.rules.bucket, registry)?;
    let (builder, identities) = prepare(alloc, object, partition)?;
    let identities = Shared::new(alloc, identities)?;
    let world = build_world(alloc, builder)?;
    Ok(ScriptedClient {
        operation,
        world,
        identities,
    })
}

/// The builder of a client of this partition, and the client's identities.
#[tactic(auto, unfolding(crate::specs::Clients::builder_of))]
pub fn prepare(
    alloc: Global,
    object: ClientObject,
    partition: Option<RetryPartition>,
) -> Result<(ServiceBuilder, List<IdentityRecord>), OutOfMemory>
    ensures builder { IfOk result (λ made. made.0 ≡ builder_of partition object) }
    ensures identities { IfOk result (λ made. made.1 ≡ identities_of object.auth) }
{
    let ClientObject {
        target,
        rules,
        classifiers,
        auth,
    } = object;
    let (auth, terms) = auth_parts(alloc, auth)?;
    let builder = signed(
        alloc,
        target,
        rules,
        classifiers,
        auth,
        terms.preference,
        partition,
    )?;
    Ok((builder, terms.identities))
}

// The builder of a client that signs with these parts.
fn signed(
    alloc: Global,
    target: ClientTarget,
    rules: ClientRules,
    classifiers: List<ClassifierChoice>,
    auth: AuthParts,
    preference: Option<List<Text>>,
    partition: Option<RetryPartition>,
) -> Result<ServiceBuilder, OutOfMemory>
    ensures { IfOk result (λ builder. builder ≡ builder_with
        (record { service = target.service; operation = target.operation; url = target.url }) rules
        (map classifier_of classifiers) auth
        (plugins_of (plugin_layer partition target.prefix preference rules.flags.v2)
        rules.flags.enforce)) }
{
    let ClientTarget {
        service,
        operation,
        url,
        prefix,
    } = target;
    let names = ClientNames {
        service,
        operation,
        url,
    };
    let plugins = own_plugins(alloc, partition, prefix, preference, rules.flags)?;
    plugged(alloc, names, rules, classifiers, auth, plugins)
}

// The builder of a client with these plugins.
fn plugged(
    alloc: Global,
    names: ClientNames,
    rules: ClientRules,
    classifiers: List<ClassifierChoice>,
    auth: AuthParts,
    plugins: List<Plugin>,
) -> Result<ServiceBuilder, OutOfMemory>
    ensures { IfOk result (λ builder. builder ≡
        builder_with names rules (map classifier_of classifiers) auth plugins) }
{
    let classifiers = classifiers_of(alloc, classifiers)?;
    Ok(builder_with(names, rules, classifiers, auth, plugins))
}

/// The operation of a client, over payloads.
pub fn operation_of(target: &ClientTarget) -> Result<PayloadOperation, OutOfMemory>
    ensures { IfOk result (λ operation. IsOperationOf target.now operation) }
{
    let service = target.service.clone()?;
    let operation = target.operation.clone()?;
    Ok(PayloadOperation::named(service, operation))
}

// Builds a client whose builder lacks nothing.
fn build_world(alloc: Global, builder: ServiceBuilder) -> Result<BuiltWorld, OutOfMemory>
    requires { refusal builder ≡ None }
    ensures { IfOk result (λ world. IsBuiltBy ⟦<Classifier<ServiceError> as ClassifyRetry>⟧.ranked
        builder world) }
{
    let quota = Registry::new(alloc)?;
    let outside = ScriptedOutside::new(alloc, 0, List::new());
    match builder.build(alloc, outside, quota) {
        Ok((_, world)) => Ok(world),
        Err(back) => Err(want_of(refusal_of(back))),
    }
}

// A build that lacks nothing is refused for want of memory alone.
fn want_of(refusal: BuildRefusal) -> OutOfMemory
    requires { refusal ≡ BuildRefusal.OutOfMemory }
{
    match refusal {
        BuildRefusal::OutOfMemory => OutOfMemory,
        BuildRefusal::Refused(_) => unreachable!(),
    }
}

//! The retry classifiers of a host's client.
ghost use Rattle.std.specs.Prelude.{◌≡◌, ◌+◌, ◌≤◌, [], ◌++◌, IfOk, length, map, vec_capacity};
ghost use Rattle.std.specs.Prelude.{vec_len};
ghost use Rattle.host_session.specs.Classifiers.{AddsRetryAfter, classifiers_with};
ghost use Rattle.host_session.specs.declared.service.classifier.HostedClassifier.TheVariants.{Own};

use crate::service::retry_after::RetryAfterClassifier;
use auth_endpoint::AuthScheme;
use client_auth::{DeserializeResponse, SerializeRequest};
use client_components::{Given, Parts, RuntimeComponents, TypesOf};
use client_retries::TakeOffer;
use identity_cell::ResolveIdentity;
use outside::Outside;
use retry_policy::ClassifyRetry;
use retry_quota::Quota;
use smithy_context::InterceptorContext;
use smithy_types::{List, OutOfMemory, RetryAction};
use std::alloc::Global;

/// One of a client's own classifiers, or the one for the delays that responses ask for.
#[derive(Drop)]
pub enum HostedClassifier<C> {
    /// One of the client's own.
    Own(C),
    /// The one for delays.
    RetryAfter(RetryAfterClassifier),
}

impl<C: ClassifyRetry> ClassifyRetry for HostedClassifier<C> {
    ghost use Rattle.std.specs.Prelude.{codes, pos};
    ghost use Rattle.host_session.specs.Classifiers.{hosted_says};
    ghost use Rattle.host_session.specs.declared.service.classifier.HostedClassifier.TheVariants.{Own};
    ghost use Rattle.host_session.specs.declared.service.classifier.HostedClassifier.TheVariants.{RetryAfter};

    ghost called = { elim [ Own x ↦ C.called x | RetryAfter x ↦ codes "Retry After" ] };

    ghost ranked = { elim [ Own x ↦ C.ranked x | RetryAfter x ↦ pos 30 ] };

    ghost says = { hosted_says C.says };

    fn name(&self) -> &str {
        match self {
            HostedClassifier::Own(classifier) => classifier.name(),
            HostedClassifier::RetryAfter(classifier) => classifier.name(),
        }
    }

    fn priority(&self) -> i8 {
        match self {
            HostedClassifier::Own(classifier) => classifier.priority(),
            HostedClassifier::RetryAfter(classifier) => classifier.priority(),
        }
    }

    fn classify_retry_v2(&self, ctx: &InterceptorContext, previous: &RetryAction) -> RetryAction {
        match self {
            HostedClassifier::Own(classifier) => classifier.classify_retry_v2(ctx, previous),
            HostedClassifier::RetryAfter(classifier) => classifier.classify_retry_v2(ctx, previous),
        }
    }
}

/// An empty vector with room for a client's own classifiers and for the one for delays.
pub fn classifiers_room<C>(
    alloc: Global,
    own: &List<C>,
) -> Result<Vec<HostedClassifier<C>>, OutOfMemory>
    ensures items { IfOk result (λ room. room.items ≡ []) }
    ensures len { IfOk result (λ room. vec_len room ≡ 0) }
    ensures capacity { IfOk result (λ room. length own.now + 1 ≤ vec_capacity room) }
{
    let Some(room) = own.len().checked_add(1) else {
        return Err(OutOfMemory);
    };
    Ok(Vec::with_capacity(alloc, room)?)
}

/// A client of which nothing was asked yet, with the classifier for delays behind its own, if there
/// is one. The room is for its classifiers, and it takes no further memory.
pub fn with_retry_after<
    X: Outside + Drop,
    Q: Quota + Drop,
    C: ClassifyRetry,
    I: TakeOffer,
    A: AuthScheme,
    R: ResolveIdentity,
    Z: SerializeRequest,
    D: DeserializeResponse,
>(
    client: RuntimeComponents<TypesOf<X, Q, C, I, A, R, Z, D>>,
    room: Vec<HostedClassifier<C>>,
    retry_after: Option<RetryAfterClassifier>,
) -> RuntimeComponents<TypesOf<X, Q, HostedClassifier<C>, I, A, R, Z, D>>
    requires items { room.items ≡ [] }
    requires len { vec_len room ≡ 0 }
    requires capacity { length client.parts.given.classifiers.items + 1 ≤ vec_capacity room }
    ensures { AddsRetryAfter retry_after client result }
{
    let parts = client.into_parts();
    let given = parts.given;
    RuntimeComponents {
        parts: Parts {
            given: Given {
                client: given.client,
                sleep_impl: given.sleep_impl,
                time_source: given.time_source,
                classifiers: classifiers_with(given.classifiers, room, retry_after),
                options: given.options,
                schemes: given.schemes,
                endpoint: given.endpoint,
                serializer: given.serializer,
                deserializer: given.deserializer,
                may_stream: given.may_stream,
            },
            sleeps: parts.sleeps,
            call: parts.call,
            strategy: parts.strategy,
            interceptors: parts.interceptors,
            identities: parts.identities,
            outside: parts.outside,
            quota: parts.quota,
        },
        log: List::new(),
    }
}

// A client's own classifiers in their order, and behind them the one for delays, if there is one.
fn classifiers_with<C>(
    own: Vec<C>,
    room: Vec<HostedClassifier<C>>,
    retry_after: Option<RetryAfterClassifier>,
) -> Vec<HostedClassifier<C>>
    requires items { room.items ≡ [] }
    requires len { vec_len room ≡ 0 }
    requires capacity { length own.items + 1 ≤ vec_capacity room }
    ensures { result.items ≡ classifiers_with own.items retry_after }
{
    let mut classifiers = room;
    push_own(&mut classifiers, own);
    if let Some(classifier) = retry_after {
        classifiers.push_reserved(HostedClassifier::RetryAfter(classifier));
    }
    classifiers
}

// Puts a client's own classifiers behind the others, in their order.
#[tactic(auto, using(crate::proofs::Adding::begun, crate::proofs::Adding::moved))]
fn push_own<C>(classifiers: &mut Vec<HostedClassifier<C>>, own: Vec<C>)
    requires { vec_len classifiers.old + length own.items + 1 ≤ vec_capacity classifiers.old }
    ensures items { classifiers.new.items ≡ classifiers.old.items ++ map Own own.items }
    ensures room { vec_len classifiers.new + 1 ≤ vec_capacity classifiers.new }
{
    let mut left = own.into_iter();
    while let Some(classifier) = left.next() {
        classifiers.push_reserved(HostedClassifier::Own(classifier));
    }
    left.destroy_empty();
}

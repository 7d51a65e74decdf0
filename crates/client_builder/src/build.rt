//! The operation and the client that a builder builds.
ghost use Rattle.std.specs.Prelude.{◌≡◌, None, Some, IfErr, IfOk, OnOk};
ghost use Rattle.client_builder.specs.Built.{HasParts, IsBuiltFrom, IsNamed, nobody};
ghost use Rattle.client_builder.specs.Built.{strategy_of, wanted};
ghost use Rattle.client_builder.specs.Preparing.{IsPrepared};
ghost use Rattle.client_builder.specs.Refusal.{IsRefusedFor, first_absent, part_checks, refusal};
ghost use Rattle.client_builder.specs.declared.scheme.Scheme.TheVariants as schemes;

use crate::classifiers::by_priority;
use crate::prepared::Prepared;
use crate::room::joined;
use crate::{
    BuildRefusal, IdentityResolver, OperationBuilder, OwnInterceptor, Scheme, StrategyKind,
};
use auth_endpoint::{
    AuthScheme, NO_AUTH_SCHEME_ID, NoAuthScheme, SharedAuthScheme, SharedIdentityResolver,
};
use client_auth::{
    DeserializeResponse, Deserializer, Identities, IdentitySource, RegisteredSource,
    SerializeRequest, Serializer,
};
use client_call::{Call, Sleeps};
use client_components::{Given, Parts, RuntimeComponents, TypesOf};
use client_retries::RetryStrategy;
use identity_cell::{NoAuthIdentityResolver, ResolveIdentity};
use orchestrate::Operation;
use outside::Outside;
use retry_policy::{Classifier, ClassifyRetry, NeverRetryStrategy, StandardRetryStrategy};
use retry_quota::Quota;
use smithy_base::Slot;
use smithy_types::{List, ProvideErrorKind, Text, Wire};
use std::alloc::Global;
use std::mem;

/// The types of a client that a builder builds, over an outside X and a quota Q, for modelled
/// errors E. The other types are the program's own scheme, resolver, serializer and deserializer.
pub type BuiltTypes<X, Q, E, A, R, Z, D> = TypesOf<
    X,
    Q,
    Classifier<E>,
    Slot<OwnInterceptor>,
    Scheme<A>,
    IdentityResolver<R>,
    Z,
    D,
>;

/// A client that a builder builds. Where a program names no types of its own, it brings boxes.
pub type Client<
    X,
    Q,
    E,
    A = SharedAuthScheme,
    R = SharedIdentityResolver,
    Z = Serializer,
    D = Deserializer,
> = RuntimeComponents<BuiltTypes<X, Q, E, A, R, Z, D>>;

impl<
    I: Wire + Drop,
    O: Wire + Drop,
    E: ProvideErrorKind + Drop,
    A: AuthScheme,
    R: ResolveIdentity,
    Z: SerializeRequest,
    D: DeserializeResponse,
> OperationBuilder<I, O, E, A, R, Z, D> {
    /// The operation, and the client that it is invoked over, with this outside and this quota. A
    /// builder that is refused comes back with both: for the first part that is absent, or for want
    /// of memory.
    pub fn build<X: Outside + Drop, Q: Quota + Drop>(
        mut self,
        alloc: Global,
        outside: X,
        quota: Q,
    ) -> Result<(Operation<I, O, E>, Client<X, Q, E, A, R, Z, D>), (Self, X, Q, BuildRefusal)>
        ensures refused { IfErr result (λ back. IsRefusedFor self back.3) }
        ensures handed_back { IfErr result (λ back.
            (back.0 ≡ self) × (back.1 ≡ outside) × (back.2 ≡ quota)) }
        ensures accepted { OnOk result (refusal self ≡ None) }
        ensures named { IfOk result (λ built. IsNamed self built.0) }
        ensures built { IfOk result (λ built.
            IsBuiltFrom ⟦<Classifier<E> as ClassifyRetry>⟧.ranked self outside quota built.1) }
    {
        let prepared = match self.prepare(alloc) {
            Ok(prepared) => prepared,
            Err(refusal) => return Err((self, outside, quota, refusal)),
        };
        let list = mem::replace(&mut self.classifiers, List::new());
        match by_priority(alloc, list) {
            Ok(classifiers) => Ok(self.assemble(alloc, prepared, classifiers, outside, quota)),
            Err(list) => {
                self.classifiers = list;
                Err((self, outside, quota, BuildRefusal::OutOfMemory))
            }
        }
    }

    // Puts together what is there. It takes no memory.
    fn assemble<X: Outside + Drop, Q: Quota + Drop>(
        self,
        alloc: Global,
        prepared: Prepared<A, R>,
        classifiers: Vec<Classifier<E>>,
        outside: X,
        quota: Q,
    ) -> (Operation<I, O, E>, Client<X, Q, E, A, R, Z, D>)
        requires complete { first_absent (part_checks self) ≡ None }
        requires prepared { IsPrepared self prepared }
        ensures named { IsNamed self result.0 }
        ensures parts { HasParts self outside quota result.1 }
        ensures classifiers { result.1.parts.given.classifiers ≡ classifiers }
    {
        let sleep_impl = self.has_sleep();
        let time_source = self.has_time();
        let no_auth = self.has_no_auth();
        let last = self.last_interceptor();
        let deserializer = self.deserializer.unwrap();
        let parts: Parts<BuiltTypes<X, Q, E, A, R, Z, D>> = Parts {
            given: Given {
                client: prepared.settings,
                sleep_impl,
                time_source,
                classifiers,
                options: prepared.options,
                schemes: joined(alloc, prepared.schemes, self.schemes, unsigned(no_auth)),
                endpoint: prepared.endpoint,
                serializer: self.serializer.unwrap(),
                deserializer: deserializer.deserializer,
                may_stream: deserializer.may_stream,
            },
            sleeps: Sleeps::none(),
            call: Call::Idle,
            strategy: strategy_of(self.strategy.unwrap()),
            interceptors: joined(alloc, prepared.front, self.interceptors, last),
            identities: Identities::new(
                alloc,
                joined(alloc, prepared.sources, self.sources, nobody(no_auth)),
                self.cache,
            ),
            outside,
            quota,
        };
        let operation = Operation::named(self.service_name.unwrap(), self.operation_name.unwrap());
        let client = RuntimeComponents {
            parts,
            log: List::new(),
        };
        (operation, client)
    }
}

// A strategy of this kind that holds no permit.
fn strategy_of<P: Drop>(kind: StrategyKind) -> RetryStrategy<P>
    ensures { result ≡ strategy_of kind }
{
    match kind {
        StrategyKind::Never => RetryStrategy::Never(NeverRetryStrategy::new()),
        StrategyKind::Standard => RetryStrategy::Standard(StandardRetryStrategy::new()),
    }
}

// The scheme that signs nothing, where it is wanted.
fn unsigned<A: AuthScheme>(is_wanted: bool) -> Option<Scheme<A>>
    ensures { result ≡ wanted is_wanted (schemes.NoAuth (record {})) }
{
    if is_wanted {
        Some(Scheme::NoAuth(NoAuthScheme::new()))
    } else {
        None
    }
}

// The source of nobody's identity, where it is wanted.
fn nobody<R: ResolveIdentity>(is_wanted: bool) -> Option<RegisteredSource<IdentityResolver<R>>>
    ensures { result ≡ wanted is_wanted nobody }
{
    if !is_wanted {
        return None;
    }
    let resolver = IdentityResolver::NoAuth(NoAuthIdentityResolver::new());
    Some(RegisteredSource {
        id: Text::from_static(NO_AUTH_SCHEME_ID),
        source: IdentitySource::Resolver(resolver),
    })
}

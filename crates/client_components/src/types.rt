//! The types that a client is made of, and what they mean.

use auth_endpoint::AuthScheme;
use client_auth::{DeserializeResponse, SerializeRequest};
use client_retries::{InterceptorMeaning, QuotaMeaning, TakeOffer};
use identity_cell::ResolveIdentity;
use outside::Outside;
use retry_policy::ClassifyRetry;
use retry_quota::Quota;
use std::marker::PhantomData;

/// The types that a client is made of: an empty type names them once, and stands for them all.
pub trait ClientTypes {
    /// What lies outside of the client.
    type Outside: Outside + Drop;

    /// From what retries are paid.
    type Quota: Quota + Drop;

    /// A retry classifier.
    type Classifier: ClassifyRetry;

    /// An interceptor.
    type Interceptor: TakeOffer;

    /// An auth scheme.
    type Scheme: AuthScheme;

    /// A resolver of identities.
    type Resolver: ResolveIdentity;

    /// What makes requests of inputs.
    type Serializer: SerializeRequest;

    /// What makes outcomes of responses.
    type Deserializer: DeserializeResponse;
}

/// What the types of a client mean, as one record. Every family of types has it, and brings nothing
/// for it.
pub trait ClientMeans: ClientTypes {
    ghost use Rattle.client_components.specs.Meaning.{ClientMeaning};

    /// What they mean.
    ghost means: { ClientMeaning Self Self.Outside Self.Quota Self.Classifier Self.Interceptor
        Self.Scheme Self.Resolver Self.Serializer Self.Deserializer
        Self.Quota.Permit Self.Quota.Limiter };
}

impl<T: ClientTypes> ClientMeans for T {
    ghost means = { record {
      makes = T.Outside.makes;
      sleeps = T.Outside.sleeps;
      quota = ⟦<T::Quota as QuotaMeaning>⟧.means;
      says = T.Classifier.says;
      chain = ⟦<T::Interceptor as InterceptorMeaning>⟧.means;
      names = T.Scheme.names;
      signs = T.Scheme.signs;
      polls = T.Resolver.polls;
      serializes = T.Serializer.serializes;
      streams = T.Deserializer.streams;
      deserializes = T.Deserializer.deserializes;
    } };
}

/// Any eight types, each named on its own: an outside, a quota, a classifier, an interceptor, a
/// scheme, a resolver, a serializer and a deserializer.
pub struct TypesOf<X, Q, C, I, A, R, Z, D> {
    /// The types.
    pub types: PhantomData<(X, Q, C, I, A, R, Z, D)>,
}

impl<
    X: Outside + Drop,
    Q: Quota + Drop,
    C: ClassifyRetry,
    I: TakeOffer,
    A: AuthScheme,
    R: ResolveIdentity,
    Z: SerializeRequest,
    D: DeserializeResponse,
> ClientTypes for TypesOf<X, Q, C, I, A, R, Z, D> {
    type Outside = X;

    type Quota = Q;

    type Classifier = C;

    type Interceptor = I;

    type Scheme = A;

    type Resolver = R;

    type Serializer = Z;

    type Deserializer = D;
}

//! The setters that add to a list. Where there is no memory, the builder comes back with the part.
ghost use Rattle.std.specs.Prelude.{◌≡◌, ◌++◌, ◌∷◌, [], IfErr, IfOk};
ghost use Rattle.client_builder.specs.Builder.{brought_source};
ghost use Rattle.client_builder.specs.declared.scheme.Scheme.TheVariants.{Brought};

use crate::room::room_for_one;
use crate::{IdentityResolver, OperationBuilder, Plugin, Scheme};
use auth_endpoint::{AuthScheme, SharedAuthScheme};
use client_auth::{IdentitySource, RegisteredSource};
use identity_cell::ResolveIdentity;
use retry_policy::Classifier;
use smithy_base::{Intercept, Slot};
use smithy_types::{List, OutOfMemory, Text};
use std::alloc::Global;
use std::mem;

impl<I, O, E: Drop, A: AuthScheme, R: ResolveIdentity, Z, D> OperationBuilder<I, O, E, A, R, Z, D> {
    /// A retry classifier. Classifiers are asked by their priority, the lowest first, and those of
    /// one priority in the order of their registration.
    pub fn retry_classifier(
        mut self,
        alloc: Global,
        classifier: Classifier<E>,
    ) -> Result<Self, (Self, Classifier<E>, OutOfMemory)>
        ensures ok { IfOk result (λ b. b ≡
            record self { classifiers = self.classifiers ++ classifier ∷ [] }) }
        ensures handed_back { IfErr result (λ back. (back.0 ≡ self) × (back.1 ≡ classifier)) }
    {
        let list = mem::replace(&mut self.classifiers, List::new());
        match room_for_one(alloc, list) {
            Ok(mut items) => {
                items.push_reserved(classifier);
                self.classifiers = List::from_vec(items);
                Ok(self)
            }
            Err(list) => {
                self.classifiers = list;
                Err((self, classifier, OutOfMemory))
            }
        }
    }
}

impl<I, O, E, A: AuthScheme, R: ResolveIdentity, Z, D> OperationBuilder<I, O, E, A, R, Z, D> {
    /// An interceptor of the program, behind the crate's own and those that are there.
    pub fn interceptor(
        mut self,
        alloc: Global,
        interceptor: Box<dyn Intercept>,
    ) -> Result<Self, (Self, Box<dyn Intercept>, OutOfMemory)>
        ensures ok { IfOk result (λ b. b ≡
            record self { interceptors = self.interceptors ++ Slot.Boxed interceptor ∷ [] }) }
        ensures handed_back { IfErr result (λ back. (back.0 ≡ self) × (back.1 ≡ interceptor)) }
    {
        let list = mem::replace(&mut self.interceptors, List::new());
        match room_for_one(alloc, list) {
            Ok(mut items) => {
                items.push_reserved(Slot::Boxed(interceptor));
                self.interceptors = List::from_vec(items);
                Ok(self)
            }
            Err(list) => {
                self.interceptors = list;
                Err((self, interceptor, OutOfMemory))
            }
        }
    }

    /// A plugin, which is applied behind those that are there.
    pub fn runtime_plugin(
        mut self,
        alloc: Global,
        plugin: Plugin,
    ) -> Result<Self, (Self, Plugin, OutOfMemory)>
        ensures ok { IfOk result (λ b. b ≡ record self { plugins = self.plugins ++ plugin ∷ [] }) }
        ensures handed_back { IfErr result (λ back. (back.0 ≡ self) × (back.1 ≡ plugin)) }
    {
        let list = mem::replace(&mut self.plugins, List::new());
        match room_for_one(alloc, list) {
            Ok(mut items) => {
                items.push_reserved(plugin);
                self.plugins = List::from_vec(items);
                Ok(self)
            }
            Err(list) => {
                self.plugins = list;
                Err((self, plugin, OutOfMemory))
            }
        }
    }

    /// An auth scheme of the program's own type. Of two with one id, the first counts.
    pub fn own_auth_scheme(
        mut self,
        alloc: Global,
        scheme: A,
    ) -> Result<Self, (Self, A, OutOfMemory)>
        ensures ok { IfOk result (λ b. b ≡
            record self { schemes = self.schemes ++ Brought scheme ∷ [] }) }
        ensures handed_back { IfErr result (λ back. (back.0 ≡ self) × (back.1 ≡ scheme)) }
    {
        let list = mem::replace(&mut self.schemes, List::new());
        match room_for_one(alloc, list) {
            Ok(mut items) => {
                items.push_reserved(Scheme::Brought(scheme));
                self.schemes = List::from_vec(items);
                Ok(self)
            }
            Err(list) => {
                self.schemes = list;
                Err((self, scheme, OutOfMemory))
            }
        }
    }

    /// Where the identity comes from that requests are signed with under this id. Of two sources
    /// with one id, the first counts.
    pub fn identity_resolver(
        mut self,
        alloc: Global,
        id: Text,
        source: IdentitySource<R>,
    ) -> Result<Self, (Self, RegisteredSource<R>, OutOfMemory)>
        ensures ok { IfOk result (λ b. b ≡
            record self { sources = self.sources ++ brought_source id source ∷ [] }) }
        ensures handed_back { IfErr result
            (λ back. (back.0 ≡ self) × (back.1 ≡ record { id = id; source = source })) }
    {
        let list = mem::replace(&mut self.sources, List::new());
        match room_for_one(alloc, list) {
            Ok(mut items) => {
                items.push_reserved(brought_source(id, source));
                self.sources = List::from_vec(items);
                Ok(self)
            }
            Err(list) => {
                self.sources = list;
                Err((self, RegisteredSource { id, source }, OutOfMemory))
            }
        }
    }
}

// The program's source, as a client has it.
fn brought_source<R: ResolveIdentity>(
    id: Text,
    source: IdentitySource<R>,
) -> RegisteredSource<IdentityResolver<R>>
    ensures { result ≡ brought_source id source }
{
    let source = match source {
        IdentitySource::Outside => IdentitySource::Outside,
        IdentitySource::Resolver(resolver) => {
            IdentitySource::Resolver(IdentityResolver::Brought(resolver))
        }
    };
    RegisteredSource { id, source }
}

impl<I, O, E, R: ResolveIdentity, Z, D> OperationBuilder<I, O, E, SharedAuthScheme, R, Z, D> {
    /// An auth scheme. Of two with one id, the first counts.
    pub fn auth_scheme(
        mut self,
        alloc: Global,
        scheme: Box<dyn AuthScheme>,
    ) -> Result<Self, (Self, Box<dyn AuthScheme>, OutOfMemory)>
        ensures ok { IfOk result (λ b. b ≡
            record self { schemes = self.schemes ++ Brought (record { boxed = scheme }) ∷ [] }) }
        ensures handed_back { IfErr result (λ back. (back.0 ≡ self) × (back.1 ≡ scheme)) }
    {
        let list = mem::replace(&mut self.schemes, List::new());
        match room_for_one(alloc, list) {
            Ok(mut items) => {
                items.push_reserved(Scheme::Brought(SharedAuthScheme { boxed: scheme }));
                self.schemes = List::from_vec(items);
                Ok(self)
            }
            Err(list) => {
                self.schemes = list;
                Err((self, scheme, OutOfMemory))
            }
        }
    }
}

//! What takes memory in a build. It is made by reference, so that a build which is refused leaves
//! the builder as it was.
ghost use Rattle.std.specs.Prelude.{◌≡◌, ◌++◌, [], None, Some, IfErr, IfOk, OnOk, unwrap_or};
ghost use Rattle.std.specs.List.{flat_map};
ghost use Rattle.client_builder.specs.Built.{endpoint_at, listed, options_of};
ghost use Rattle.client_builder.specs.ClientLayer.{merged_layer};
ghost use Rattle.client_builder.specs.Plugins.{options_added};
ghost use Rattle.client_builder.specs.Preparing.{IsPrepared};
ghost use Rattle.client_builder.specs.Refusal.{IsRefusedFor, first_absent, part_checks, refusal};

use crate::ordered::in_order;
use crate::refusal::absent_setting;
use crate::room::room_for;
use crate::{
    AuthOptions, BuildRefusal, IdentityResolver, OperationBuilder, OwnInterceptor, Plugin, Scheme,
};
use auth_endpoint::{AuthScheme, NO_AUTH_SCHEME_ID, StaticUriEndpointResolver};
use client_auth::RegisteredSource;
use identity_cell::ResolveIdentity;
use smithy_base::Slot;
use smithy_context::Layer;
use smithy_types::{BuildError, Endpoint, List, OutOfMemory, Part, Shared, Text};
use std::alloc::Global;

/// What stands by itself, and room for what is moved.
#[derive(Drop)]
pub struct Prepared<A: AuthScheme, R: ResolveIdentity> {
    /// What the client's step of the configuration sets.
    pub settings: Layer,
    /// The ids of the auth options.
    pub options: List<Text>,
    /// Where requests go.
    pub endpoint: Shared<Endpoint>,
    /// The interceptors that come before the program's, with room for those and one more.
    pub front: Vec<Slot<OwnInterceptor>>,
    /// Room for the schemes and one more.
    pub schemes: Vec<Scheme<A>>,
    /// Room for the sources and one more.
    pub sources: Vec<RegisteredSource<IdentityResolver<R>>>,
}

impl<I, O, E, A: AuthScheme, R: ResolveIdentity, Z, D> OperationBuilder<I, O, E, A, R, Z, D> {
    /// What a build needs, where no part is absent.
    pub(crate) fn prepare(&self, alloc: Global) -> Result<Prepared<A, R>, BuildRefusal>
        ensures refused { IfErr result (IsRefusedFor self.now) }
        ensures accepted { OnOk result (refusal self.now ≡ None) }
        ensures complete { OnOk result (first_absent (part_checks self.now) ≡ None) }
        ensures prepared { IfOk result (IsPrepared self.now) }
    {
        if let Some(part) = self.absent_part() {
            return Err(missing(part));
        }
        let Ok(merged) = self.merged(alloc) else {
            return Err(BuildRefusal::OutOfMemory);
        };
        if let Some(part) = absent_setting(&merged) {
            return Err(missing(part));
        }
        match self.make(alloc, &merged) {
            Ok(prepared) => Ok(prepared),
            Err(_) => Err(BuildRefusal::OutOfMemory),
        }
    }

    // The settings, in the order in which they were given.
    fn merged(&self, alloc: Global) -> Result<Layer, OutOfMemory>
        ensures { IfOk result (λ layer. layer ≡
            merged_layer (unwrap_or self.now.service_name []) self.now) }
    {
        match &self.service_name {
            Some(name) => self.merged_layer(alloc, name),
            None => self.merged_layer(alloc, &Text::new()),
        }
    }

    // All that is prepared, of a builder that has a place to send requests to.
    fn make(&self, alloc: Global, merged: &Layer) -> Result<Prepared<A, R>, OutOfMemory>
        requires url { (url : _) × (self.now.endpoint_url ≡ Some url) }
        requires merged { merged.now ≡ merged_layer (unwrap_or self.now.service_name []) self.now }
        ensures { IfOk result (IsPrepared self.now) }
    {
        let settings = in_order(alloc, merged)?;
        let options = self.options(alloc)?;
        let endpoint = self.endpoint(alloc)?;
        let front = self.front(alloc)?;
        let schemes = room_for(alloc, &self.schemes, 1)?;
        let sources = room_for(alloc, &self.sources, 1)?;
        Ok(Prepared {
            settings,
            options,
            endpoint,
            front,
            schemes,
            sources,
        })
    }

    // Where requests go.
    fn endpoint(&self, alloc: Global) -> Result<Shared<Endpoint>, OutOfMemory>
        requires { (url : _) × (self.now.endpoint_url ≡ Some url) }
        ensures { IfOk result (λ e. (url : _) × (self.now.endpoint_url ≡ Some url)
            × (e ≡ endpoint_at url)) }
    {
        match &self.endpoint_url {
            Some(url) => endpoint_at(alloc, url),
            None => unreachable!(),
        }
    }

    // The ids of the options that were set, and of those that plugins add.
    fn options(&self, alloc: Global) -> Result<List<Text>, OutOfMemory>
        ensures { IfOk result (λ options. options ≡ options_of self.now) }
    {
        let mut options = listed(alloc, &self.options)?;
        add_options(&mut options, alloc, self.plugins.as_slice())?;
        Ok(options)
    }
}

fn missing(part: Part) -> BuildRefusal
    ensures { result ≡ BuildRefusal.Refused (BuildError.Missing part) }
{
    BuildRefusal::Refused(BuildError::Missing(part))
}

// The endpoint at this URL, without headers and without a list of schemes.
fn endpoint_at(alloc: Global, url: &Text) -> Result<Shared<Endpoint>, OutOfMemory>
    ensures { IfOk result (λ e. e ≡ endpoint_at url.now) }
{
    let resolver = StaticUriEndpointResolver::uri(url.clone()?);
    Shared::new(alloc, resolver.resolve_endpoint()?)
}

// The ids of the options that were set.
fn listed(alloc: Global, options: &AuthOptions) -> Result<List<Text>, OutOfMemory>
    ensures { IfOk result (λ ids. ids ≡ listed options.now) }
{
    match options {
        AuthOptions::NoAuth => {
            let mut ids = List::new();
            ids.push(alloc, Text::from_static(NO_AUTH_SCHEME_ID))?;
            Ok(ids)
        }
        AuthOptions::Listed(options) => Ok(options.clone()?),
    }
}

// Adds what plugins add to the options.
fn add_options(
    options: &mut List<Text>,
    alloc: Global,
    plugins: &[Plugin],
) -> Result<(), OutOfMemory>
    ensures { OnOk result (options.new ≡ options.old ++ flat_map options_added plugins.now) }
{
    for plugin in plugins {
        add_option(options, alloc, plugin)?;
    }
    Ok(())
}

fn add_option(options: &mut List<Text>, alloc: Global, plugin: &Plugin) -> Result<(), OutOfMemory>
    ensures { OnOk result (options.new ≡ options.old ++ options_added plugin.now) }
{
    if plugin.is_no_auth_v2() {
        return options.push(alloc, Text::from_static(NO_AUTH_SCHEME_ID));
    }
    Ok(())
}

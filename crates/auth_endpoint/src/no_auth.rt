//! Requests that aren't signed.
ghost use Rattle.std.specs.Prelude.{◌≡◌, [], unwrap_or};

use crate::scheme::{AuthScheme, Signed};
use crate::{NO_AUTH_SCHEME_ID, NoAuthSchemeOptionResolver};
use identity_cell::NoAuthIdentityResolver;
use smithy_types::{Endpoint, HttpRequest, Identity, List, OutOfMemory, Text};
use std::alloc::Global;

/// The scheme that signs nothing: it keeps the request as it is.
#[derive(Clone, Copy, Debug, PartialEq, Eq)]
pub struct NoAuthScheme;

impl NoAuthScheme {
    /// The scheme.
    pub fn new() -> NoAuthScheme {
        NoAuthScheme
    }
}

impl Default for NoAuthScheme {
    fn default() -> NoAuthScheme {
        NoAuthScheme::new()
    }
}

impl AuthScheme for NoAuthScheme {
    ghost use Rattle.std.specs.Prelude.{◌≡◌, codes};
    ghost use Rattle.auth_endpoint.specs.declared.scheme.Signed.TheVariants.{Request};

    ghost names = { λ _. codes "noAuth" };

    ghost signs = { λ _ request _ _ signed. signed ≡ Request request };

    fn id(&self) -> &str {
        NO_AUTH_SCHEME_ID
    }

    fn sign(
        &self,
        _alloc: Global,
        request: HttpRequest,
        _identity: &Identity,
        _endpoint: &Endpoint,
    ) -> Result<Signed, OutOfMemory> {
        Ok(Signed::Request(request))
    }
}

/// When a plugin is applied: those of an earlier order come first.
#[derive(Clone, Copy, Debug, PartialEq, Eq)]
pub enum Order {
    /// Before all others.
    Defaults,
    /// Behind the defaults.
    Overrides,
    /// Last. Such a plugin sees what the others gave.
    NestedComponents,
}

/// Registers what a request goes by that isn't signed: the scheme and the resolver of its identity.
/// The options stay as they are.
#[derive(Clone, Copy, Debug, PartialEq, Eq)]
pub struct NoAuthRuntimePlugin;

impl NoAuthRuntimePlugin {
    /// The plugin.
    pub fn new() -> NoAuthRuntimePlugin {
        NoAuthRuntimePlugin
    }

    /// When it is applied.
    pub fn order(&self) -> Order
        ensures { result ≡ Order.Overrides }
    {
        Order::Overrides
    }

    /// The scheme that it registers.
    pub fn auth_scheme(&self) -> NoAuthScheme {
        NoAuthScheme::new()
    }

    /// The resolver that it registers for that scheme.
    pub fn identity_resolver(&self) -> NoAuthIdentityResolver {
        NoAuthIdentityResolver::new()
    }
}

impl Default for NoAuthRuntimePlugin {
    fn default() -> NoAuthRuntimePlugin {
        NoAuthRuntimePlugin::new()
    }
}

/// Registers the same, and adds `noAuth` behind the options.
#[derive(Clone, Copy, Debug, PartialEq, Eq)]
pub struct NoAuthRuntimePluginV2;

impl NoAuthRuntimePluginV2 {
    /// The plugin.
    pub fn new() -> NoAuthRuntimePluginV2 {
        NoAuthRuntimePluginV2
    }

    /// When it is applied: last, so that it sees the options that the others gave.
    pub fn order(&self) -> Order
        ensures { result ≡ Order.NestedComponents }
    {
        Order::NestedComponents
    }

    /// The scheme that it registers.
    pub fn auth_scheme(&self) -> NoAuthScheme {
        NoAuthScheme::new()
    }

    /// The resolver that it registers for that scheme.
    pub fn identity_resolver(&self) -> NoAuthIdentityResolver {
        NoAuthIdentityResolver::new()
    }

    /// The resolver of options in place of one that gives these, if there is one.
    pub fn auth_scheme_option_resolver(
        &self,
        current: Option<List<Text>>,
    ) -> NoAuthSchemeOptionResolver
        ensures { result.inner ≡ unwrap_or current [] }
    {
        match current {
            Some(options) => NoAuthSchemeOptionResolver::new(options),
            None => NoAuthSchemeOptionResolver::new(List::new()),
        }
    }
}

impl Default for NoAuthRuntimePluginV2 {
    fn default() -> NoAuthRuntimePluginV2 {
        NoAuthRuntimePluginV2::new()
    }
}

//! What is applied to a client when it is built.
ghost use Rattle.std.specs.Prelude.{◌≡◌};
ghost use Rattle.std.specs.List.{list_any};
ghost use Rattle.client_builder.specs.Plugins.{draft_of, is_enforcing, is_no_auth};
ghost use Rattle.client_builder.specs.Plugins.{is_no_auth_v2, no_draft};

use smithy_base::ComponentsDraft;
use smithy_context::Layer;

/// A plugin of a client. Those that are registered are applied in their order, and what they give
/// stands over what the builder's own setters gave.
#[derive(Debug, Drop)]
pub enum Plugin {
    /// Gives these settings and these parts.
    Static(Layer, ComponentsDraft),
    /// Registers the scheme that signs nothing, and the resolver of its identity.
    NoAuth,
    /// Registers the same, and adds `noAuth` behind the options.
    NoAuthV2,
    /// Has the length of the response to a `GET` held to its header: its interceptor is the last.
    EnforceContentLength,
}

/// The draft without any part.
pub(crate) fn no_draft() -> ComponentsDraft
    ensures { result ≡ no_draft }
{
    ComponentsDraft {
        sleep: false,
        time: false,
        client: false,
    }
}

impl Plugin {
    /// The parts that it gives.
    pub fn draft(&self) -> ComponentsDraft
        ensures { result ≡ draft_of self.now }
    {
        match self {
            Plugin::Static(_, draft) => *draft,
            Plugin::NoAuth => no_draft(),
            Plugin::NoAuthV2 => no_draft(),
            Plugin::EnforceContentLength => no_draft(),
        }
    }

    /// Whether it registers the scheme that signs nothing.
    pub fn is_no_auth(&self) -> bool
        ensures { result ≡ is_no_auth self.now }
    {
        matches!(self, Plugin::NoAuth | Plugin::NoAuthV2)
    }

    /// Whether it adds `noAuth` behind the options.
    pub fn is_no_auth_v2(&self) -> bool
        ensures { result ≡ is_no_auth_v2 self.now }
    {
        matches!(self, Plugin::NoAuthV2)
    }

    /// Whether it has the length of responses held to their headers.
    pub fn is_enforcing(&self) -> bool
        ensures { result ≡ is_enforcing self.now }
    {
        matches!(self, Plugin::EnforceContentLength)
    }
}

/// Whether one of the plugins gives a sleep.
pub(crate) fn gives_sleep(plugins: &[Plugin]) -> bool
    ensures { result ≡ list_any (λ p. (draft_of p).sleep) plugins.now }
{
    plugins.iter().any(|plugin| plugin.draft().sleep)
}

/// Whether one of the plugins gives a time source.
pub(crate) fn gives_time(plugins: &[Plugin]) -> bool
    ensures { result ≡ list_any (λ p. (draft_of p).time) plugins.now }
{
    plugins.iter().any(|plugin| plugin.draft().time)
}

/// Whether one of the plugins gives an HTTP client.
pub(crate) fn gives_client(plugins: &[Plugin]) -> bool
    ensures { result ≡ list_any (λ p. (draft_of p).client) plugins.now }
{
    plugins.iter().any(|plugin| plugin.draft().client)
}

/// Whether one of the plugins registers the scheme that signs nothing.
pub(crate) fn any_no_auth(plugins: &[Plugin]) -> bool
    ensures { result ≡ list_any is_no_auth plugins.now }
{
    plugins.iter().any(|plugin| plugin.is_no_auth())
}

/// Whether one of the plugins has the length of responses held to their headers.
pub(crate) fn any_enforcing(plugins: &[Plugin]) -> bool
    ensures { result ≡ list_any is_enforcing plugins.now }
{
    plugins.iter().any(|plugin| plugin.is_enforcing())
}

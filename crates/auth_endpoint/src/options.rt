//! Options for requests that may go unsigned, and the mark of the newer order of a run.
ghost use Rattle.std.specs.Prelude.{◌≡◌, ◌++◌, ◌∷◌, [], IfOk, codes};

use crate::NO_AUTH_SCHEME_ID;
use smithy_context::Setting;
use smithy_types::{List, OutOfMemory, Text};
use std::alloc::Global;

/// Gives the options that another resolver gives, and `noAuth` behind them.
#[derive(Debug, Drop)]
pub struct NoAuthSchemeOptionResolver {
    /// The options of the other resolver.
    pub inner: List<Text>,
}

impl NoAuthSchemeOptionResolver {
    /// The resolver over these options.
    pub fn new(inner: List<Text>) -> NoAuthSchemeOptionResolver
        ensures { result.inner ≡ inner }
    {
        NoAuthSchemeOptionResolver { inner }
    }

    /// The options.
    pub fn resolve_auth_scheme_options(&self, alloc: Global) -> Result<List<Text>, OutOfMemory>
        ensures { IfOk result (λ options. options ≡ self.now.inner ++ codes "noAuth" ∷ []) }
    {
        let mut options = self.inner.clone()?;
        options.push(alloc, Text::from_static(NO_AUTH_SCHEME_ID))?;
        Ok(options)
    }
}

/// A mark: the endpoint is resolved after the auth scheme was chosen.
#[derive(Clone, Copy, Debug, PartialEq, Eq)]
pub struct AuthSchemeAndEndpointOrchestrationV2;

impl From<AuthSchemeAndEndpointOrchestrationV2> for Setting {
    ghost use Rattle.std.specs.Prelude.{◌≡◌};
    ghost use Rattle.smithy_context.specs.declared.setting.Setting.TheVariants.{V2};

    ghost from_gives = { λ _ setting. setting ≡ V2 };

    fn from(_mark: AuthSchemeAndEndpointOrchestrationV2) -> Setting {
        Setting::V2
    }
}

//! Choose.
ghost use Rattle.std.specs.Prelude.{◌≡◌, IfOk, OnErr};
ghost use Rattle.client_components.specs.Lacking.{CalledOutside};
ghost use Rattle.client_components.specs.Choosing.{Chooses};

use crate::{ClientTypes, Parts};
use run_grammar::Answer;
use smithy_context::Settings;
use smithy_types::OutOfMemory;
use std::alloc::Global;

impl<T: ClientTypes> Parts<T> {
    /// Chooses an auth scheme, and asks for its identity.
    pub fn choose(&mut self, alloc: Global, settings: &Settings) -> Result<Answer, OutOfMemory>
        ensures ok { IfOk result (λ a. Chooses T.Outside.makes T.Scheme.names T.Resolver.polls
            self.old settings.now a self.new) }
        ensures err { OnErr result (CalledOutside T.Outside.makes self.old self.new
            × (self.new ≡ record self.old {
              identities = self.new.identities;
              outside = self.new.outside;
            })) }
    {
        self.identities.choose(
            alloc,
            &self.given.options,
            self.given.schemes.as_slice(),
            &self.given.endpoint,
            self.given.time_source,
            &mut self.outside,
            settings,
        )
    }
}

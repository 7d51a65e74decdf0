//! The auth options that were refused, each with what it lacks.
ghost use Rattle.std.specs.Prelude.{◌≡◌, ◌++◌, ◌∷◌, [], OnErr, OnOk};
ghost use Rattle.auth_endpoint.specs.Choice.{KeepsFirst};

use smithy_types::{List, OutOfMemory, Text};
use std::alloc::Global;

/// The id of the scheme that signs nothing.
pub const NO_AUTH_SCHEME_ID: &str = "noAuth";

/// How many refused options an error tells of.
const MAX_EXPLORED: usize = 7;

/// The first thing that an auth option lacks.
#[derive(Clone, Copy, Debug, PartialEq, Eq)]
pub enum ExploreResult {
    /// No scheme of its id is registered.
    NoAuthScheme,
    /// Nothing resolves an identity for it.
    NoIdentityResolver,
    /// The endpoint lists its schemes, and this one isn't among them.
    MissingEndpointConfig,
}

/// An auth option that was refused.
#[derive(Debug, Drop)]
pub struct ExploredAuthOption {
    /// The id of its scheme.
    pub scheme_id: Text,
    /// The first thing that it lacks.
    pub result: ExploreResult,
}

/// The first refused options, in the order in which they were looked at. Seven are kept.
#[derive(Debug, Drop)]
pub struct ExploredList {
    /// What is kept.
    pub items: List<ExploredAuthOption>,
    /// Whether more were refused than are kept.
    pub truncated: bool,
}

impl ExploredList {
    /// The list of no refused option. It takes no memory.
    pub fn new() -> ExploredList
        ensures { KeepsFirst [] result }
    {
        ExploredList {
            items: List::new(),
            truncated: false,
        }
    }

    /// Notes one refused option more. After an `Err` the list is as it was.
    pub fn push(
        &mut self,
        alloc: Global,
        scheme_id: &Text,
        lack: ExploreResult,
    ) -> Result<(), OutOfMemory>
        ensures noted { OnOk result ((all : _) → KeepsFirst all self.old
            → KeepsFirst
            (all ++ record { scheme_id = scheme_id.now; result = lack } ∷ []) self.new) }
        ensures err { OnErr result (self.new ≡ self.old) }
    {
        if self.items.len() < MAX_EXPLORED {
            let scheme_id = scheme_id.clone()?;
            self.items.push(
                alloc,
                ExploredAuthOption {
                    scheme_id,
                    result: lack,
                },
            )?;
        } else {
            self.truncated = true;
        }
        Ok(())
    }
}

/// Why no auth option was chosen.
#[derive(Debug, Drop)]
pub enum NoMatchingAuthSchemeError {
    /// Each option lacks something.
    Explored(ExploredList),
    /// An allocation was refused.
    OutOfMemory,
}

impl From<OutOfMemory> for NoMatchingAuthSchemeError {
    ghost use Rattle.auth_endpoint.specs.declared.explored.NoMatchingAuthSchemeError.TheVariants as refusal;

    ghost from_gives = { λ _ e. e ≡ refusal.OutOfMemory };

    fn from(_error: OutOfMemory) -> NoMatchingAuthSchemeError {
        NoMatchingAuthSchemeError::OutOfMemory
    }
}

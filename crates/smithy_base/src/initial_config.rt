//! The configuration that an operation's own stands over.

use crate::components::ComponentsDraft;
use smithy_context::FrozenLayer;

/// The client's configuration, below that of an operation.
#[derive(Drop)]
pub struct InitialConfig {
    /// The settings.
    pub config: FrozenLayer,
    /// The parts that were given.
    pub components: ComponentsDraft,
}

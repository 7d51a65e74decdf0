//! What a look into a cache of identities comes to.

use smithy_types::Identity;

/// What a look into a scheme's cell answers.
#[derive(Drop)]
pub enum Looked {
    /// A copy of the identity, which hasn't expired.
    Hit(Identity),
    /// There is none, and a load was begun under this ticket.
    Load(u64),
    /// A load is open.
    NotYet,
}

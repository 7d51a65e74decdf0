//! An open load of an identity.

use crate::SchemeId;

/// An open load of a scheme's identity.
#[derive(Drop)]
pub struct IdentityLoad {
    /// The scheme.
    pub id: SchemeId,
    /// Its ticket in the scheme's cell.
    pub ticket: u64,
    /// When it was first asked for, in nanoseconds.
    pub asked_at: u64,
    /// How long it may take, in nanoseconds.
    pub timeout: u64,
    /// The number of the sleep for so long, where there are sleeps.
    pub sleep: Option<u64>,
}

//! The load of an identity that is open.
ghost use Rattle.std.specs.Prelude.{◌≡◌, ◌<◌, ◌==◌, length, position, IfSome, IfOk, Ok, Option};
ghost use Rattle.outside_scripted.specs.Loads.{due_at, due_of, has_id};

use crate::records::IdentityRecord;

/// The load of an identity.
#[derive(Clone, Copy, Debug)]
pub struct OpenLoad {
    /// The place of its source among the client's.
    pub source: usize,
    /// When it is over.
    pub due: u64,
}

/// When the open load is over.
pub fn due_at(load: Option<OpenLoad>) -> Option<u64>
    ensures { result ≡ due_at load }
{
    match load {
        Some(load) => Some(load.due),
        None => None,
    }
}

/// When the load of this source is over: the open load's, if it is of that source, else that of
/// one that is opened now.
pub fn due_of(load: Option<OpenLoad>, source: usize, opened: u64) -> u64
    ensures { result ≡ due_of load source opened }
{
    match load {
        Some(load) => {
            if load.source == source {
                load.due
            } else {
                opened
            }
        }
        None => opened,
    }
}

/// The place of the first source of this auth scheme.
pub fn place_of(identities: &[IdentityRecord], id: &str) -> Option<usize>
    ensures place { result ≡ position (has_id id.now) identities.now }
    ensures bound { IfSome result (λ i. i < length identities.now) }
{
    identities
        .iter()
        .position(|record| record.id.as_str() == id)
}

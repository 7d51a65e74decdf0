//! The load of an identity that is open.
ghost use Rattle.std.specs.Prelude.{◌≡◌, IfOk};
ghost use Rattle.outside_hosted.specs.Load.{load_has_news, opened_load, with_answer};

use crate::events::HostIdentity;
use smithy_types::{OutOfMemory, Text};
use std::alloc::Global;

/// The load that is open.
#[derive(Drop)]
pub struct HostLoad {
    /// Of which auth scheme.
    pub id: Text,
    /// Whether the host was told.
    pub is_told: bool,
    /// What came of it.
    pub answer: Option<HostIdentity>,
}

impl HostLoad {
    /// A load of this scheme that nobody was told of.
    pub fn open(alloc: Global, id: &str) -> Result<HostLoad, OutOfMemory>
        ensures { IfOk result (λ load. load ≡ opened_load id.now) }
    {
        Ok(HostLoad {
            id: Text::from_str(alloc, id)?,
            is_told: false,
            answer: None,
        })
    }
}

/// The load with what came of it. That is let go where it is of another scheme, or something came
/// before.
pub fn with_answer(id: &Text, come: HostIdentity, load: Option<HostLoad>) -> Option<HostLoad>
    ensures { result ≡ with_answer id.now come load }
{
    match load {
        Some(load) => {
            if load.id.as_str() != id.as_str() {
                return Some(load);
            }
            let HostLoad {
                id,
                is_told,
                answer,
            } = load;
            Some(HostLoad {
                id,
                is_told,
                answer: Some(answer.unwrap_or(come)),
            })
        }
        None => None,
    }
}

/// Whether something came that wasn't asked for yet.
pub fn has_news(load: &Option<HostLoad>) -> bool
    ensures { result ≡ load_has_news load.now }
{
    match load {
        Some(load) => load.answer.is_some(),
        None => false,
    }
}

//! The id of an auth scheme, by which its identities are kept.
ghost use Rattle.std.specs.Prelude.{◌≡◌, nat_eq};
ghost use Rattle.std.specs.Cmp.{partial_equiv_from_equiv};
ghost use Rattle.std.specs.Cmp.Lexicographic.{pointwise, nat_list_eq_equiv};
ghost use Rattle.std.specs.Cmp.Rules.{hashing};
ghost use Rattle.std.specs.Hash as fed;
ghost use Rattle.std.proofs.Common.{rules};

use smithy_types::Text;
use std::alloc::AllocError;
use std::hash::{Hash, Hasher};
use std::marker::Model;

/// The id of an auth scheme, such as `noAuth`.
#[derive(Debug, Drop)]
pub struct SchemeId {
    id: Text,
}

impl Model for SchemeId {
    ghost use Rattle.std.specs.Prelude.{List, ℕ};

    ghost Value = { List ℕ };

    ghost view = { λ s. s.id };
}

impl SchemeId {
    /// The scheme of this id.
    pub fn new(id: Text) -> SchemeId
        ensures { result ≡ id }
    {
        SchemeId { id }
    }
}

impl Clone for SchemeId {
    ghost is_clone = { λ s copy. copy ≡ s };

    fn clone(&self) -> Result<SchemeId, AllocError> {
        Ok(SchemeId {
            id: self.id.clone()?,
        })
    }
}

impl PartialEq for SchemeId {
    ghost eq = { pointwise nat_eq };

    ghost laws = { partial_equiv_from_equiv nat_list_eq_equiv };

    fn eq(&self, other: &SchemeId) -> bool {
        self.id == other.id
    }
}

impl Eq for SchemeId {
    ghost laws = { nat_list_eq_equiv };
}

impl Hash for SchemeId {
    ghost hash_input = { λ s. fed.str s };

    ghost respects_eq = { Prim.search (hashing, rules) };

    fn hash<H: Hasher>(&self, state: &mut H) {
        self.id.as_str().hash(state);
    }
}

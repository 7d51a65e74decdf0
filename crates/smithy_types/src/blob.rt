//! Bytes that are shared.
ghost use Rattle.std.specs.Prelude.{◌≡◌, [], length, ◌==◌, IfOk, nat_eq};
ghost use Rattle.std.specs.Cmp.{partial_equiv_from_equiv};
ghost use Rattle.std.specs.Cmp.Lexicographic.{pointwise, nat_list_eq_equiv};

use crate::OutOfMemory;
use arrayvec::ArrayVec;
use bytes::Bytes;
use std::alloc::{AllocError, Global};
use std::fmt;
use std::marker::Model;

/// The most bytes that stand in a blob itself.
const FEW: usize = 24;

/// Bytes that never change. A copy costs the same however long they are: a few stand in the blob
/// itself and take no memory, and all others are shared.
pub struct Blob {
    bytes: Content,
}

// Written out, so that a drop is one call wherever a blob is dropped.
impl Drop for Blob {
    fn drop(self) {
        let Blob { bytes: _ } = self;
    }
}

// Few bytes, or shared ones.
#[derive(Drop)]
enum Content {
    Few(ArrayVec<u8, FEW>),
    Shared(Bytes),
}

impl Model for Blob {
    ghost use Rattle.std.specs.Prelude.{List, ℕ};

    ghost Value = { List ℕ };

    ghost use Rattle.smithy_types.specs.Content.{bytes_of};

    ghost view = { λ b. bytes_of b.bytes };
}

impl Blob {
    /// No bytes. It takes no memory.
    pub fn new() -> Blob
        ensures { result ≡ [] }
    {
        Blob {
            bytes: Content::Few(ArrayVec::new()),
        }
    }

    /// A copy of these bytes.
    pub fn from_slice(alloc: Global, bytes: &[u8]) -> Result<Blob, OutOfMemory>
        ensures { IfOk result (λ b. b ≡ bytes.now) }
    {
        let bytes = match ArrayVec::try_from(bytes) {
            Ok(few) => Content::Few(few),
            Err(_) => Content::Shared(Bytes::copy_from_slice(alloc, bytes)?),
        };
        Ok(Blob { bytes })
    }

    /// These bytes, which are moved and not copied.
    pub fn from_vec(bytes: Vec<u8>) -> Result<Blob, OutOfMemory>
        ensures { IfOk result (λ b. b ≡ bytes.items) }
    {
        Ok(Blob {
            bytes: Content::Shared(Bytes::from_vec(bytes)?),
        })
    }

    /// The bytes.
    pub fn as_slice(&self) -> &[u8]
        ensures { result.now ≡ self.now }
    {
        match &self.bytes {
            Content::Few(few) => few.as_slice(),
            Content::Shared(shared) => shared.as_slice(),
        }
    }

    /// How many bytes there are.
    pub fn len(&self) -> usize
        ensures { result ≡ length self.now }
    {
        self.as_slice().len()
    }

    /// Whether there is none.
    pub fn is_empty(&self) -> bool
        ensures { result ≡ (length self.now == 0) }
    {
        self.as_slice().is_empty()
    }
}

impl Clone for Blob {
    ghost is_clone = { λ b copy. copy ≡ b };

    fn clone(&self) -> Result<Blob, AllocError> {
        let bytes = match &self.bytes {
            Content::Few(few) => Content::Few(few.clone()?),
            Content::Shared(shared) => Content::Shared(shared.clone()?),
        };
        Ok(Blob { bytes })
    }
}

impl PartialEq for Blob {
    ghost eq = { pointwise nat_eq };

    ghost laws = { partial_equiv_from_equiv nat_list_eq_equiv };

    fn eq(&self, other: &Blob) -> bool {
        self.as_slice() == other.as_slice()
    }
}

impl Eq for Blob {
    ghost laws = { nat_list_eq_equiv };
}

impl fmt::Debug for Blob {
    fn fmt<W: fmt::Write>(&self, f: &mut fmt::Formatter<W>) -> fmt::Result {
        fmt::Debug::fmt(self.as_slice(), f)
    }
}

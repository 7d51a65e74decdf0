//! Values of the caller's as the engine carries them.
ghost use Rattle.std.specs.Prelude.{◌≡◌};

use crate::Blob;
use std::alloc::AllocError;

/// A value of the caller's as the engine carries it: which type it is of, and its bytes.
#[derive(Debug, Drop, PartialEq, Eq)]
pub struct Payload {
    /// Which type of value this is. The numbers are the caller's.
    pub kind: u32,
    /// The value's bytes.
    pub bytes: Blob,
}

impl Clone for Payload {
    ghost is_clone = { λ payload copy. copy ≡ payload };

    fn clone(&self) -> Result<Payload, AllocError> {
        Ok(Payload {
            kind: self.kind,
            bytes: self.bytes.clone()?,
        })
    }
}

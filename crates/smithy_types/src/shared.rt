//! Values that are shared, also among threads.
ghost use Rattle.std.specs.Prelude.{◌≡◌, IfOk};

use crate::OutOfMemory;
use std::alloc::{AllocError, Global};
use std::fmt;
use std::marker::Model;
use std::sync::Arc;

/// A value that is shared and never changes: a copy of the handle costs the same however large the
/// value is.
#[derive(Drop)]
pub struct Shared<T> {
    held: Arc<T>,
}

impl<T> Model for Shared<T> {
    ghost Value = { T };

    ghost view = { λ s. s.held.value };
}

impl<T: Drop> Shared<T> {
    /// Takes the value in.
    pub fn new(alloc: Global, value: T) -> Result<Shared<T>, OutOfMemory>
        ensures { IfOk result (λ s. s ≡ value) }
    {
        Ok(Shared {
            held: Arc::new(alloc, value)?,
        })
    }

    /// The value.
    pub fn get(&self) -> &T
        ensures { result.now ≡ self.now }
    {
        Arc::as_ref(&self.held)
    }
}

impl<T: Drop> Clone for Shared<T> {
    ghost is_clone = { λ s copy. copy ≡ s };

    fn clone(&self) -> Result<Shared<T>, AllocError> {
        Ok(Shared {
            held: self.held.clone()?,
        })
    }
}

impl<T: fmt::Debug + Drop> fmt::Debug for Shared<T> {
    fn fmt<W: fmt::Write>(&self, f: &mut fmt::Formatter<W>) -> fmt::Result {
        self.get().fmt(f)
    }
}

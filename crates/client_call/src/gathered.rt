//! The bytes of a body as they come.
ghost use Rattle.std.specs.Prelude.{◌≡◌, [], ◌++◌, length, IfOk, OnOk, OnErr};

use smithy_types::{Blob, OutOfMemory};
use std::alloc::Global;
use std::marker::Model;

/// The bytes that came so far, each of which is copied once.
#[derive(Drop)]
pub struct Gathered {
    bytes: Vec<u8>,
}

impl Model for Gathered {
    ghost use Rattle.std.specs.Prelude.{List, ℕ};

    ghost Value = { List ℕ };

    ghost view = { λ g. g.bytes.items };
}

impl Gathered {
    /// No bytes. It takes no memory.
    pub fn new(alloc: Global) -> Gathered
        ensures { result ≡ [] }
    {
        Gathered {
            bytes: Vec::new(alloc),
        }
    }

    /// How many bytes there are.
    pub fn len(&self) -> usize
        ensures { result ≡ length self.now }
    {
        self.bytes.len()
    }

    /// These bytes come behind those that are here.
    pub fn push(&mut self, more: &[u8]) -> Result<(), OutOfMemory>
        ensures ok { OnOk result (self.new ≡ self.old ++ more.now) }
        ensures err { OnErr result (self.new ≡ self.old) }
    {
        self.bytes.extend_from_slice(more)?;
        Ok(())
    }

    /// The bytes, which are moved and not copied.
    pub fn into_blob(self) -> Result<Blob, OutOfMemory>
        ensures { IfOk result (λ blob. blob ≡ self) }
    {
        Blob::from_vec(self.bytes)
    }
}

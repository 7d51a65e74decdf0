//! What a poll of a body answers.
ghost use Rattle.std.specs.Prelude.{◌≡◌};
ghost use Rattle.smithy_types.specs.Frames.{ends, data_len};

use crate::{Blob, Fault};

/// What a poll of a body answers.
#[derive(Debug)]
pub enum Polled {
    /// Nothing yet.
    Pending,
    /// The next bytes, be it none.
    Data(Blob),
    /// The trailers, which aren't read.
    Trailers,
    /// There is nothing more.
    End,
    /// The body can't be read on.
    Failed(Fault),
}

// Written out, so that a drop is one call wherever an answer is dropped.
impl Drop for Polled {
    fn drop(self) {
        match self {
            Polled::Pending => {}
            Polled::Data(_) => {}
            Polled::Trailers => {}
            Polled::End => {}
            Polled::Failed(_) => {}
        }
    }
}

impl Polled {
    /// Whether the body is over with this, well or not.
    pub fn ends(&self) -> bool
        ensures { result ≡ ends self.now }
    {
        matches!(self, Polled::End | Polled::Failed(_))
    }

    /// How many bytes of data there are.
    pub fn data_len(&self) -> u64
        ensures { result ≡ data_len self.now }
    {
        match self {
            Polled::Data(bytes) => bytes.len() as u64,
            _ => 0,
        }
    }
}

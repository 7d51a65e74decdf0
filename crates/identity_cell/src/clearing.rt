//! What a caller remembers that asks for an unexpired value.
ghost use Rattle.std.specs.Prelude.{◌≡◌, false, true};

use std::marker::Model;

/// What one caller of `clear` remembers from call to call: whether it was ever told to wait.
#[derive(Drop)]
pub struct Clearing {
    waited: bool,
}

impl Model for Clearing {
    ghost use Rattle.std.specs.Prelude.{Bool};

    ghost Value = { Bool };

    ghost view = { λ c. c.waited };
}

impl Clearing {
    /// A caller that has not asked yet.
    pub fn new() -> Clearing
        ensures { result ≡ false }
    {
        Clearing { waited: false }
    }

    /// Whether the caller was ever told to wait.
    pub fn has_waited(&self) -> bool
        ensures { result ≡ self.now }
    {
        self.waited
    }

    /// Remembers that the caller was told to wait.
    pub(crate) fn wait(&mut self)
        ensures { self.new ≡ true }
    {
        self.waited = true;
    }
}

//! The sleeps that are open.
ghost use Rattle.std.specs.Prelude.{◌≡◌, ◌==◌, [], ◌∷◌, ◌++◌, OnOk, OnErr, position};
ghost use Rattle.outside_scripted.specs.Sleeps.{without};

use smithy_types::OutOfMemory;
use std::alloc::Global;
use std::marker::Model;

/// The sleeps that are open, the latest last. A sleep's number is the moment at which it is over,
/// so two sleeps may have one number.
#[derive(Debug, Drop)]
pub struct Sleeps {
    numbers: Vec<u64>,
}

impl Model for Sleeps {
    ghost use Rattle.std.specs.Prelude.{List, ℕ};

    ghost Value = { List ℕ };

    ghost view = { λ s. s.numbers.items };
}

impl Sleeps {
    /// No sleep is open.
    pub fn new(alloc: Global) -> Sleeps
        ensures { result ≡ [] }
    {
        Sleeps {
            numbers: Vec::new(alloc),
        }
    }

    /// Opens a sleep that is over at this moment.
    pub fn open(&mut self, due: u64) -> Result<(), OutOfMemory>
        ensures ok { OnOk result (self.new ≡ self.old ++ due ∷ []) }
        ensures err { OnErr result (self.new ≡ self.old) }
    {
        self.numbers.push(due)?;
        Ok(())
    }

    /// Closes one sleep of this number, the first of them. Nothing changes where there is none.
    pub fn close(&mut self, sleep: u64)
        ensures { self.new ≡ without sleep self.old }
    {
        if let Some(place) = place_of(&self.numbers, sleep) {
            self.numbers.remove(place);
        }
    }

    /// Closes all of them.
    pub fn close_all(&mut self)
        ensures { self.new ≡ [] }
    {
        self.numbers.clear();
    }

    /// The numbers.
    pub fn as_slice(&self) -> &[u64]
        ensures { result.now ≡ self.now }
    {
        self.numbers.as_slice()
    }
}

// The place of the first sleep of this number.
fn place_of(numbers: &[u64], sleep: u64) -> Option<usize>
    ensures { result ≡ position (λ s. s == sleep) numbers.now }
{
    numbers.iter().position(|s| *s == sleep)
}

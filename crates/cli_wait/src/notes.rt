//! What was noted of a waiter.
ghost use Rattle.std.specs.Prelude.{◌≡◌, ◌-◌, [], ◌∷◌, ◌++◌, length, take, OnOk, OnErr};

use smithy_types::OutOfMemory;
use std::alloc::Global;
use std::marker::Model;

/// A poll that was answered, or a sleep that was started.
#[derive(Clone, Copy, Debug, PartialEq, Eq)]
pub enum Note {
    /// A poll was answered.
    Poll {
        /// The number of the poll, from 1 on.
        number: u32,
        /// When it was answered, in nanoseconds.
        moment: u64,
    },
    /// A sleep was started.
    Sleep {
        /// How long.
        nanos: u64,
    },
}

/// The notes, the first one first.
#[derive(Debug, Drop)]
pub struct Notes {
    notes: Vec<Note>,
}

impl Model for Notes {
    ghost use Rattle.std.specs.Prelude.{List};
    ghost use Rattle.cli_wait.specs.declared.notes.Note.{Note};

    ghost Value = { List Note };

    ghost view = { λ n. n.notes.items };
}

impl Notes {
    /// No notes.
    pub fn new(alloc: Global) -> Notes
        ensures { result ≡ [] }
    {
        Notes {
            notes: Vec::new(alloc),
        }
    }

    /// Adds a note at the end.
    pub fn push(&mut self, note: Note) -> Result<(), OutOfMemory>
        ensures ok { OnOk result (self.new ≡ self.old ++ note ∷ []) }
        ensures err { OnErr result (self.new ≡ self.old) }
    {
        self.notes.push(note)?;
        Ok(())
    }

    /// Takes the last note back.
    pub fn take_back(&mut self)
        ensures { self.new ≡ take (length self.old - 1) self.old }
    {
        self.notes.pop();
    }

    /// The notes.
    pub fn as_slice(&self) -> &[Note]
        ensures { result.now ≡ self.now }
    {
        self.notes.as_slice()
    }
}

//! The events of a cell.
ghost use Rattle.std.specs.Prelude.{◌≡◌, [], ◌∷◌, ◌++◌, ◌+◌, ◌<◌, ◌≤◌, OnOk, OnErr};

use crate::Event;
use smithy_types::{OutOfMemory, ReservedList};
use std::alloc::Global;
use std::marker::Model;

/// The events of a cell in their order, all of them, and room for more.
#[derive(Drop)]
pub struct EventLog {
    events: ReservedList<Event>,
    begun: u64,
}

impl Model for EventLog {
    ghost use Rattle.identity_cell.specs.Log.{Log, log_of, CountsBegins};

    ghost Value = { Log };

    ghost view = { λ l. log_of l.events };

    ghost invariant = { λ l. CountsBegins (log_of l.events) l.begun };
}

impl EventLog {
    ghost use Rattle.identity_cell.specs.History.{begun_in};
    ghost use Rattle.identity_cell.specs.Log.{no_events};

    /// No event, and no room. It takes no memory.
    pub fn new() -> EventLog
        ensures { result ≡ no_events }
    {
        EventLog {
            events: ReservedList::new(),
            begun: 0,
        }
    }

    /// Makes sure that there is room for so many events more.
    pub(crate) fn reserve(&mut self, alloc: Global, count: usize) -> Result<(), OutOfMemory>
        ensures events { self.new.events ≡ self.old.events }
        ensures ok { OnOk result (count ≤ self.new.room) }
        ensures err { OnErr result (self.new.room ≡ self.old.room) }
    {
        self.events.reserve(alloc, count)
    }

    /// Adds an event at the end. There is room for it, so this takes no memory.
    pub(crate) fn push(&mut self, event: Event)
        requires { 0 < self.old.room }
        ensures events { self.new.events ≡ self.old.events ++ event ∷ [] }
        ensures room { self.new.room + 1 ≡ self.old.room }
    {
        self.events.push_reserved(event);
        // No more loads were begun than there are events, so the count doesn't wrap.
        let _count = self.events.len();
        self.begun += event.loads_begun();
    }

    /// How many loads were begun.
    pub fn begun(&self) -> u64
        ensures { result ≡ begun_in self.now.events }
    {
        self.begun
    }

    /// The events.
    pub fn as_slice(&self) -> &[Event]
        ensures { result.now ≡ self.now.events }
    {
        self.events.as_slice()
    }
}

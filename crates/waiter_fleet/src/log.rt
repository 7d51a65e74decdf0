//! What a fleet has done so far.

ghost use Rattle.std.specs.Prelude.{◌≡◌, ◌++◌, [], ◌∷◌, OnOk};

use crate::event::FleetEvent;
use smithy_types::OutOfMemory;

/// What a fleet has done so far, and what it may still spend.
#[derive(Drop)]
pub(crate) struct Log {
    /// Its events, in their order.
    pub events: Vec<FleetEvent>,
    /// How many polls and asks of a sleep may still be made.
    pub fuel: u64,
}

impl Log {
    /// Adds what happened.
    pub fn add(&mut self, event: FleetEvent) -> Result<(), OutOfMemory>
        ensures added { OnOk result (self.new.events.items ≡ self.old.events.items ++ event ∷ []) }
        ensures same_fuel { self.new.fuel ≡ self.old.fuel }
    {
        self.events.push(event)?;
        Ok(())
    }
}

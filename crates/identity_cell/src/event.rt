//! What happens to a cell.
ghost use Rattle.std.specs.Prelude.{◌≡◌};

/// How a caller that asked for an unexpired value was answered.
#[derive(Clone, Copy, Debug, PartialEq, Eq)]
pub enum ClearReply {
    /// With the value, which the cell keeps.
    Kept,
    /// With nothing.
    None,
    /// With the word that a load is open.
    NotYet,
}

/// What happened to a cell. A ticket is the number of the loads that were begun before it.
#[derive(Clone, Copy, Debug, PartialEq, Eq)]
pub enum Event {
    /// A load of this ticket was begun.
    Begin(u64),
    /// The value that the load of this ticket stored was answered.
    Hit(u64),
    /// A caller was told to wait for the open load.
    Wait,
    /// The load of this ticket stored a value that expires at this moment, in ns.
    Done(u64, u64),
    /// The load of this ticket failed.
    Failed(u64),
    /// The load of this ticket was dropped.
    Dropped(u64),
    /// A caller asked at a moment in ns, had or had not waited for a load before, and was answered
    /// so.
    Clear(u64, bool, ClearReply),
}

impl Event {
    ghost use Rattle.identity_cell.specs.History.{begins};

    /// How many loads the event begins: one, or none.
    pub(crate) fn loads_begun(self) -> u64
        ensures { result ≡ begins self }
    {
        match self {
            Event::Begin(_) => 1,
            _ => 0,
        }
    }
}

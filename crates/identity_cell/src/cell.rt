//! The core of the identity cache: one value, which one caller at a time loads.
ghost use Rattle.std.specs.Prelude.{◌≡◌, ◌+◌, ◌<◌, ◌≤◌, ◌||◌, MatchBool, IfOk, OnOk, OnErr};

use crate::{ClearReply, Clearing, Event, EventLog};
use smithy_types::OutOfMemory;
use std::alloc::Global;
use std::marker::Model;

/// What `CellCore::begin` answers.
#[derive(Drop)]
pub enum Begin<T> {
    /// A copy of the value in the cell, whether or not it has expired.
    Value(T),
    /// The caller is to load, under this ticket.
    Load(u64),
    /// Another caller loads.
    NotYet,
}

/// What `CellCore::clear` answers.
#[derive(Drop)]
pub enum Cleared<T> {
    /// A copy of the value in the cell, which hasn't expired.
    Value(T),
    /// There is no value for this caller.
    None,
    /// A caller loads.
    NotYet,
}

/// What a cell holds.
#[derive(Drop)]
pub enum CellState<T> {
    /// Nothing, and no load is open.
    Empty,
    /// The load of this ticket is open.
    Loading(u64),
    /// The value that the load of a ticket stored, and the moment in ns at which it expires.
    Full(u64, T, u64),
}

/// A cell for one value that is loaded when it is asked for, by one caller at a time, with all
/// events that ever happened to it.
#[derive(Drop)]
pub struct CellCore<T> {
    buffer: u64,
    state: CellState<T>,
    log: EventLog,
}

impl<T> Model for CellCore<T> {
    ghost use Rattle.identity_cell.specs.Cell.{Cell, cell_of, HoldsOf};

    ghost Value = { Cell T };

    ghost view = { λ c. cell_of c.buffer c.state c.log };

    ghost invariant = { λ c. HoldsOf (cell_of c.buffer c.state c.log) c.log.room };
}

/// Whether a value counts as expired: from the buffer before its expiry on.
fn is_expired(expiry: u64, buffer: u64, now: u64) -> bool
    ensures { MatchBool result (expiry ≤ now + buffer) (now + buffer < expiry) }
{
    u128::from(now) + u128::from(buffer) >= u128::from(expiry)
}

impl<T: Clone + Drop> CellCore<T> {
    ghost use Rattle.identity_cell.specs.History.{begun_in};
    ghost use Rattle.identity_cell.specs.Cell.{empty_cell, IsReplayed, after_begin, AnswersBegin};
    ghost use Rattle.identity_cell.specs.Cell.{after_end, after_clear, reply_in, AnswersClear};
    ghost use Rattle.identity_cell.specs.Cell.{is_not_yet, is_open};

    /// An empty cell to which nothing happened yet. A value counts as expired from so many ns
    /// before its expiry on. It takes no memory.
    pub fn new(buffer: u64) -> CellCore<T>
        ensures { result ≡ empty_cell buffer }
    {
        CellCore {
            buffer,
            state: CellState::Empty,
            log: EventLog::new(),
        }
    }

    /// Asks for the value. An empty cell has the caller load it, a full one gives a copy of what it
    /// has without a look at the expiry. An `Err` leaves the cell as it was.
    pub fn begin(&mut self, alloc: Global) -> Result<Begin<T>, OutOfMemory>
        ensures event { OnOk result (self.new ≡ after_begin self.old) }
        ensures answer { IfOk result
            (AnswersBegin T.is_clone self.old.state (begun_in self.old.events)) }
        ensures err { OnErr result (self.new ≡ self.old) }
    {
        match &self.state {
            CellState::Empty => {
                self.log.reserve(alloc, 2)?;
                let ticket = self.log.begun();
                self.log.push(Event::Begin(ticket));
                self.state = CellState::Loading(ticket);
                Ok(Begin::Load(ticket))
            }
            CellState::Loading(_) => {
                self.log.reserve(alloc, 2)?;
                self.log.push(Event::Wait);
                Ok(Begin::NotYet)
            }
            CellState::Full(ticket, value, _) => {
                let copy = value.clone()?;
                let event = Event::Hit(*ticket);
                self.log.reserve(alloc, 1)?;
                self.log.push(event);
                Ok(Begin::Value(copy))
            }
        }
    }

    /// The load of this ticket gave this value, which expires at this moment in ns. Where that load
    /// isn't open, nothing changes.
    pub fn done(&mut self, ticket: u64, value: T, expiry: u64)
        ensures { self.new ≡ after_end self.old ticket (CellState.Full ticket value expiry)
            (Event.Done ticket expiry) }
    {
        if self.is_open(ticket) {
            self.log.push(Event::Done(ticket, expiry));
            self.state = CellState::Full(ticket, value, expiry);
        }
    }

    /// The load of this ticket failed. Where that load isn't open, nothing changes.
    pub fn failed(&mut self, ticket: u64)
        ensures { self.new ≡ after_end self.old ticket CellState.Empty (Event.Failed ticket) }
    {
        if self.is_open(ticket) {
            self.log.push(Event::Failed(ticket));
            self.state = CellState::Empty;
        }
    }

    /// The caller that loads under this ticket gives up. Where that load isn't open, nothing
    /// changes.
    pub fn abandon(&mut self, ticket: u64)
        ensures { self.new ≡ after_end self.old ticket CellState.Empty (Event.Dropped ticket) }
    {
        if self.is_open(ticket) {
            self.log.push(Event::Dropped(ticket));
            self.state = CellState::Empty;
        }
    }

    /// Asks for the value at a moment in ns, where it hasn't expired. An expired value is removed.
    /// A caller that was ever told to wait gets no value any more, and the cell keeps it. An `Err`
    /// leaves the cell and the caller as they were.
    pub fn clear(
        &mut self,
        alloc: Global,
        now: u64,
        state: &mut Clearing,
    ) -> Result<Cleared<T>, OutOfMemory>
        ensures event { OnOk result (self.new ≡ after_clear self.old now state.old) }
        ensures answer { IfOk result
            (AnswersClear T.is_clone self.old.state
            (reply_in self.old.buffer self.old.state now state.old)) }
        ensures waited { OnOk result
            (state.new ≡ (state.old || is_not_yet
            (reply_in self.old.buffer self.old.state now state.old))) }
        ensures err { OnErr result ((self.new ≡ self.old) × (state.new ≡ state.old)) }
    {
        let waited = state.has_waited();
        match &self.state {
            CellState::Empty => {
                self.log.reserve(alloc, 1)?;
                self.log.push(Event::Clear(now, waited, ClearReply::None));
                Ok(Cleared::None)
            }
            CellState::Loading(_) => {
                self.log.reserve(alloc, 2)?;
                self.log.push(Event::Clear(now, waited, ClearReply::NotYet));
                state.wait();
                Ok(Cleared::NotYet)
            }
            CellState::Full(_, value, expiry) => {
                if is_expired(*expiry, self.buffer, now) {
                    self.log.reserve(alloc, 1)?;
                    self.log.push(Event::Clear(now, waited, ClearReply::None));
                    self.state = CellState::Empty;
                    Ok(Cleared::None)
                } else if waited {
                    self.log.reserve(alloc, 1)?;
                    self.log.push(Event::Clear(now, waited, ClearReply::None));
                    Ok(Cleared::None)
                } else {
                    let copy = value.clone()?;
                    self.log.reserve(alloc, 1)?;
                    self.log.push(Event::Clear(now, waited, ClearReply::Kept));
                    Ok(Cleared::Value(copy))
                }
            }
        }
    }

    /// All that happened to the cell, in its order. It is a legal history, and the cell stands
    /// where it leads.
    pub fn events(&self) -> &[Event]
        ensures events { result.now ≡ self.now.events }
        ensures legal { IsReplayed self.now }
    {
        self.log.as_slice()
    }

    /// How many loads were begun in the cell.
    pub fn loads(&self) -> u64
        ensures { result ≡ begun_in self.now.events }
    {
        self.log.begun()
    }

    /// Whether the load of this ticket is open.
    pub fn is_open(&self, ticket: u64) -> bool
        ensures { result ≡ is_open self.now.state ticket }
    {
        match &self.state {
            CellState::Loading(open) => ticket == *open,
            _ => false,
        }
    }
}

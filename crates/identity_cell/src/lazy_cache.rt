//! A cache of identities, asked in the steps of a choice: look the identity up, start the sleep of
//! a load, and keep, fail, time out or abandon what is loaded.
ghost use Rattle.std.specs.Prelude.{
  ◌≡◌,
  ◌⊎◌,
  ◌↔◌,
  [],
  if◌then◌else◌,
  false,
  true,
  is_some,
  None,
  IfOk,
  IfErr,
  IfSome,
  IsSome,
  IsTrue,
  OnOk,
  OnErr,
};
ghost use Rattle.std.specs.Map.{lookup};
ghost use Rattle.identity_cell.specs.Cell.{after_clear, empty_cell};
ghost use Rattle.identity_cell.specs.LazyCache.{
  cache_of,
  is_id,
  cell_at,
  loads,
  with_cell,
  with_last,
  within_most,
  put,
  looked_at,
  AnswersLook,
  done_at,
  failed_at,
  dropped_at,
  expiry_by,
  timeout_by,
};
ghost use Rattle.identity_cell.specs.LoadSleep.{GivesUp, AsksSleep, Waits, timeout_text};
ghost use Rattle.smithy_types.specs.declared.timers.TimersCall.{TimersCall};

use crate::cells::{self, Cells};
use crate::{CellCore, IdentityLoad, LazyCacheTerms, Looked, SchemeId, load_sleep};
use indexmap::IndexMap;
use smithy_context::Settings;
use smithy_types::{Identity, OutOfMemory, Text, Timers};
use std::alloc::Global;
use std::marker::Model;

/// Identities by the ids of schemes, each until it expires: a cell for each scheme, in the order in
/// which they were first asked for, and no more than the terms allow.
#[derive(Drop)]
pub struct LazyCache {
    terms: LazyCacheTerms,
    cells: Cells,
    given_up: u64,
}

impl Model for LazyCache {
    ghost use Rattle.identity_cell.specs.LazyCache.{Cache, cache_of, HaveBuffer};

    ghost Value = { Cache };

    ghost view = { λ l. cache_of l.terms l.cells.entries l.given_up };

    ghost invariant = { λ l. HaveBuffer l.terms.buffer l.cells.entries };
}

impl LazyCache {
    /// A cache without any identity, by these terms. It takes no memory.
    pub fn new(alloc: Global, terms: LazyCacheTerms) -> LazyCache
        ensures { result ≡ cache_of terms [] 0 }
    {
        LazyCache {
            terms,
            cells: IndexMap::new(alloc),
            given_up: 0,
        }
    }

    /// The numbers by which it keeps identities.
    pub fn terms(&self) -> LazyCacheTerms
        ensures { result ≡ self.now.terms }
    {
        self.terms
    }

    /// How many loads were ever begun, those in cells that were given up too. It stops at
    /// `u64::MAX`.
    pub fn loads(&self) -> u64
        ensures { result ≡ loads self.now }
    {
        let begun = cells::loads(&self.cells);
        self.given_up.saturating_add(begun)
    }

    /// Asks the scheme's cell at a moment in nanoseconds for an identity that hasn't expired, and
    /// where it gives none, to begin a load. A scheme without a cell gets one, for which the oldest
    /// goes where there are too many. After an `Err` the cell is as it was, or it has answered that
    /// it has no identity.
    pub fn look(&mut self, alloc: Global, id: &SchemeId, now: u64) -> Result<Looked, OutOfMemory>
        ensures event { let cell = cell_at self.old id.now in
            OnOk result (self.new ≡ put self.old id.now (looked_at cell now)) }
        ensures answer { IfOk result (AnswersLook (cell_at self.old id.now) now) }
        ensures buffer { (cell_at self.old id.now).buffer ≡ self.old.terms.buffer }
        ensures err { let cell = cell_at self.old id.now in OnErr result (
            (self.new ≡ self.old)
            ⊎ (self.new ≡ with_cell self.old id.now (after_clear cell now false))) }
    {
        if let Some(looked) = cells::look_in(&mut self.cells, alloc, id, now)? {
            return Ok(looked);
        }
        self.look_new(alloc, id, now)
    }

    // The same at a scheme without a cell.
    fn look_new(&mut self, alloc: Global, id: &SchemeId, now: u64) -> Result<Looked, OutOfMemory>
        requires { lookup (is_id id.now) self.old.cells ≡ None }
        ensures event { let cell = looked_at (empty_cell self.old.terms.buffer) now in
            OnOk result (self.new ≡ within_most (with_last self.old id.now cell)) }
        ensures answer { IfOk result (AnswersLook (empty_cell self.old.terms.buffer) now) }
        ensures err { OnErr result (self.new ≡ self.old) }
    {
        let mut cell = CellCore::new(self.terms.buffer());
        let looked = cells::look_at(&mut cell, alloc, now)?;
        self.add(id.clone()?, cell)?;
        self.drop_oldest();
        Ok(looked)
    }

    // The cell of a new scheme goes last.
    fn add(&mut self, id: SchemeId, cell: CellCore<Identity>) -> Result<(), OutOfMemory>
        requires new { lookup (is_id id) self.old.cells ≡ None }
        requires buffer { cell.buffer ≡ self.old.terms.buffer }
        ensures ok { OnOk result (self.new ≡ with_last self.old id cell) }
        ensures err { OnErr result (self.new ≡ self.old) }
    {
        self.cells.insert(id, cell)?;
        Ok(())
    }

    // Where there are too many cells, the oldest goes.
    fn drop_oldest(&mut self)
        ensures { self.new ≡ within_most self.old }
    {
        if self.cells.len() as u64 <= self.terms.max_partitions() {
            return;
        }
        if let Some((_, cell)) = self.cells.shift_remove_index(0) {
            self.given_up = self.given_up.saturating_add(cell.loads());
        }
    }

    /// Starts the sleep of a load that was begun under this ticket, for as long as it may take with
    /// these settings. Where there is no memory for it, the load is given up.
    pub fn open<T: Timers>(
        &mut self,
        alloc: Global,
        timers: &mut T,
        id: SchemeId,
        ticket: u64,
        asked_at: u64,
        settings: &Settings,
    ) -> Result<IdentityLoad, OutOfMemory>
        ensures load { IfOk result (λ load. load ≡ record {
          id = id;
          ticket = ticket;
          asked_at = asked_at;
          timeout = timeout_by self.old.terms settings.now;
          sleep = load.sleep;
        }) }
        ensures started { IfOk result (λ load.
            T.relates timers.old (TimersCall.Start load.timeout (Ok load.sleep)) timers.new) }
        ensures sleep { IfOk result (λ load. IsSome load.sleep ↔ IsTrue (T.sleeps timers.old)) }
        ensures same_sleeps { T.sleeps timers.new ≡ T.sleeps timers.old }
        ensures ok { OnOk result (self.new ≡ self.old) }
        ensures refused { let timeout = timeout_by self.old.terms settings.now in
            IfErr result (λ e. T.relates timers.old (TimersCall.Start timeout (Err e)) timers.new) }
        ensures err { OnErr result (self.new ≡ dropped_at self.old id ticket) }
    {
        let timeout = self.terms.timeout_in(settings);
        match timers.start(alloc, timeout) {
            Ok(sleep) => Ok(IdentityLoad {
                id,
                ticket,
                asked_at,
                timeout,
                sleep,
            }),
            Err(error) => {
                self.dropped(&id, ticket);
                Err(error)
            }
        }
    }

    /// Asks the load's sleep, as is to be done where the resolver was asked and isn't done. Where
    /// it is over, the load has failed, for the reason that is answered, and its sleep is given
    /// up. Without memory for the reason the load stays open.
    pub fn wait<T: Timers>(
        &mut self,
        alloc: Global,
        timers: &mut T,
        load: &IdentityLoad,
    ) -> Result<Option<Text>, OutOfMemory>
        ensures reason { IfOk result (λ reason.
            IfSome reason (λ t. t ≡ timeout_text load.now.timeout)) }
        ensures asked { IfOk result (λ reason.
            Waits T.relates load.now.sleep (is_some reason) timers.old timers.new) }
        ensures same_sleeps { T.sleeps timers.new ≡ T.sleeps timers.old }
        ensures ok { let failed = failed_at self.old load.now.id load.now.ticket in
            IfOk result (λ reason. self.new ≡ (if is_some reason then failed else self.old)) }
        ensures err { OnErr result (self.new ≡ self.old) }
        ensures asked_err { OnErr result (
            AsksSleep T.relates load.now.sleep true timers.old timers.new) }
    {
        if !load_sleep::is_over(timers, load.sleep) {
            return Ok(None);
        }
        let reason = load_sleep::timed_out(alloc, load.timeout)?;
        load_sleep::give_up(timers, load.sleep);
        self.failed(&load.id, load.ticket);
        Ok(Some(reason))
    }

    /// Keeps the identity that the load gave, by a random word, and answers a copy of it. Its sleep
    /// is given up. Without memory for the copy the load has failed.
    pub fn keep<T: Timers>(
        &mut self,
        timers: &mut T,
        load: IdentityLoad,
        identity: Identity,
        word: u64,
    ) -> Result<Identity, OutOfMemory>
        ensures copy { IfOk result (λ copy. copy ≡ identity) }
        ensures ok { let expiry = expiry_by self.old.terms identity load.asked_at word in
            OnOk result (self.new ≡ done_at self.old load.id load.ticket identity expiry) }
        ensures err { OnErr result (self.new ≡ failed_at self.old load.id load.ticket) }
        ensures asked { GivesUp T.relates load.sleep timers.old timers.new }
        ensures same_sleeps { T.sleeps timers.new ≡ T.sleeps timers.old }
    {
        load_sleep::give_up(timers, load.sleep);
        match identity.clone() {
            Ok(copy) => {
                let expiry = self
                    .terms
                    .expiry_of(identity.expiration, load.asked_at, word);
                self.done(&load.id, load.ticket, identity, expiry);
                Ok(copy)
            }
            Err(error) => {
                self.failed(&load.id, load.ticket);
                Err(error.into())
            }
        }
    }

    /// The load failed: its cell is empty, and its sleep is given up.
    pub fn fail<T: Timers>(&mut self, timers: &mut T, load: IdentityLoad)
        ensures cell { self.new ≡ failed_at self.old load.id load.ticket }
        ensures asked { GivesUp T.relates load.sleep timers.old timers.new }
        ensures same_sleeps { T.sleeps timers.new ≡ T.sleeps timers.old }
    {
        load_sleep::give_up(timers, load.sleep);
        self.failed(&load.id, load.ticket);
    }

    /// The load is abandoned: its cell is empty, and its sleep is given up.
    pub fn abandon<T: Timers>(&mut self, timers: &mut T, load: IdentityLoad)
        ensures cell { self.new ≡ dropped_at self.old load.id load.ticket }
        ensures asked { GivesUp T.relates load.sleep timers.old timers.new }
        ensures same_sleeps { T.sleeps timers.new ≡ T.sleeps timers.old }
    {
        load_sleep::give_up(timers, load.sleep);
        self.dropped(&load.id, load.ticket);
    }

    // The load of this ticket gave this identity, where it is open.
    fn done(&mut self, id: &SchemeId, ticket: u64, identity: Identity, expiry: u64)
        ensures { self.new ≡ done_at self.old id.now ticket identity expiry }
    {
        if let Some(cell) = self.cells.get_mut(id) {
            cell.done(ticket, identity, expiry);
        }
    }

    // The load of this ticket failed, where it is open.
    fn failed(&mut self, id: &SchemeId, ticket: u64)
        ensures { self.new ≡ failed_at self.old id.now ticket }
    {
        if let Some(cell) = self.cells.get_mut(id) {
            cell.failed(ticket);
        }
    }

    // The load of this ticket is given up, where it is open.
    fn dropped(&mut self, id: &SchemeId, ticket: u64)
        ensures { self.new ≡ dropped_at self.old id.now ticket }
    {
        if let Some(cell) = self.cells.get_mut(id) {
            cell.abandon(ticket);
        }
    }
}

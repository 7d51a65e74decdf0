//! A cell that callers on many threads share.
ghost use Rattle.std.specs.Prelude.{◌≡◌, ◌||◌, IfOk, OnErr};
ghost use Rattle.identity_cell.specs.Shared.{
  Answers,
  GivesUp,
  is_told_to_wait,
  MayHaveValue,
  Polled,
  LostCopy,
  IsCopyOf,
};

use crate::{Begin, CacheAnswer, CellCore, Cleared, Clearing, Held, LoadPoll, Loading};
use smithy_types::OutOfMemory;
use std::alloc::{AllocError, Global};
use std::marker::PhantomData;
use std::sync::{Arc, Mutex, Wait};

/// A cell behind a lock. Each call changes the cell by one of the cell's own five calls at a time,
/// so that its history is legal whenever the lock is free. Handles that are cloned of one another
/// share the cell.
#[derive(Drop)]
pub struct ExpiringCache<T, E> {
    cell: Arc<Mutex<CellCore<T>>>,
    failures: PhantomData<E>,
}

impl<T: Drop, E> Clone for ExpiringCache<T, E> {
    fn clone(&self) -> Result<ExpiringCache<T, E>, AllocError> {
        Ok(ExpiringCache {
            cell: self.cell.clone()?,
            failures: PhantomData,
        })
    }
}

impl<T: Clone + Drop, E: Drop> ExpiringCache<T, E> {
    /// An empty cache, whose values count as expired from so many nanoseconds before their expiry
    /// on.
    pub fn new(alloc: Global, buffer: u64) -> Result<ExpiringCache<T, E>, OutOfMemory> {
        Ok(ExpiringCache {
            cell: Arc::new(alloc, Mutex::new(CellCore::new(buffer)))?,
            failures: PhantomData,
        })
    }

    /// The value in the cell, or one that is loaded. Only where nobody loads does a caller get a
    /// ticket; `load` is asked once in each call of a caller that has one, while the lock is free.
    ///
    /// Without memory for the copy of a loaded value the load has failed. Any other want of memory
    /// changes nothing.
    pub fn get_or_load<F: FnOnce() -> LoadPoll<T, E> + Drop>(
        &self,
        rt: &impl Wait,
        alloc: Global,
        state: &mut Loading<T, E>,
        load: F,
    ) -> Result<CacheAnswer<T, E>, OutOfMemory>
        requires { F.pre load }
        ensures answer { IfOk result (λ answer.
            Answers T.is_clone (F.post load) state.old answer state.new) }
        ensures err { OnErr result (GivesUp (F.post load) state.old state.new) }
    {
        if let Held::Ticket(ticket) = state.held() {
            return self.poll(rt, state, ticket, load());
        }
        match self.begin(rt, alloc)? {
            Begin::Value(value) => {
                state.hold(Held::Nothing);
                Ok(CacheAnswer::Value(value))
            }
            Begin::NotYet => {
                state.hold(Held::Wait);
                Ok(CacheAnswer::NotYet)
            }
            Begin::Load(ticket) => self.poll(rt, state, ticket, load()),
        }
    }

    /// The value in the cell where it hasn't expired at this moment in nanoseconds. An expired
    /// value is removed. A caller that was ever told to wait gets no value any more. An `Err`
    /// leaves the cell and the caller as they were.
    pub fn yield_or_clear_if_expired(
        &self,
        rt: &impl Wait,
        alloc: Global,
        now: u64,
        state: &mut Clearing,
    ) -> Result<Cleared<T>, OutOfMemory>
        ensures waited { IfOk result (λ answer. state.new ≡ (state.old || is_told_to_wait answer)) }
        ensures value { IfOk result (λ answer. MayHaveValue state.old answer) }
        ensures err { OnErr result (state.new ≡ state.old) }
    {
        self.cell.lock(rt).clear(alloc, now, state)
    }

    /// The caller gives its load up, where it has one; the cell is empty then.
    pub fn abandon(&self, rt: &impl Wait, state: Loading<T, E>) {
        if let Held::Ticket(ticket) = state.held() {
            self.cell.lock(rt).abandon(ticket);
        }
    }

    // Asks the cell, with the lock free again afterwards.
    fn begin(&self, rt: &impl Wait, alloc: Global) -> Result<Begin<T>, OutOfMemory> {
        self.cell.lock(rt).begin(alloc)
    }

    // What the load of this ticket answered.
    fn poll(
        &self,
        rt: &impl Wait,
        state: &mut Loading<T, E>,
        ticket: u64,
        polled: LoadPoll<T, E>,
    ) -> Result<CacheAnswer<T, E>, OutOfMemory>
        ensures answer { IfOk result (λ answer. Polled T.is_clone ticket polled answer state.new) }
        ensures err { OnErr result (LostCopy polled state.new) }
    {
        match polled {
            LoadPoll::Pending => {
                state.hold(Held::Ticket(ticket));
                Ok(CacheAnswer::NotYet)
            }
            LoadPoll::Failed(failure) => {
                state.hold(Held::Nothing);
                self.cell.lock(rt).failed(ticket);
                Ok(CacheAnswer::Failed(failure))
            }
            LoadPoll::Ready(value, expiry) => {
                state.hold(Held::Nothing);
                self.store(rt, ticket, value, expiry)
            }
        }
    }

    // The load of this ticket gave a value, of which the caller gets a copy. Without memory for
    // that the load has failed.
    fn store(
        &self,
        rt: &impl Wait,
        ticket: u64,
        value: T,
        expiry: u64,
    ) -> Result<CacheAnswer<T, E>, OutOfMemory>
        ensures { IfOk result (IsCopyOf T.is_clone value) }
    {
        match value.clone() {
            Ok(copy) => {
                self.cell.lock(rt).done(ticket, value, expiry);
                Ok(CacheAnswer::Value(copy))
            }
            Err(error) => {
                self.cell.lock(rt).failed(ticket);
                Err(error.into())
            }
        }
    }
}

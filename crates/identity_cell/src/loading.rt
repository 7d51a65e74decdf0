//! What callers of a shared cache remember between calls, and what a load answers them.
ghost use Rattle.std.specs.Prelude.{◌≡◌};
ghost use Rattle.identity_cell.specs.declared.loading.Held.TheVariants.{Nothing};

use std::marker::{Model, PhantomData};

/// What a load answers when it is asked.
#[derive(Drop)]
pub enum LoadPoll<T, E> {
    /// It isn't over.
    Pending,
    /// It gave a value, which expires at this moment in nanoseconds.
    Ready(T, u64),
    /// It failed.
    Failed(E),
}

/// What a cache answers to a caller that takes a value or loads one.
#[derive(Drop)]
pub enum CacheAnswer<T, E> {
    /// A value.
    Value(T),
    /// The caller's load, or that of another caller, isn't over.
    NotYet,
    /// The caller's load failed.
    Failed(E),
}

/// What a caller holds of a cache.
#[derive(Clone, Copy, Debug, PartialEq, Eq)]
pub enum Held {
    /// Nothing: it hasn't asked, or it was answered.
    Nothing,
    /// The ticket of its open load.
    Ticket(u64),
    /// The word that another caller loads.
    Wait,
}

/// What one caller of `get_or_load` remembers from call to call.
#[derive(Drop)]
pub struct Loading<T, E> {
    held: Held,
    answers: PhantomData<(T, E)>,
}

impl<T, E> Model for Loading<T, E> {
    ghost use Rattle.identity_cell.specs.declared.loading.Held.{Held};

    ghost Value = { Held };

    ghost view = { λ l. l.held };
}

impl<T, E> Loading<T, E> {
    /// A caller that has not asked yet.
    pub fn new() -> Loading<T, E>
        ensures { result ≡ Nothing }
    {
        Loading {
            held: Held::Nothing,
            answers: PhantomData,
        }
    }

    /// What the caller holds.
    pub fn held(&self) -> Held
        ensures { result ≡ self.now }
    {
        self.held
    }

    /// Has the caller hold this.
    pub(crate) fn hold(&mut self, held: Held)
        ensures { self.new ≡ held }
    {
        self.held = held;
    }
}

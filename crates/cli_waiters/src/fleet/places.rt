//! How far the polls of waiters have come.
ghost use Rattle.std.specs.Prelude.{◌≡◌, IfOk, replicate, slice_get, unwrap_or};
ghost use Rattle.std.proofs.Common.{set};
ghost use Rattle.cli_waiters.specs.Fleet.Waiters.{first_place};

use smithy_types::OutOfMemory;
use std::alloc::Global;
use std::marker::Model;

/// Where the polls of a waiter begin.
const FIRST_PLACE: Place = Place {
    number: 1,
    due: None,
};

/// How far the polls of a waiter have come.
#[derive(Clone, Copy, Drop)]
pub struct Place {
    /// The number of its next poll, from 1 on, at most `u32::MAX`.
    pub number: u32,
    /// When that poll is due, in nanoseconds, if it was asked and isn't answered yet.
    pub due: Option<u64>,
}

/// The places of waiters, by their numbers.
#[derive(Drop)]
pub struct Places {
    places: Vec<Place>,
}

impl Model for Places {
    ghost use Rattle.std.specs.Prelude.{List};
    ghost use Rattle.cli_waiters.specs.declared.fleet.places.Place.{Place};

    ghost Value = { List Place };

    ghost view = { λ p. p.places.items };
}

impl Places {
    /// The places of so many waiters, none of which was polled yet.
    pub fn new(alloc: Global, count: usize) -> Result<Places, OutOfMemory>
        ensures { IfOk result (λ places. places ≡ replicate count first_place) }
    {
        Ok(Places {
            places: vec![in alloc; FIRST_PLACE; count]?,
        })
    }

    /// The place of a waiter. One that isn't there stands at its first poll.
    pub fn at(&self, waiter: u32) -> Place
        ensures { result ≡ unwrap_or (slice_get self.now waiter) first_place }
    {
        match self.places.get(waiter as usize) {
            Some(place) => *place,
            None => FIRST_PLACE,
        }
    }

    /// Puts the place of a waiter. Nothing changes where it isn't there.
    #[tactic(auto, using(crate::proofs::fleet::Past::put_past))]
    pub fn put(&mut self, waiter: u32, place: Place)
        ensures { self.new ≡ set self.old waiter place }
    {
        let index = waiter as usize;
        if index < self.places.len() {
            self.places[index] = place;
        }
    }

    /// The places.
    pub fn as_slice(&self) -> &[Place]
        ensures { result.now ≡ self.now }
    {
        self.places.as_slice()
    }
}

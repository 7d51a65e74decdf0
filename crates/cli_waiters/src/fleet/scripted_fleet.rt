//! A world of waiters that follows a script.
ghost use Rattle.std.specs.Prelude.{◌≡◌};

use crate::fleet::due::sooner_of_all;
use crate::fleet::places::{Place, Places};
use crate::fleet::polls::told_by;
use crate::fleet::waiter::ScriptedWaiter;
use cli_wait::ScriptedPoll;
use cli_wait::polls::nanos_of;
use outside_scripted::wake::{earliest, woken};
use outside_scripted::{Sleeps, Words};
use smithy_types::{AcceptorState, List, OutOfMemory, Timers};
use std::alloc::Global;
use waiter_fleet::{FleetWorld, Seen};
use waiters::WaiterTimers;

/// Waiters under one clock, which only `park` moves.
#[derive(Drop)]
pub struct ScriptedFleet {
    /// The present moment, in nanoseconds.
    pub moment: u64,
    /// The words that are still to be drawn.
    pub words: Words,
    /// The waiters, with the polls of their operations.
    pub waiters: List<ScriptedWaiter>,
    /// How far the polls of each waiter have come.
    pub places: Places,
    /// The sleeps that are open.
    pub sleeps: Sleeps,
    /// How many `ready` calls answered no. The count stands still at the greatest u64.
    pub unready: u64,
    /// How many polls had no answer yet, and how many `ready` calls answered no. The count stands
    /// still at the greatest u64.
    pub waits: u64,
}

impl ScriptedFleet {
    ghost use Rattle.std.specs.Prelude.{[], length, replicate, IfOk, MatchBool};
    ghost use Rattle.std.specs.Option.{option_copied};
    ghost use Rattle.outside_scripted.specs.Wake.{IsNext};
    ghost use Rattle.cli_waiters.specs.Fleet.Makes.{due_of, dues, IsDue, opened_due, passed, poll_of};
    ghost use Rattle.cli_waiters.specs.Fleet.Makes.{Waits};
    ghost use Rattle.cli_waiters.specs.Fleet.Waiters.{first_place};

    /// These waiters at this moment, with these words. Nothing was asked yet.
    pub fn new(
        alloc: Global,
        start: u64,
        words: List<u64>,
        waiters: List<ScriptedWaiter>,
    ) -> Result<ScriptedFleet, OutOfMemory>
        ensures moment { IfOk result (λ w. w.moment ≡ start) }
        ensures words { IfOk result (λ w. w.words ≡ words) }
        ensures waiters { IfOk result (λ w. w.waiters ≡ waiters) }
        ensures places { IfOk result (λ w. w.places ≡ replicate (length waiters) first_place) }
        ensures sleeps { IfOk result (λ w. w.sleeps ≡ []) }
        ensures unready { IfOk result (λ w. w.unready ≡ 0) }
        ensures waits { IfOk result (λ w. w.waits ≡ 0) }
    {
        let places = Places::new(alloc, waiters.len())?;
        Ok(ScriptedFleet {
            moment: start,
            words: Words::new(words),
            waiters,
            places,
            sleeps: Sleeps::new(alloc),
            unready: 0,
            waits: 0,
        })
    }

    // The poll that a waiter is asked for next.
    fn poll_of(&self, waiter: u32) -> Option<&ScriptedPoll>
        ensures { option_copied result ≡ poll_of self.now waiter }
    {
        match self.waiters.as_slice().get(waiter as usize) {
            Some(one) => one.poll_at(self.places.at(waiter).number),
            None => None,
        }
    }

    // When the next poll of a waiter is due: at the moment of its first ask and its nanoseconds.
    fn due_of(&self, waiter: u32) -> u64
        ensures { result ≡ due_of self.now waiter }
    {
        match self.places.at(waiter).due {
            Some(due) => due,
            None => self.opened_due(waiter),
        }
    }

    // When it is due, if it is asked for the first time.
    fn opened_due(&self, waiter: u32) -> u64
        ensures { result ≡ opened_due self.now waiter }
    {
        self.moment.saturating_add(nanos_of(self.poll_of(waiter)))
    }

    // Asks the next poll of a waiter. Answers whether it is due; if not, it stays open.
    fn is_due(&mut self, waiter: u32) -> bool
        ensures { MatchBool result
            (IsDue self.old waiter × (self.new ≡ self.old))
            (Waits self.old waiter self.new) }
    {
        let due = self.due_of(waiter);
        if due <= self.moment {
            return true;
        }
        let number = self.places.at(waiter).number;
        let place = Place {
            number,
            due: Some(due),
        };
        self.places.put(waiter, place);
        self.waits = self.waits.saturating_add(1);
        false
    }

    // The next poll of a waiter was answered.
    fn pass(&mut self, waiter: u32)
        ensures { self.new ≡ passed waiter self.old }
    {
        let number = self.places.at(waiter).number.saturating_add(1);
        self.places.put(waiter, Place { number, due: None });
    }

    // The least moment above the present one at which something open is due.
    fn next_due(&self) -> Option<u64>
        ensures { IsNext self.now.moment (dues self.now) result }
    {
        let next = earliest(self.sleeps.as_slice(), self.moment);
        sooner_of_all(next, self.places.as_slice(), self.moment)
    }
}

impl Timers for ScriptedFleet {
    ghost use Rattle.std.specs.Prelude.{Some, refl, true};
    ghost use Rattle.smithy_types.specs.Starting.{is_started};
    ghost use Rattle.outside_scripted.specs.Time.{later};
    ghost use Rattle.cli_waiters.specs.Fleet.Makes.{Ticks};

    ghost moment = { λ w. Some w.moment };

    ghost sleeps = { λ _. true };

    ghost relates = { Ticks };

    fn has_sleep(&self) -> bool {
        true
    }

    fn now(&mut self) -> u64 {
        self.moment
    }

    fn start(&mut self, _alloc: Global, nanos: u64) -> Result<Option<u64>, OutOfMemory> {
        let due = self.moment.saturating_add(nanos);
        self.sleeps.open(due)?;
        Ok(Some(due))
    }

    fn ready(&mut self, sleep: u64) -> bool {
        if sleep <= self.moment {
            self.sleeps.close(sleep);
            return true;
        }
        self.unready = self.unready.saturating_add(1);
        self.waits = self.waits.saturating_add(1);
        false
    }

    fn give_up(&mut self, sleep: u64) {
        self.sleeps.close(sleep);
    }

    ghost keeps_sleeps = { λ old call new made. refl };

    ghost starts_where_sleeps = { λ old nanos sleep new made. is_started (later old.moment nanos) sleep
        made.0 };
}

impl WaiterTimers for ScriptedFleet {
    ghost use Rattle.std.specs.Prelude.{refl};
    ghost use Rattle.cli_waiters.specs.Fleet.Makes.{Makes};
    ghost use Rattle.cli_waiters.specs.Fleet.Counting.{each_unready_is_counted};

    ghost makes = { Makes };

    ghost unready = { λ w. w.unready };

    fn word(&mut self) -> u64 {
        self.words.draw()
    }

    fn park(&mut self) {
        self.moment = woken(self.next_due(), self.moment);
    }

    ghost timers_make = { λ old call new made. made };

    ghost sleeps_stay = { λ old call new made. refl };

    ghost counts = { each_unready_is_counted };
}

impl FleetWorld for ScriptedFleet {
    ghost use Rattle.cli_waiters.specs.Fleet.Makes.{Does};
    ghost use Rattle.cli_waiters.specs.Fleet.Counting.{does_made, each_wait_is_counted, makes_done};

    ghost does = { Does };

    ghost waits = { λ w. w.waits };

    fn poll(
        &mut self,
        _alloc: Global,
        waiter: u32,
    ) -> Result<Option<(Seen, AcceptorState)>, OutOfMemory> {
        if !self.is_due(waiter) {
            return Ok(None);
        }
        let found = told_by(self.poll_of(waiter))?;
        self.pass(waiter);
        Ok(Some(found))
    }

    ghost made = { does_made };

    ghost makes_it = { makes_done };

    ghost counts_waits = { each_wait_is_counted };
}

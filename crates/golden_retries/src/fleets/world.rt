//! A world that follows a script.
ghost use Rattle.std.specs.Prelude.{◌≡◌, IfOk, vec_len};

use crate::fleets::script::{ScriptedPoll, Told};
use smithy_types::{AcceptorState, Blob, OutOfMemory, Payload, Timers};
use std::alloc::Global;
use waiter_fleet::{FleetWorld, Seen};
use waiters::WaiterTimers;

/// How far the polls of a waiter have come.
#[derive(Clone, Copy, Drop)]
pub struct Place {
    /// How many were answered.
    pub answered: usize,
    /// When the one that was asked is answered, in nanoseconds.
    pub due: Option<u64>,
}

/// A world whose clock only `park` moves. Each waiter has the same polls, and behind the last that
/// one again.
#[derive(Drop)]
pub struct ScriptedWorld {
    pub polls: &'static [ScriptedPoll],
    pub places: Vec<Place>,
    /// The present moment, in nanoseconds.
    pub moment: u64,
    /// When what was asked last is there.
    pub next: u64,
    pub unready: u64,
    pub waits: u64,
}

impl ScriptedWorld {
    /// A world of so many waiters at moment 0.
    pub fn new(
        alloc: Global,
        polls: &'static [ScriptedPoll],
        waiters: u32,
    ) -> Result<ScriptedWorld, OutOfMemory>
        ensures { IfOk result (λ w. w.waits ≡ 0) }
    {
        let mut places = Vec::new(alloc);
        for _ in 0..waiters {
            places.push(Place {
                answered: 0,
                due: None,
            })?;
        }
        Ok(ScriptedWorld {
            polls,
            places,
            moment: 0,
            next: 0,
            unready: 0,
            waits: 0,
        })
    }

    // The poll that a waiter is asked for next. Without a script its operation has no error of its
    // model.
    fn poll_at(&self, answered: usize) -> ScriptedPoll {
        let last = self.polls.len().saturating_sub(1);
        match self.polls.get(answered.min(last)) {
            Some(poll) => *poll,
            None => ScriptedPoll {
                nanos: 0,
                told: Told::Unmodeled,
                state: AcceptorState::Retry,
            },
        }
    }

    // The next poll of a waiter, if it is answered by now.
    fn answer(&mut self, waiter: u32) -> Option<ScriptedPoll>
        ensures unready { self.new.unready ≡ self.old.unready }
        ensures waits { self.new.waits ≡ self.old.waits }
    {
        let index = waiter as usize;
        let place = match self.places.get(index) {
            Some(place) => *place,
            None => return None,
        };
        let poll = self.poll_at(place.answered);
        let due = place.due.unwrap_or(self.moment.saturating_add(poll.nanos));
        if due > self.moment {
            self.next = due;
            self.places[index].due = Some(due);
            return None;
        }
        self.places[index] = Place {
            answered: place.answered.saturating_add(1),
            due: None,
        };
        Some(poll)
    }
}

impl Timers for ScriptedWorld {
    ghost use Rattle.std.specs.Prelude.{Some, refl, true};
    ghost use Rattle.waiters.specs.declared.timers.WaiterCall.TheVariants as call;
    ghost use Rattle.smithy_types.specs.Starting.{StartsWhere};
    ghost use Rattle.golden_retries.specs.Makes.{Makes};

    ghost moment = { λ w. Some w.moment };

    ghost sleeps = { λ _. true };

    ghost relates = { λ old one new. Makes old.unready old.waits (call.Timers one) new.unready
        new.waits × StartsWhere true one };

    fn has_sleep(&self) -> bool {
        true
    }

    fn now(&mut self) -> u64 {
        self.moment
    }

    fn start(&mut self, _alloc: Global, nanos: u64) -> Result<Option<u64>, OutOfMemory> {
        Ok(Some(self.moment.saturating_add(nanos)))
    }

    // A sleep's number is the moment at which it is over.
    fn ready(&mut self, sleep: u64) -> bool {
        if sleep <= self.moment {
            return true;
        }
        self.next = sleep;
        self.unready = self.unready.saturating_add(1);
        self.waits = self.waits.saturating_add(1);
        false
    }

    fn give_up(&mut self, _sleep: u64) {}

    ghost keeps_sleeps = { λ old one new made. refl };

    ghost starts_where_sleeps = { λ old nanos sleep new made. made.1 };
}

impl WaiterTimers for ScriptedWorld {
    ghost use Rattle.std.specs.Prelude.{refl};
    ghost use Rattle.golden_retries.specs.Makes.{Makes};

    ghost makes = { λ old one new. Makes old.unready old.waits one new.unready new.waits };

    ghost unready = { λ w. w.unready };

    fn word(&mut self) -> u64 {
        0
    }

    fn park(&mut self) {
        self.moment = self.moment.max(self.next);
    }

    ghost timers_make = { λ old one new made. made.0 };

    ghost sleeps_stay = { λ old one new made. refl };

    ghost counts = { λ old one new made. made.unready };
}

impl FleetWorld for ScriptedWorld {
    ghost use Rattle.golden_retries.specs.Makes.{Does, does_made, makes_done};

    ghost does = { λ old one new. Does old.unready old.waits one new.unready new.waits };

    ghost waits = { λ w. w.waits };

    fn poll(
        &mut self,
        alloc: Global,
        waiter: u32,
    ) -> Result<Option<(Seen, AcceptorState)>, OutOfMemory> {
        let Some(poll) = self.answer(waiter) else {
            self.waits = self.waits.saturating_add(1);
            return Ok(None);
        };
        let seen = match poll.told {
            Told::Unmodeled => Seen::Unmodeled,
            Told::Output => Seen::Output(payload(alloc)?),
            Told::Service => Seen::Service(payload(alloc)?),
        };
        Ok(Some((seen, poll.state)))
    }

    ghost made = { λ old one new is made. does_made old.unready old.waits one new.unready new.waits
        is made };

    ghost makes_it = { λ old one new done. makes_done old.unready old.waits one new.unready
        new.waits done };

    ghost counts_waits = { λ old one new done. done.waits };
}

// A payload of kind 1 without bytes.
fn payload(alloc: Global) -> Result<Payload, OutOfMemory> {
    Ok(Payload {
        kind: 1,
        bytes: Blob::from_slice(alloc, &[])?,
    })
}

//! Timers of a waiter that follow a script.
ghost use Rattle.std.specs.Prelude.{◌≡◌};

use crate::notes::{Note, Notes};
use crate::polls::{ScriptedPoll, nanos_of, poll_at};
use outside_scripted::wake::{earliest, sooner_of, woken};
use outside_scripted::{Sleeps, Words};
use smithy_types::{List, OutOfMemory, Timers};
use std::alloc::Global;
use waiters::WaiterTimers;

/// Timers whose clock only `park` moves.
#[derive(Drop)]
pub struct ScriptedTimers {
    /// The present moment, in nanoseconds.
    pub moment: u64,
    /// The words that are still to be drawn.
    pub words: Words,
    /// The polls of the operation, the first one first.
    pub polls: List<ScriptedPoll>,
    /// When the poll that was asked and not answered is due, in nanoseconds.
    pub poll_due: Option<u64>,
    /// The sleeps that are open: started, and neither found over nor given up.
    pub sleeps: Sleeps,
    /// The polls that were answered and the sleeps that were started.
    pub notes: Notes,
    /// How many `ready` calls answered no. The count stands still at the greatest u64.
    pub unready: u64,
}

impl ScriptedTimers {
    ghost use Rattle.std.specs.Prelude.{[], None, OnOk, OnErr, MatchBool};
    ghost use Rattle.std.specs.Option.{option_copied};
    ghost use Rattle.outside_scripted.specs.Wake.{IsNext};
    ghost use Rattle.cli_wait.specs.Makes.{answered, due_of, dues, IsDue, opened_due, Waits};
    ghost use Rattle.cli_wait.specs.Polls.{poll_at};

    /// Timers at this moment, with these words and polls. Nothing is noted yet.
    pub fn new(
        alloc: Global,
        start: u64,
        words: List<u64>,
        polls: List<ScriptedPoll>,
    ) -> ScriptedTimers
        ensures moment { result.moment ≡ start }
        ensures words { result.words ≡ words }
        ensures polls { result.polls ≡ polls }
        ensures poll_due { result.poll_due ≡ None }
        ensures sleeps { result.sleeps ≡ [] }
        ensures notes { result.notes ≡ [] }
        ensures unready { result.unready ≡ 0 }
    {
        ScriptedTimers {
            moment: start,
            words: Words::new(words),
            polls,
            poll_due: None,
            sleeps: Sleeps::new(alloc),
            notes: Notes::new(alloc),
            unready: 0,
        }
    }

    /// The poll of this number, counted from 1: behind the last one that one again.
    pub fn poll_at(&self, number: u32) -> Option<&ScriptedPoll>
        ensures { option_copied result ≡ poll_at self.now.polls number }
    {
        poll_at(&self.polls, number)
    }

    // When the poll of this number is due: at the moment of its first ask and its nanoseconds.
    fn due_of(&self, number: u32) -> u64
        ensures { result ≡ due_of self.now number }
    {
        match self.poll_due {
            Some(due) => due,
            None => self.opened_due(number),
        }
    }

    // When the poll of this number is due, if it is asked for the first time.
    fn opened_due(&self, number: u32) -> u64
        ensures { result ≡ opened_due self.now number }
    {
        self.moment.saturating_add(nanos_of(self.poll_at(number)))
    }

    /// Asks the poll of this number. Answers whether it is due; if not, it stays open.
    pub fn is_due(&mut self, number: u32) -> bool
        ensures { MatchBool result
            (IsDue self.old number × (self.new ≡ self.old))
            (Waits self.old number self.new) }
    {
        let due = self.due_of(number);
        if due <= self.moment {
            return true;
        }
        self.poll_due = Some(due);
        false
    }

    /// Notes that the poll of this number was answered.
    pub fn note_poll(&mut self, number: u32) -> Result<(), OutOfMemory>
        ensures ok { OnOk result (self.new ≡ answered number self.old) }
        ensures err { OnErr result (self.new ≡ self.old) }
    {
        let moment = self.moment;
        self.notes.push(Note::Poll { number, moment })?;
        self.poll_due = None;
        Ok(())
    }

    // The least moment above the present one at which something open is due.
    fn next_due(&self) -> Option<u64>
        ensures { IsNext self.now.moment (dues self.now) result }
    {
        let next = earliest(self.sleeps.as_slice(), self.moment);
        sooner_of(next, self.poll_due, self.moment)
    }
}

impl Timers for ScriptedTimers {
    ghost use Rattle.std.specs.Prelude.{Some, refl, true};
    ghost use Rattle.smithy_types.specs.Starting.{is_started};
    ghost use Rattle.outside_scripted.specs.Time.{later};
    ghost use Rattle.cli_wait.specs.Makes.{Ticks};

    ghost moment = { λ t. Some t.moment };

    ghost sleeps = { λ _. true };

    ghost relates = { Ticks };

    fn has_sleep(&self) -> bool {
        true
    }

    fn now(&mut self) -> u64 {
        self.moment
    }

    fn start(&mut self, _alloc: Global, nanos: u64) -> Result<Option<u64>, OutOfMemory> {
        let due = self.moment.saturating_add(nanos);
        self.notes.push(Note::Sleep { nanos })?;
        if self.sleeps.open(due).is_err() {
            self.notes.take_back();
            return Err(OutOfMemory);
        }
        Ok(Some(due))
    }

    fn ready(&mut self, sleep: u64) -> bool {
        if sleep <= self.moment {
            self.sleeps.close(sleep);
            return true;
        }
        self.unready = self.unready.saturating_add(1);
        false
    }

    fn give_up(&mut self, sleep: u64) {
        self.sleeps.close(sleep);
    }

    ghost keeps_sleeps = { λ old call new made. refl };

    ghost starts_where_sleeps = { λ old nanos sleep new made. is_started (later old.moment nanos) sleep
        made.0 };
}

impl WaiterTimers for ScriptedTimers {
    ghost use Rattle.std.specs.Prelude.{refl};
    ghost use Rattle.cli_wait.specs.Makes.{Makes};
    ghost use Rattle.cli_wait.specs.Counting.{each_unready_is_counted};

    ghost makes = { Makes };

    ghost unready = { λ t. t.unready };

    fn word(&mut self) -> u64 {
        self.words.draw()
    }

    fn park(&mut self) {
        self.moment = woken(self.next_due(), self.moment);
    }

    ghost timers_make = { λ old call new made. made };

    ghost sleeps_stay = { λ old call new made. refl };

    ghost counts = { each_unready_is_counted };
}

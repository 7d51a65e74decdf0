//! When the waiters of a fleet are due.
ghost use Rattle.std.specs.Prelude.{◌≡◌, [], MatchOption, OnOk};
ghost use Rattle.waiter_fleet.specs.Schedules.{Adds, NoneIsOf, Takes};

use smithy_types::OutOfMemory;
use std::alloc::Global;
use std::cmp::Reverse;
use std::collections::BinaryHeap;
use std::marker::Model;

/// When a waiter is due. What is due first is least, ties by the waiters' numbers.
#[derive(Clone, Copy, Debug, Drop, PartialEq, Eq, PartialOrd, Ord)]
pub(crate) struct Due {
    /// The moment, in nanoseconds, which stops at the greatest u64.
    pub moment: u64,
    /// The waiter's number.
    pub waiter: u32,
}

/// When each waiter is due that hasn't ended. No waiter is due twice.
#[derive(Drop)]
pub(crate) struct Schedule {
    dues: BinaryHeap<Reverse<Due>>,
}

impl Model for Schedule {
    ghost use Rattle.std.specs.Prelude.{List};
    ghost use Rattle.std.specs.BinaryHeap.{heap_items};
    ghost use Rattle.waiter_fleet.specs.declared.schedule.Due.{Due};
    ghost use Rattle.waiter_fleet.specs.Schedules.{IsQueue, dues_of};

    ghost Value = { List Due };

    ghost view = { λ s. dues_of (heap_items s.dues) };

    ghost invariant = { λ s. IsQueue (heap_items s.dues) };
}

impl Schedule {
    /// A schedule without a waiter.
    pub fn new(alloc: Global) -> Schedule
        ensures { result ≡ [] }
    {
        Schedule {
            dues: BinaryHeap::new(alloc),
        }
    }

    /// Takes out what is due first.
    pub fn next(&mut self) -> Option<Due>
        ensures { MatchOption result (self.old ≡ []) (Takes self.old self.new) }
    {
        match self.dues.pop() {
            Some(Reverse(due)) => Some(due),
            None => None,
        }
    }

    /// Puts in when a waiter is due that wasn't in it.
    pub fn insert(&mut self, due: Due) -> Result<(), OutOfMemory>
        requires { NoneIsOf due.waiter self.old }
        ensures added { OnOk result (Adds self.old due self.new) }
    {
        self.dues.push(Reverse(due))?;
        Ok(())
    }
}

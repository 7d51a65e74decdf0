//! The last ten bins in a ring.
ghost use Rattle.std.specs.Prelude.{
  ◌≡◌,
  ℕ,
  ◌+◌,
  ◌*◌,
  ◌^◌,
  ◌<◌,
  ◌≤◌,
  ◌++◌,
  ◌∷◌,
  [],
  length,
  drop,
  replicate,
  slice_set,
};
ghost use Rattle.stream_guard.specs.Bin.{Shifted, back, merged, no_polling};
ghost use Rattle.stream_guard.specs.Judged.{judged_bins};
ghost use Rattle.stream_guard.specs.Logs.{pushes_for};
ghost use Rattle.stream_guard.specs.Ring.{IsRing};

use crate::totals::Totals;
use crate::{Bin, Steps, ThroughputReport};
use std::marker::Model;
use std::sync::ledger::Ledger;

/// How many bins there are.
const BIN_COUNT: usize = 10;

/// Ten bins. A new one takes the earliest one's place.
#[derive(Drop)]
pub(crate) struct BinRing {
    slots: [Bin; 10],
    /// The earliest bin's place.
    head: usize,
    totals: Totals,
}

impl Model for BinRing {
    ghost use Rattle.std.specs.Prelude.{List, ◌<◌};
    ghost use Rattle.stream_guard.specs.Ring.{IsRing, in_order};
    ghost use Rattle.stream_guard.specs.declared.bin.Bin.{Bin};

    ghost Value = { List Bin };

    ghost view = { λ ring. in_order ring.head ring.slots };

    ghost invariant = { λ ring. (ring.head < 10) × IsRing ring.slots ring.totals };
}

impl BinRing {
    /// Ten bins in which nothing happened.
    pub(crate) fn new() -> BinRing
        ensures { result ≡ replicate 10 no_polling }
    {
        BinRing {
            slots: [Bin::NO_POLLING; 10],
            head: 0,
            totals: Totals::of_no_polling(),
        }
    }

    /// Forgets what happened.
    pub(crate) fn clear(&mut self)
        ensures { self.new ≡ replicate 10 no_polling }
    {
        *self = BinRing::new();
    }

    /// A bin in which nothing happened takes the earliest one's place. That is one step.
    pub(crate) fn push_bin<L: Ledger>(&mut self, steps: &mut Steps<L>)
        ensures pushed { self.new ≡ drop 1 self.old ++ no_polling ∷ [] }
        ensures moved { Shifted 1 self.old self.new }
        ensures counted { steps.new ≡ steps.old + 1 }
    {
        steps.tick();
        put(
            &mut self.slots,
            &mut self.totals,
            self.head,
            Bin::NO_POLLING,
        );
        self.head = (self.head + 1) % BIN_COUNT;
    }

    /// Moves the bins so many places on, in at most ten steps. Nothing has happened in those that
    /// come in.
    pub(crate) fn advance<L: Ledger>(&mut self, places: u128, steps: &mut Steps<L>)
        ensures moved { Shifted places self.old self.new }
        ensures counted { steps.new ≡ steps.old + pushes_for places }
        ensures few { steps.new ≤ steps.old + 10 }
    {
        if places < 10 {
            self.push_bins(places as usize, steps);
        } else {
            self.clear();
        }
    }

    // Moves the bins so many places on, one step each.
    fn push_bins<L: Ledger>(&mut self, count: usize, steps: &mut Steps<L>)
        ensures moved { Shifted count self.old self.new }
        ensures counted { steps.new ≡ steps.old + count }
    {
        for _pushed in 0..count {
            self.push_bin(steps);
        }
    }

    /// Adds an event to the latest bin.
    pub(crate) fn add(&mut self, event: Bin)
        ensures last { back 0 self.new ≡ merged (back 0 self.old) event }
        ensures others { (k : ℕ) → 0 < k → k < 10 → back k self.new ≡ back k self.old }
    {
        let place = (self.head + 9) % BIN_COUNT;
        let bin = self.slots[place].merged(event);
        put(&mut self.slots, &mut self.totals, place, bin);
    }

    /// What the bins say, of so many ns each.
    pub(crate) fn judge(&self, resolution: u64) -> ThroughputReport
        requires { 10 * resolution < 2 ^ 64 }
        ensures ten { length self.now ≡ 10 }
        ensures judged { result ≡ judged_bins resolution self.now }
    {
        self.totals.judge(resolution)
    }
}

// Puts a bin in another's place.
fn put(slots: &mut [Bin], totals: &mut Totals, place: usize, bin: Bin)
    requires ring { IsRing slots.old totals.old }
    requires place { place < 10 }
    ensures ring { IsRing slots.new totals.new }
    ensures slots { slots.new ≡ slice_set slots.old place bin }
{
    *totals = totals.exchanged(slots[place], bin);
    slots[place] = bin;
}

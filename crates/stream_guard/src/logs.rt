//! What happened to a stream, by bins of time.
ghost use Rattle.std.specs.Prelude.{
  ◌≡◌,
  ◌+◌,
  ◌-◌,
  ◌*◌,
  ◌/◌,
  ◌<◌,
  ◌≤◌,
  ◌↔◌,
  ◌^◌,
  ◌∷◌,
  ◌++◌,
  [],
  true,
  not,
  length,
  List,
  Some,
  IsErr,
  IfErr,
  IfOk,
  drop,
};
ghost use Rattle.stream_guard.specs.Bin.{no_polling, Shifted};
ghost use Rattle.stream_guard.specs.Report.{own_bin};

use crate::ring::BinRing;
use crate::{Bin, BinLabel, Steps, ThroughputReport};
use smithy_types::BuildError;
use std::marker::{Brand, Model};
use std::sync::ledger::{Blank, Ledger};

/// What happened to a stream, in ten bins of equal length up to the latest moment that was seen.
/// Moments are in ns.
#[derive(Drop)]
pub struct ThroughputLogs {
    start: u64,
    resolution: u64,
    stream_complete: bool,
    /// The number of the latest bin: 0 before the start, 1 and up from the start on.
    latest: u128,
    /// Whether an event came before the start.
    early: bool,
    bins: BinRing,
}

impl Model for ThroughputLogs {
    ghost use Rattle.std.specs.Prelude.{◌*◌, ◌<◌, ◌^◌};
    ghost use Rattle.stream_guard.specs.Logs.{Log};

    ghost Value = { Log };

    ghost view = { λ l. record {
      start = l.start;
      resolution = l.resolution;
      complete = l.stream_complete;
      latest = l.latest;
      early = l.early;
      bins = l.bins;
    } };

    ghost invariant = { λ l. (0 < l.resolution) × (10 * l.resolution < 2 ^ 64) };
}

impl ThroughputLogs {
    ghost use Rattle.stream_guard.specs.Logs.{
      Log,
      empty_log,
      Keeps,
      SameSettings,
      CatchesUp,
      AddsEvent,
      pushes_at,
      shown,
    };
    ghost use Rattle.stream_guard.specs.Report.{Came, Pending, Transferred, Looked, report_of};

    /// A log that starts now and judges by a window of so many ns. A window below 10 ns is refused,
    /// since it has no ten bins.
    pub fn new(window: u64, now: u64) -> Result<ThroughputLogs, BuildError>
        ensures short { IsErr result ↔ (window < 10) }
        ensures refused { IfErr result (λ e. e ≡ BuildError.WindowTooShort) }
        ensures log { IfOk result (λ log. log ≡ empty_log now (window / 10)) }
        ensures kept { IfOk result (λ log. Keeps log []) }
    {
        if window < 10 {
            return Err(BuildError::WindowTooShort);
        }
        Ok(ThroughputLogs::with_resolution(window / 10, now))
    }

    /// A log that starts now, with bins of so many ns.
    pub(crate) fn with_resolution(resolution: u64, now: u64) -> ThroughputLogs
        requires some { 0 < resolution }
        requires fits { 10 * resolution < 2 ^ 64 }
        ensures log { result ≡ empty_log now resolution }
        ensures kept { Keeps result [] }
    {
        ThroughputLogs {
            start: now,
            resolution,
            stream_complete: false,
            latest: 0,
            early: false,
            bins: BinRing::new(),
        }
    }

    /// The stream was polled, and had nothing.
    pub fn push_pending(&mut self, now: u64)
        ensures settings { SameSettings self.old self.new }
        ensures kept { (came : List Came) → Keeps self.old came
            → Keeps self.new (came ++ Pending now ∷ []) }
    {
        self.catch_up(now);
        self.add(Bin::PENDING);
    }

    /// The same, with each push of a bin counted by these steps.
    pub fn push_pending_counted<L: Ledger>(&mut self, now: u64, steps: &mut Steps<L>)
        ensures settings { SameSettings self.old self.new }
        ensures kept { (came : List Came) → Keeps self.old came
            → Keeps self.new (came ++ Pending now ∷ []) }
        ensures counted { steps.new ≡ steps.old + pushes_at self.old now }
        ensures cost { steps.new ≤ steps.old + 10 }
    {
        self.catch_up_counted(now, steps);
        self.add(Bin::PENDING);
    }

    /// The stream transferred so many bytes.
    pub fn push_bytes_transferred(&mut self, now: u64, bytes: u64)
        ensures settings { SameSettings self.old self.new }
        ensures kept { (came : List Came) → Keeps self.old came
            → Keeps self.new (came ++ Transferred now bytes ∷ []) }
    {
        self.catch_up(now);
        self.add(Bin::transferred(bytes));
    }

    /// The same, with each push of a bin counted by these steps.
    pub fn push_bytes_transferred_counted<L: Ledger>(
        &mut self,
        now: u64,
        bytes: u64,
        steps: &mut Steps<L>,
    )
        ensures settings { SameSettings self.old self.new }
        ensures kept { (came : List Came) → Keeps self.old came
            → Keeps self.new (came ++ Transferred now bytes ∷ []) }
        ensures counted { steps.new ≡ steps.old + pushes_at self.old now }
        ensures cost { steps.new ≤ steps.old + 10 }
    {
        self.catch_up_counted(now, steps);
        self.add(Bin::transferred(bytes));
    }

    /// The stream has ended. True at the first call.
    pub fn mark_complete(&mut self) -> bool
        ensures first { result ≡ not self.old.complete }
        ensures complete { self.new ≡ record self.old { complete = true } }
        ensures kept { (came : List Came) → Keeps self.old came → Keeps self.new came }
    {
        let first = !self.stream_complete;
        self.stream_complete = true;
        first
    }

    /// What the last ten bins say now.
    pub fn report(&mut self, now: u64) -> ThroughputReport
        ensures settings { SameSettings self.old self.new }
        ensures kept { (came : List Came) → Keeps self.old came
            → Keeps self.new (came ++ Looked now ∷ []) }
        ensures report { (came : List Came) → Keeps self.old came
            → result ≡ report_of self.old.start self.old.resolution self.old.complete came now }
    {
        self.catch_up(now);
        self.current_report()
    }

    /// The same, with each push of a bin counted by these steps.
    pub fn report_counted<L: Ledger>(&mut self, now: u64, steps: &mut Steps<L>) -> ThroughputReport
        ensures settings { SameSettings self.old self.new }
        ensures kept { (came : List Came) → Keeps self.old came
            → Keeps self.new (came ++ Looked now ∷ []) }
        ensures report { (came : List Came) → Keeps self.old came
            → result ≡ report_of self.old.start self.old.resolution self.old.complete came now }
        ensures counted { steps.new ≡ steps.old + pushes_at self.old now }
        ensures cost { steps.new ≤ steps.old + 10 }
    {
        self.catch_up_counted(now, steps);
        self.current_report()
    }

    /// What the bins say, as they are.
    fn current_report(&self) -> ThroughputReport
        ensures ten { length self.now.bins ≡ 10 }
        ensures shown { result ≡ shown self.now }
    {
        let judged = self.bins.judge(self.resolution);
        let needed = if self.early { 9 } else { 10 };
        if self.stream_complete {
            ThroughputReport::Complete
        } else if self.latest < needed {
            ThroughputReport::Incomplete
        } else {
            judged
        }
    }

    // Moves the bins on until the latest is that of the moment, where it is later.
    fn catch_up(&mut self, now: u64)
        ensures { CatchesUp self.old now self.new }
    {
        self.catch_up_from::<Brand>(now, Blank::new(1));
    }

    // The same, with a count that nobody sees.
    fn catch_up_from<L: Ledger>(&mut self, now: u64, blank: Blank)
        requires name { blank.name ≡ L.name }
        requires parts { blank.parts ≡ L.parts }
        requires some { 0 < blank.parts }
        ensures { CatchesUp self.old now self.new }
    {
        let mut steps = Steps::<L>::new(blank);
        self.catch_up_counted(now, &mut steps);
    }

    // The same, with each push of a bin counted by these steps.
    fn catch_up_counted<L: Ledger>(&mut self, now: u64, steps: &mut Steps<L>)
        ensures caught_up { CatchesUp self.old now self.new }
        ensures counted { steps.new ≡ steps.old + pushes_at self.old now }
        ensures cost { steps.new ≤ steps.old + 10 }
    {
        let bin = bin_of(self.start, self.resolution, now);
        if bin > self.latest {
            self.bins.advance(bin - self.latest, steps);
            self.latest = bin;
        }
    }

    /// Adds an event to the latest bin.
    fn add(&mut self, event: Bin)
        ensures { AddsEvent self.old event self.new }
    {
        self.bins.add(event);
        if self.latest == 0 {
            self.early = true;
        }
    }
}

/// The number of the bin of a moment: 0 before the start, 1 and up from the start on.
fn bin_of(start: u64, resolution: u64, now: u64) -> u128
    requires { 0 < resolution }
    ensures { result ≡ own_bin start resolution now }
{
    if now < start {
        0
    } else {
        u128::from((now - start) / resolution) + 1
    }
}

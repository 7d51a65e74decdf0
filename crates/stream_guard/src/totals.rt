//! What ten bins have together.
ghost use Rattle.std.specs.Prelude.{◌≡◌, ◌*◌, ◌^◌, ◌<◌, ◌-◌, min};
ghost use Rattle.stream_guard.specs.Totals.{Counts, exchanged, judged_totals, no_totals, one};

use crate::{Bin, Throughput, ThroughputReport};

/// How many of ten bins have each label, and the bytes of all.
#[derive(Clone, Copy)]
pub(crate) struct Totals {
    pub no_polling: usize,
    pub pending: usize,
    pub transferred: usize,
    pub bytes: u128,
}

/// How many bins are half of them.
const HALF: usize = 5;

impl Totals {
    /// The totals of bins in which nothing happened.
    pub(crate) fn of_no_polling() -> Totals
        ensures { result ≡ no_totals }
    {
        Totals {
            no_polling: 10,
            pending: 0,
            transferred: 0,
            bytes: 0,
        }
    }

    /// The totals where one bin goes and another comes.
    pub(crate) fn exchanged(self, old: Bin, new: Bin) -> Totals
        requires { Counts self old }
        ensures { result ≡ exchanged self old new }
    {
        Totals {
            no_polling: self.no_polling + one(new.label.is_no_polling())
                - one(old.label.is_no_polling()),
            pending: self.pending + one(new.label.is_pending()) - one(old.label.is_pending()),
            transferred: self.transferred + one(new.label.is_transferred())
                - one(old.label.is_transferred()),
            bytes: self.bytes + u128::from(new.bytes) - u128::from(old.bytes),
        }
    }

    /// What ten bins of so many ns each say.
    pub(crate) fn judge(self, resolution: u64) -> ThroughputReport
        requires { 10 * resolution < 2 ^ 64 }
        ensures { result ≡ judged_totals resolution self }
    {
        if self.transferred > 0 {
            let window = 10 * resolution;
            ThroughputReport::Transferred(Throughput::new(shown(self.bytes), window))
        } else if self.no_polling >= HALF {
            ThroughputReport::NoPolling
        } else if self.pending >= HALF {
            ThroughputReport::Pending
        } else {
            ThroughputReport::Incomplete
        }
    }
}

// How many that is.
fn one(counts: bool) -> usize
    ensures { result ≡ one counts }
{
    if counts { 1 } else { 0 }
}

// A sum of bytes as it is shown.
fn shown(bytes: u128) -> u64
    ensures { result ≡ min bytes (2 ^ 64 - 1) }
{
    if bytes < u128::from(u64::MAX) {
        bytes as u64
    } else {
        u64::MAX
    }
}

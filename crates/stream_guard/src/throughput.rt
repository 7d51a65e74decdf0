//! Rates: so many bytes over so many ns.
ghost use Rattle.std.specs.Prelude.{◌≡◌, ◌-◌, ◌*◌, ◌^◌, min};
ghost use Rattle.stream_guard.specs.Rate.{rate_cmp};

use std::cmp::Ordering;
use std::fmt;

/// One second, in ns.
const SECOND: u64 = 1_000_000_000;

/// So many bytes over so many ns. It compares as a rate does: 1 byte in 1 s equals 25 bytes in
/// 25 s, and over no time it counts as zero.
#[derive(Clone, Copy, Debug)]
pub struct Throughput {
    /// How many bytes.
    pub bytes_read: u64,
    /// In ns.
    pub per_time_elapsed: u64,
}

impl Throughput {
    ghost use Rattle.stream_guard.specs.Rate.{per_second, fraction_bytes, fraction_nanos};
    ghost use Rattle.stream_guard.specs.Rate.{thousandths_of};

    /// So many bytes over so many ns.
    pub const fn new(bytes_read: u64, per_time_elapsed: u64) -> Throughput
        ensures { result ≡ record { bytes_read = bytes_read; per_time_elapsed = per_time_elapsed } }
    {
        Throughput {
            bytes_read,
            per_time_elapsed,
        }
    }

    /// So many bytes in a second.
    pub const fn new_bytes_per_second(bytes: u64) -> Throughput
        ensures { result ≡ per_second bytes }
    {
        Throughput {
            bytes_read: bytes,
            per_time_elapsed: SECOND,
        }
    }

    /// So many thousand bytes in a second, at most `u64::MAX` bytes.
    pub const fn new_kilobytes_per_second(kilobytes: u64) -> Throughput
        ensures { result ≡ per_second (min (kilobytes * 1000) (2 ^ 64 - 1)) }
    {
        Throughput {
            bytes_read: kilobytes.saturating_mul(1000),
            per_time_elapsed: SECOND,
        }
    }

    /// So many million bytes in a second, at most `u64::MAX` bytes.
    pub const fn new_megabytes_per_second(megabytes: u64) -> Throughput
        ensures { result ≡ per_second (min (megabytes * 1000000) (2 ^ 64 - 1)) }
    {
        Throughput {
            bytes_read: megabytes.saturating_mul(1_000_000),
            per_time_elapsed: SECOND,
        }
    }

    /// The bytes of a fraction that equals the rate.
    fn fraction_bytes(self) -> u64
        ensures { result ≡ fraction_bytes self }
    {
        if self.per_time_elapsed == 0 {
            0
        } else {
            self.bytes_read
        }
    }

    /// The ns of that fraction, which aren't zero.
    fn fraction_nanos(self) -> u64
        ensures { result ≡ fraction_nanos self }
    {
        if self.per_time_elapsed == 0 {
            1
        } else {
            self.per_time_elapsed
        }
    }

    /// The rate in thousandths of a byte per second, rounded to the nearest, and a half up.
    fn thousandths(self) -> u128
        ensures { result ≡ thousandths_of self }
    {
        let bytes = u128::from(self.bytes_read);
        let nanos = u128::from(self.per_time_elapsed);
        if nanos == 0 {
            0
        } else {
            (2 * bytes * 1_000_000_000_000 + nanos) / (2 * nanos)
        }
    }
}

impl PartialEq for Throughput {
    ghost use Rattle.std.specs.Ordering.{eq_by_cmp};
    ghost use Rattle.stream_guard.specs.Rate.{rate_cmp};
    ghost use Rattle.stream_guard.specs.RateOrder.{rate_equal};

    ghost eq = { eq_by_cmp rate_cmp };

    ghost laws = { rate_equal };

    fn eq(&self, other: &Throughput) -> bool {
        order(*self, *other).is_eq()
    }
}

impl PartialOrd for Throughput {
    ghost use Rattle.std.specs.Ordering.{as_partial_cmp};
    ghost use Rattle.std.specs.Cmp.{partial_order_from_total};
    ghost use Rattle.stream_guard.specs.Rate.{rate_cmp};
    ghost use Rattle.stream_guard.specs.RateOrder.{rate_total};

    ghost partial_cmp = { as_partial_cmp rate_cmp };

    ghost laws = { partial_order_from_total rate_total };

    fn partial_cmp(&self, other: &Throughput) -> Option<Ordering> {
        Some(order(*self, *other))
    }
}

/// How two rates compare: by cross multiplication, with nothing rounded.
fn order(left: Throughput, right: Throughput) -> Ordering
    ensures { result ≡ rate_cmp left right }
{
    product(left.fraction_bytes(), right.fraction_nanos()).cmp(&product(
        right.fraction_bytes(),
        left.fraction_nanos(),
    ))
}

/// The product, which fits.
fn product(bytes: u64, nanos: u64) -> u128
    ensures { result ≡ bytes * nanos }
{
    u128::from(bytes) * u128::from(nanos)
}

impl From<(u64, u64)> for Throughput {
    ghost from_gives = { λ pair t. t ≡ record { bytes_read = pair.0; per_time_elapsed = pair.1 } };

    fn from(pair: (u64, u64)) -> Throughput {
        Throughput::new(pair.0, pair.1)
    }
}

impl fmt::Display for Throughput {
    ghost use Rattle.std.specs.Prelude.{Some};
    ghost use Rattle.stream_guard.specs.Rate.{rate_text};

    ghost output = { λ t. Some (rate_text t) };

    fn fmt<W: fmt::Write>(&self, f: &mut fmt::Formatter<W>) -> fmt::Result {
        let thousandths = self.thousandths();
        let whole = thousandths / 1000;
        let tenths = thousandths / 100 % 10;
        let hundredths = thousandths / 10 % 10;
        let rest = thousandths % 10;
        if rest != 0 {
            write!(f, "{whole}.{tenths}{hundredths}{rest} B/s")
        } else if hundredths != 0 {
            write!(f, "{whole}.{tenths}{hundredths} B/s")
        } else if tenths != 0 {
            write!(f, "{whole}.{tenths} B/s")
        } else {
            write!(f, "{whole} B/s")
        }
    }
}

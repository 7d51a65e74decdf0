//! The rates that streams are judged by.
ghost use Rattle.std.specs.Prelude.{◌≡◌, None, Some};
ghost use Rattle.body_guard.specs.Rates.{download_rate, is_below, upload_rate, violation};

use stream_guard::{Throughput, ThroughputReport};

/// The rate that a report says of a download, where it says one. One that was asked and had
/// nothing stands still.
pub(crate) fn download_rate(report: ThroughputReport) -> Option<Throughput>
    ensures { result ≡ download_rate report }
{
    match report {
        ThroughputReport::Pending => Some(Throughput::new_bytes_per_second(0)),
        ThroughputReport::Transferred(rate) => Some(rate),
        _ => None,
    }
}

/// The rate that a report says of an upload, where it says one. One that nobody asked for more
/// stands still.
pub(crate) fn upload_rate(report: ThroughputReport) -> Option<Throughput>
    ensures { result ≡ upload_rate report }
{
    match report {
        ThroughputReport::NoPolling => Some(Throughput::new_bytes_per_second(0)),
        ThroughputReport::Transferred(rate) => Some(rate),
        _ => None,
    }
}

/// The rate, where it is below the minimum.
pub(crate) fn violation(minimum: Throughput, rate: Option<Throughput>) -> Option<Throughput>
    ensures { result ≡ violation minimum rate }
{
    match rate {
        Some(rate) => {
            if is_below(rate, minimum) {
                Some(rate)
            } else {
                None
            }
        }
        None => None,
    }
}

fn is_below(rate: Throughput, minimum: Throughput) -> bool
    ensures { result ≡ is_below rate minimum }
{
    rate < minimum
}

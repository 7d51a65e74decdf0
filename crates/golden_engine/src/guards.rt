//! What the guards of bodies go by: what a log reports of a stream's last second, how rates print,
//! the length that a response declares, and how a body of another length ends.

use anyhow::Result;
use body_guard::{ContentLengthEnforcingBody, NoBody, extract_content_length};
use http_header::{HeaderMap, HeaderValue};
use smithy_types::{Blob, Body, BuildError, Headers, HttpResponse, OutOfMemory, Polled};
use std::alloc::Global;
use stream_guard::{BinLabel, Throughput, ThroughputLogs, ThroughputReport};

/// A millisecond, in nanoseconds.
const MILLISECOND: u64 = 1_000_000;

/// A second, in nanoseconds.
const SECOND: u64 = 1_000_000_000;

/// What comes to a log, at a moment in milliseconds.
#[derive(Clone, Copy)]
enum Came {
    /// There was nothing.
    Pending(u64),
    /// Ten bytes came.
    Bytes(u64),
}

/// A log with a window of a second: when it starts, what comes to it, and when it reports, in
/// milliseconds.
struct Logged {
    name: &'static str,
    start: u64,
    came: &'static [Came],
    reports: u64,
}

const LOGS: &[Logged] = &[
    Logged {
        name: "transfers among pending polls",
        start: 0,
        came: &[
            Came::Bytes(50),
            Came::Pending(150),
            Came::Pending(250),
            Came::Bytes(350),
            Came::Pending(450),
            Came::Pending(650),
            Came::Pending(750),
            Came::Pending(850),
        ],
        reports: 999,
    },
    Logged {
        name: "pending polls alone",
        start: 0,
        came: &[
            Came::Pending(50),
            Came::Pending(150),
            Came::Pending(250),
            Came::Pending(450),
            Came::Pending(650),
            Came::Pending(750),
            Came::Pending(850),
        ],
        reports: 999,
    },
    Logged {
        name: "nothing for two seconds",
        start: 0,
        came: &[],
        reports: 2000,
    },
    Logged {
        name: "less than a second",
        start: 0,
        came: &[Came::Pending(0), Came::Bytes(100)],
        reports: 300,
    },
    Logged {
        name: "a transfer, and a pending poll in its bin",
        start: 0,
        came: &[Came::Bytes(10), Came::Pending(20)],
        reports: 999,
    },
    Logged {
        name: "a transfer that was longer ago",
        start: 0,
        came: &[Came::Bytes(0), Came::Bytes(100), Came::Pending(900)],
        reports: 1050,
    },
    Logged {
        name: "a pending poll before the start",
        start: 1000,
        came: &[Came::Pending(0)],
        reports: 1899,
    },
    Logged {
        name: "nothing, at its start",
        start: 0,
        came: &[],
        reports: 0,
    },
    Logged {
        name: "a pending poll, and less than a second",
        start: 0,
        came: &[Came::Pending(0)],
        reports: 300,
    },
    Logged {
        name: "pending polls where each bin begins",
        start: 0,
        came: &[
            Came::Pending(0),
            Came::Pending(100),
            Came::Pending(200),
            Came::Pending(300),
            Came::Pending(400),
            Came::Pending(500),
            Came::Pending(600),
            Came::Pending(700),
            Came::Pending(800),
            Came::Pending(900),
        ],
        reports: 1000,
    },
    Logged {
        name: "pending polls where each bin ends",
        start: 0,
        came: &[
            Came::Pending(100),
            Came::Pending(200),
            Came::Pending(300),
            Came::Pending(400),
            Came::Pending(500),
            Came::Pending(600),
            Came::Pending(700),
            Came::Pending(800),
            Came::Pending(900),
            Came::Pending(1000),
        ],
        reports: 1000,
    },
    Logged {
        name: "transfers where each bin begins",
        start: 0,
        came: &[
            Came::Bytes(0),
            Came::Bytes(100),
            Came::Bytes(200),
            Came::Bytes(300),
            Came::Bytes(400),
            Came::Bytes(500),
            Came::Bytes(600),
            Came::Bytes(700),
            Came::Bytes(800),
            Came::Bytes(900),
        ],
        reports: 900,
    },
];

/// Rates, by bytes and nanoseconds.
const RATES: &[(u64, u64)] = &[
    (20, 1_000_000_000),
    (3, 2_000_000_000),
    (1, 4_000_000_000),
    (1, 3_000_000_000),
    (1, 2_000_000_000_000),
    (1, 2_001_000_000_000),
    (u64::MAX, 1),
    (5, 0),
];

/// The lengths that a response declares.
const LENGTHS: &[&[&str]] = &[&["123"], &[], &["123", "124"], &["-123.5"], &[""]];

/// How many letters a body has that come one by one, and how many are declared.
const BODIES: &[(u64, u64)] = &[(3, 10), (11, 5), (11, 11)];

/// Prints reports, rates, lengths and ends.
pub fn print(rt: &HostRuntime) -> Result<()> {
    for row in LOGS {
        let report = report_text(rt.alloc(), row)?;
        println!(rt; "a log, {}: {report}", row.name)?;
    }
    println!(rt; "a log of 9 ns: {:?}", log(9, 0).err())?;
    print_labels(rt)?;
    print_rates(rt)?;
    print_lengths(rt)?;
    print_ends(rt)
}

fn log(window: u64, start: u64) -> Result<ThroughputLogs, BuildError> {
    ThroughputLogs::new(window, start)
}

fn at(millis: u64) -> u64 {
    millis.saturating_mul(MILLISECOND)
}

fn report_text(alloc: Global, row: &Logged) -> Result<String> {
    let mut log = log(SECOND, at(row.start))?;
    push_all(&mut log, row.came);
    match report(&mut log, at(row.reports)) {
        ThroughputReport::Transferred(rate) => Ok(format!(in alloc; "{rate}")?),
        other => Ok(format!(in alloc; "{other:?}")?),
    }
}

fn push_all(log: &mut ThroughputLogs, came: &[Came]) {
    for one in came {
        push(log, *one);
    }
}

fn push(log: &mut ThroughputLogs, came: Came) {
    match came {
        Came::Pending(millis) => log.push_pending(at(millis)),
        Came::Bytes(millis) => log.push_bytes_transferred(at(millis), 10),
    }
}

fn report(log: &mut ThroughputLogs, now: u64) -> ThroughputReport {
    log.report(now)
}

// Which of two labels a bin has.
fn print_labels(rt: &HostRuntime) -> Result<()> {
    let pending = BinLabel::NoPolling.higher(BinLabel::Pending);
    let transferred = BinLabel::Pending.higher(BinLabel::TransferredBytes);
    println!(rt;
        "a pending poll goes before none: {}, and bytes go before it: {}",
        pending.is_pending(),
        transferred.is_transferred()
    )?;
    Ok(())
}

fn print_rates(rt: &HostRuntime) -> Result<()> {
    for (bytes, nanos) in RATES {
        println!(rt; "{bytes} bytes in {nanos} ns: {}", rate(*bytes, *nanos))?;
    }
    let first = rate(1, SECOND);
    let equal = first == rate(25, 25 * SECOND) && first == rate(100, 100 * SECOND);
    println!(rt; "1, 25 and 100 bytes in as many seconds are equal: {equal}")?;
    Ok(())
}

fn rate(bytes: u64, nanos: u64) -> Throughput {
    Throughput::new(bytes, nanos)
}

fn print_lengths(rt: &HostRuntime) -> Result<()> {
    for lengths in LENGTHS {
        let response = response(rt.alloc(), lengths)?;
        println!(rt;
            "lengths {lengths:?}: {:?}",
            extract_content_length(&response)
        )?;
    }
    Ok(())
}

fn response(alloc: Global, lengths: &[&'static str]) -> Result<HttpResponse> {
    let mut map = HeaderMap::new(alloc);
    for length in lengths {
        let value = HeaderValue::from_bytes(alloc, length.as_bytes())?;
        map.append("content-length", value)?;
    }
    Ok(HttpResponse {
        status: 200,
        headers: Headers::from_map(alloc, map)?,
        body: Body::Taken,
    })
}

fn print_ends(rt: &HostRuntime) -> Result<()> {
    for (letters, declared) in BODIES {
        let end = end_text(rt.alloc(), *letters, *declared)?;
        println!(rt; "{letters} letters, {declared} declared: {end}")?;
    }
    Ok(())
}

// What is answered at the end of a body of so many letters.
fn end_text(alloc: Global, letters: u64, declared: u64) -> Result<String> {
    let mut body = enforcing(declared);
    for _ in 0..letters {
        let letter = Blob::from_slice(alloc, b"a")?;
        let _ = judged(alloc, &mut body, Polled::Data(letter))?;
    }
    match &judged(alloc, &mut body, Polled::End)? {
        Polled::Failed(fault) => Ok(format!(in alloc; "{}", fault.text)?),
        other => Ok(format!(in alloc; "{other:?}")?),
    }
}

fn enforcing(declared: u64) -> ContentLengthEnforcingBody<NoBody> {
    ContentLengthEnforcingBody::wrap(NoBody, declared)
}

fn judged(
    alloc: Global,
    body: &mut ContentLengthEnforcingBody<NoBody>,
    frame: Polled,
) -> Result<Polled, OutOfMemory> {
    body.judge(alloc, frame)
}

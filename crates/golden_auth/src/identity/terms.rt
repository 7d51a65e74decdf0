//! When loaded identities expire.

use crate::identity::builders::terms_of;
use anyhow::Result;
use identity_cell::{LazyCacheBuilder, jitter, stored_expiry};

/// A buffer in nanoseconds, and a random word.
const JITTERS: [(u64, u64); 5] = [
    (10_000_000_000, 0),
    (10_000_000_000, 9223372036854775807),
    (10_000_000_000, u64::MAX),
    (0, u64::MAX),
    (u64::MAX, u64::MAX),
];

/// An identity, and the cache that keeps it. Times are in nanoseconds.
struct Row {
    expiration: Option<u64>,
    asked_at: u64,
    default_expiration: u64,
    buffer: u64,
    word: u64,
}

const ROWS: &[Row] = &[
    Row {
        expiration: Some(100_000_000_000),
        asked_at: 2_000_000_000,
        default_expiration: 900_000_000_000,
        buffer: 10_000_000_000,
        word: 0,
    },
    Row {
        expiration: None,
        asked_at: 2_000_000_000,
        default_expiration: 900_000_000_000,
        buffer: 10_000_000_000,
        word: 0,
    },
    Row {
        expiration: None,
        asked_at: 2_000_000_000,
        default_expiration: 900_000_000_000,
        buffer: 10_000_000_000,
        word: u64::MAX,
    },
    Row {
        expiration: Some(u64::MAX),
        asked_at: 0,
        default_expiration: 900_000_000_000,
        buffer: 10_000_000_000,
        word: u64::MAX,
    },
    Row {
        expiration: None,
        asked_at: u64::MAX,
        default_expiration: 900_000_000_000,
        buffer: 0,
        word: 0,
    },
];

// The expiry of the row, by the function and by a cache's numbers.
fn expiries(row: &Row) -> Result<(u64, u64)> {
    let builder = LazyCacheBuilder::new()
        .buffer_time(row.buffer)
        .default_expiration(row.default_expiration);
    let terms = terms_of(builder)?;
    let stored = stored_expiry(
        row.expiration,
        row.asked_at,
        row.default_expiration,
        row.buffer,
        row.word,
    );
    let by_terms = terms.expiry_of(row.expiration, row.asked_at, row.word);
    Ok((stored, by_terms))
}

fn print_row(rt: &HostRuntime, row: &Row) -> Result<()> {
    let (stored, by_terms) = expiries(row)?;
    println!(rt;
        "expiry {:?}, asked at {}, default {}, buffer {}, word {}: {stored}, {by_terms}",
        row.expiration, row.asked_at, row.default_expiration, row.buffer, row.word
    )?;
    Ok(())
}

/// Prints jitters and expiries.
pub fn print(rt: &HostRuntime) -> Result<()> {
    for (buffer, word) in JITTERS {
        println!(rt; "jitter of {buffer} by {word}: {}", jitter(buffer, word))?;
    }
    for row in ROWS {
        print_row(rt, row)?;
    }
    Ok(())
}

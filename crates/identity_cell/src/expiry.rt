//! When a loaded identity expires.
ghost use Rattle.std.specs.Prelude.{◌≡◌, ◌*◌, ◌/◌, ◌^◌, ◌≤◌};
ghost use Rattle.identity_cell.specs.Expiry.{stored_expiry};

/// The part of the buffer by which an expiry is put off, in nanoseconds: at random, by this word,
/// and at most half of the buffer.
pub fn jitter(buffer: u64, word: u64) -> u64
    ensures value { result ≡ buffer * word / 2 ^ 65 }
    ensures half { 2 * result ≤ buffer }
{
    (u128::from(buffer) * u128::from(word) / (1 << 65)) as u64
}

/// The moment in nanoseconds at which a loaded identity expires: its own expiration, or else so
/// long after the load was first asked for, and the jitter more. It stops at `u64::MAX`.
pub fn stored_expiry(
    expiration: Option<u64>,
    asked_at: u64,
    default_expiration: u64,
    buffer: u64,
    word: u64,
) -> u64
    ensures { result ≡ stored_expiry expiration asked_at default_expiration buffer word }
{
    let own = match expiration {
        Some(moment) => moment,
        None => asked_at.saturating_add(default_expiration),
    };
    own.saturating_add(jitter(buffer, word))
}

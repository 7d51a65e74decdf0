//! How long a further attempt waits.
ghost use Rattle.std.specs.Prelude.{◌≡◌, ◌*◌, ◌/◌, ◌≤◌, ◌<◌, ◌^◌};
ghost use Rattle.retry_policy.specs.Backoff.{
  asked_or_own,
  backoff_of,
  doubled,
  initial_by,
  is_throttling,
  is_v2_1,
  limited_or_asked,
  own_backoff,
  part_of,
  polls_for_long,
  within_five,
};

use smithy_types::{ErrorKind, RetryConfig, RetrySpec, RetrySpecVersion};

/// How far past the own backoff a delay of the service's is followed under version 2.1, in
/// nanoseconds.
const LONGEST_MORE: u64 = 5_000_000_000;

/// How often a backoff doubles at most.
const DOUBLINGS: u64 = 32;

pub(crate) fn is_throttling(kind: ErrorKind) -> bool
    ensures { result ≡ is_throttling kind }
{
    match kind {
        ErrorKind::ThrottlingError => true,
        ErrorKind::TransientError | ErrorKind::ServerError | ErrorKind::ClientError => false,
    }
}

/// Whether version 2.1 of the specification holds.
pub(crate) fn is_v2_1(spec: Option<RetrySpec>) -> bool
    ensures { result ≡ is_v2_1 spec }
{
    match spec {
        Some(spec) => match spec.version {
            RetrySpecVersion::V2_1 => true,
            RetrySpecVersion::V2_0 => false,
        },
        None => false,
    }
}

/// Whether the operation polls for long.
pub(crate) fn polls_for_long(spec: Option<RetrySpec>) -> bool
    ensures { result ≡ polls_for_long spec }
{
    match spec {
        Some(spec) => spec.long_polling,
        None => false,
    }
}

/// The backoff behind this attempt, by these delays of the limiter and of the service.
pub(crate) fn backoff(retry: RetryConfig, limited: Option<u64>, asked: Option<u64>, own: u64) -> u64
    ensures { result ≡ backoff_of retry limited asked own }
{
    if is_v2_1(retry.spec) {
        within_five(asked, own)
    } else {
        limited_or_asked(retry.max_backoff, limited, asked, own)
    }
}

/// The backoff behind this attempt where nobody asks for another.
pub(crate) fn own_backoff(retry: RetryConfig, kind: ErrorKind, attempt: u64, word: u64) -> u64
    ensures { result ≡ own_backoff retry kind attempt word }
{
    let initial = initial(retry.initial_backoff, kind, retry.spec);
    let whole = doubled(initial, attempt, retry.max_backoff);
    if retry.static_base {
        whole
    } else {
        part(whole, word)
    }
}

/// The first backoff.
fn initial(initial: u64, kind: ErrorKind, spec: Option<RetrySpec>) -> u64
    ensures { result ≡ initial_by initial kind spec }
{
    match spec {
        Some(spec) => {
            if is_throttling(kind) {
                initial
            } else {
                spec.non_throttling_initial_backoff
            }
        }
        None => initial,
    }
}

/// The first backoff, doubled with each attempt behind the first.
fn doubled(initial: u64, attempt: u64, longest: u64) -> u64
    ensures { result ≡ doubled initial attempt longest }
{
    let doublings = attempt.saturating_sub(1);
    if doublings >= DOUBLINGS {
        return longest;
    }
    times_power(initial, doublings).min(u128::from(longest)) as u64
}

/// A number times a power of two.
fn times_power(number: u64, doublings: u64) -> u128
    requires { doublings < 32 }
    ensures { result ≡ number * 2 ^ doublings }
{
    u128::from(number) * (1_u128 << doublings)
}

/// The part of a backoff that a word is of all words of 64 bits.
fn part(backoff: u64, word: u64) -> u64
    ensures { result ≡ backoff * word / 2 ^ 64 }
{
    (u128::from(backoff) * u128::from(word) / (1_u128 << 64)) as u64
}

/// The own backoff, or what the service asks for as far as five seconds past it.
fn within_five(asked: Option<u64>, own: u64) -> u64
    ensures { result ≡ within_five asked own }
{
    match asked {
        Some(asked) => own.max(asked.min(own.saturating_add(LONGEST_MORE))),
        None => own,
    }
}

/// The limiter's delay, else the service's, else the own backoff.
fn limited_or_asked(longest: u64, limited: Option<u64>, asked: Option<u64>, own: u64) -> u64
    ensures { result ≡ limited_or_asked longest limited asked own }
{
    match limited {
        Some(limited) => limited.min(longest),
        None => asked_or_own(longest, asked, own),
    }
}

fn asked_or_own(longest: u64, asked: Option<u64>, own: u64) -> u64
    ensures { result ≡ asked_or_own longest asked own }
{
    match asked {
        Some(asked) => asked.min(longest),
        None => own,
    }
}

//! Limits of heads.
ghost use Rattle.std.specs.Prelude.{◌≡◌, ◌+◌, ◌<◌, None, length, nat_le, sum_by, IfSome};
ghost use Rattle.http_header.specs.HeaderMap.{pairs};
ghost use Rattle.json_scripts.specs.Heads.{header_size, head_fits};

use http_header::HeaderMap;
use smithy_types::Headers;

/// The most headers of a head.
const HEADER_LIMIT: usize = 32;

/// The most bytes of a head's names and values together.
const HEAD_LIMIT: usize = 8192;

/// Whether a head has at most 32 headers, with at most 8 KiB of names and values together.
#[tactic(auto, unfolding(crate::specs::Heads::head_fits))]
pub fn head_fits(headers: &Headers) -> bool
    ensures { result ≡ head_fits headers.now }
{
    match headers.as_map() {
        Some(map) => map.len() <= HEADER_LIMIT && sizes_fit(map),
        None => true,
    }
}

// Whether the names and values are within their limit together.
#[tactic(auto, using(crate::proofs::HeadSizes::sizes))]
fn sizes_fit(map: &HeaderMap) -> bool
    ensures { result ≡ nat_le (sum_by header_size (pairs map.now)) 8192 }
{
    let mut room = HEAD_LIMIT;
    for (name, value) in map.iter() {
        match behind_header(room, name.as_bytes(), value.as_bytes()) {
            Some(left) => room = left,
            None => return false,
        }
    }
    true
}

// What is left of the room behind a header.
fn behind_header(room: usize, name: &[u8], value: &[u8]) -> Option<usize>
    ensures some { IfSome result (λ left. left + (length name.now + length value.now) ≡ room) }
    ensures none { result ≡ None → room < length name.now + length value.now }
{
    let behind_name = room.checked_sub(name.len())?;
    behind_name.checked_sub(value.len())
}

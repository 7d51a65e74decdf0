//! The length that a response declares of its body.
ghost use Rattle.std.specs.Prelude.{◌≡◌};
ghost use Rattle.body_guard.specs.Declaring.{DeclaresLength, ReadsLength, lengths};

use http_header::HeaderValue;
use smithy_types::HttpResponse;
use thiserror::Error;

/// Why a response declares no length that can be held to.
#[derive(Clone, Copy, Debug, PartialEq, Eq, Error)]
pub enum LengthFault {
    /// There are several lengths.
    #[error("the response has several content lengths")]
    Multiple,
    /// The length isn't a number of 64 bits.
    #[error("the content length is not a number")]
    NotANumber,
}

/// The length that the response declares, where it declares one.
pub fn extract_content_length(response: &HttpResponse) -> Result<Option<u64>, LengthFault>
    ensures { DeclaresLength (lengths response.now.headers) result }
{
    let Some(map) = response.headers.as_map() else {
        return Ok(None);
    };
    let mut values = map.get_all("content-length").iter();
    let Some(first) = values.next() else {
        return Ok(None);
    };
    if values.next().is_some() {
        return Err(LengthFault::Multiple);
    }
    read_length(first)
}

// The number that is the value of the one header.
fn read_length(value: &HeaderValue) -> Result<Option<u64>, LengthFault>
    ensures { ReadsLength value.now.bytes result }
{
    let Ok(text) = value.to_str() else {
        return Err(LengthFault::NotANumber);
    };
    let parsed = text.parse::<u64>();
    match parsed {
        Ok(length) => Ok(Some(length)),
        Err(_) => Err(LengthFault::NotANumber),
    }
}

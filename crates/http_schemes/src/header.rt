//! Signing by a header.
ghost use Rattle.std.specs.Prelude.{◌≡◌, IfOk};
ghost use Rattle.http_header.specs.HeaderMap.{insert, RefusesInsert};
ghost use Rattle.http_header.specs.FieldValue.{IsFieldValue};
ghost use Rattle.http_header.specs.FieldName.{IsFieldName};
ghost use Rattle.http_header.specs.Token.{lowercase};
ghost use Rattle.http_schemes.specs.Signing.{Unless, with_header, RefusesHeader, secret_value};
ghost use Rattle.http_schemes.specs.Signing.{SignsByHeader};

use auth_endpoint::Signed;
use http_header::{
    HeaderMap, HeaderMapError, HeaderName, HeaderNameError, HeaderValue, HeaderValueError,
};
use smithy_types::{Headers, HttpRequest, OutOfMemory, Text};
use std::alloc::Global;

// The name, if it is one.
fn read_name(alloc: Global, name: &[u8]) -> Result<Option<HeaderName>, OutOfMemory>
    ensures { IfOk result (Unless (¬ (IsFieldName name.now)) (lowercase name.now)) }
{
    match HeaderName::from_bytes(alloc, name) {
        Ok(name) => Ok(Some(name)),
        Err(HeaderNameError::Invalid) => Ok(None),
        Err(HeaderNameError::OutOfMemory) => Err(OutOfMemory),
    }
}

// The value, if it is one, marked so that `Debug` doesn't show it.
fn read_value(alloc: Global, value: &[u8]) -> Result<Option<HeaderValue>, OutOfMemory>
    ensures { IfOk result (Unless (¬ (IsFieldValue value.now)) (secret_value value.now)) }
{
    match HeaderValue::from_bytes(alloc, value) {
        Ok(mut value) => {
            value.set_sensitive(true);
            Ok(Some(value))
        }
        Err(HeaderValueError::Invalid) => Ok(None),
        Err(HeaderValueError::OutOfMemory) => Err(OutOfMemory),
    }
}

// The map of these headers, copied.
fn copied_map(alloc: Global, headers: &Headers) -> Result<HeaderMap, OutOfMemory>
    ensures { IfOk result (λ map. map ≡ headers.now) }
{
    match headers.as_map() {
        Some(map) => Ok(map.clone()?),
        None => Ok(HeaderMap::new(alloc)),
    }
}

// The map with the value in place of all those of the name, if there is room.
fn inserted(
    mut map: HeaderMap,
    name: HeaderName,
    value: HeaderValue,
) -> Result<Option<HeaderMap>, OutOfMemory>
    ensures { IfOk result (Unless (RefusesInsert map name) (insert map name value)) }
{
    match map.insert(name, value) {
        Ok(_) => Ok(Some(map)),
        Err(HeaderMapError::MaxSizeReached) => Ok(None),
        Err(HeaderMapError::OutOfMemory) => Err(OutOfMemory),
    }
}

// The map of these headers with the value in place of all those of the name, if it isn't refused.
fn signed_map(
    alloc: Global,
    headers: &Headers,
    name: &[u8],
    value: &[u8],
) -> Result<Option<HeaderMap>, OutOfMemory>
    ensures { IfOk result
        (Unless (RefusesHeader headers.now name.now value.now)
        (with_header headers.now name.now value.now)) }
{
    let Some(name) = read_name(alloc, name)? else {
        return Ok(None);
    };
    let Some(value) = read_value(alloc, value)? else {
        return Ok(None);
    };
    let map = copied_map(alloc, headers)?;
    inserted(map, name, value)
}

/// The request with the value in place of all those of the name, marked as sensitive, so that
/// `Debug` shows `** redacted **` for it. The refusal is `BadHeader`: the name or the value is none,
/// or the name is new and the map is full.
pub fn sign_by_header(
    alloc: Global,
    mut request: HttpRequest,
    name: &[u8],
    value: &[u8],
) -> Result<Signed, OutOfMemory>
    ensures { IfOk result (SignsByHeader name.now value.now request) }
{
    match signed_map(alloc, &request.headers, name, value)? {
        Some(map) => {
            request.headers = Headers::from_map(alloc, map)?;
            Ok(Signed::Request(request))
        }
        None => Ok(Signed::Failed(Text::from_static("BadHeader"))),
    }
}

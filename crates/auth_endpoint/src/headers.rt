//! The headers that an endpoint sets.
ghost use Rattle.std.specs.Prelude.{◌≡◌, ◌⊎◌, IfOk, IfErr, OnOk, fold};
ghost use Rattle.http_header.specs.HeaderMap.{append, RefusesAppend};
ghost use Rattle.http_header.specs.FieldValue.{IsFieldValue, plain_value};
ghost use Rattle.http_header.specs.FieldName.{IsFieldName};
ghost use Rattle.http_header.specs.Token.{lowercase};
ghost use Rattle.auth_endpoint.specs.Endpoint.{HasCause, RefusesSome, with_value, RefusesValue};
ghost use Rattle.auth_endpoint.specs.Endpoint.{with_header, RefusesHeader, with_headers};
ghost use Rattle.auth_endpoint.specs.Endpoint.{RefusesHeaders};

use crate::EndpointError;
use http_header::{
    HeaderMap, HeaderMapError, HeaderName, HeaderNameError, HeaderValue, HeaderValueError,
};
use smithy_types::{EndpointHeader, Headers, OutOfMemory, Text};
use std::alloc::Global;

fn read_name(alloc: Global, name: &Text) -> Result<HeaderName, EndpointError>
    ensures ok { IfOk result (λ n. (n ≡ lowercase name.now) × ¬ (¬ (IsFieldName name.now))) }
    ensures err { IfErr result (HasCause ⊥ ⊥ ⊥ ⊥ (¬ (IsFieldName name.now))) }
{
    match HeaderName::from_bytes(alloc, name.as_str().as_bytes()) {
        Ok(name) => Ok(name),
        Err(HeaderNameError::Invalid) => Err(EndpointError::BadHeader),
        Err(HeaderNameError::OutOfMemory) => Err(EndpointError::OutOfMemory),
    }
}

fn read_value(alloc: Global, value: &Text) -> Result<HeaderValue, EndpointError>
    ensures ok { IfOk result (λ v. (v ≡ plain_value value.now) × ¬ (¬ (IsFieldValue value.now))) }
    ensures err { IfErr result (HasCause ⊥ ⊥ ⊥ ⊥ (¬ (IsFieldValue value.now))) }
{
    match HeaderValue::from_bytes(alloc, value.as_str().as_bytes()) {
        Ok(value) => Ok(value),
        Err(HeaderValueError::Invalid) => Err(EndpointError::BadHeader),
        Err(HeaderValueError::OutOfMemory) => Err(EndpointError::OutOfMemory),
    }
}

// Puts a value behind those of the name.
fn push_value(
    map: &mut HeaderMap,
    name: &HeaderName,
    value: HeaderValue,
) -> Result<(), EndpointError>
    ensures ok { OnOk result
        ((map.new ≡ append map.old name.now value) × ¬ (RefusesAppend map.old name.now)) }
    ensures err { IfErr result (HasCause ⊥ ⊥ ⊥ ⊥ (RefusesAppend map.old name.now)) }
{
    match map.append(name, value) {
        Ok(_) => Ok(()),
        Err(HeaderMapError::MaxSizeReached) => Err(EndpointError::BadHeader),
        Err(HeaderMapError::OutOfMemory) => Err(EndpointError::OutOfMemory),
    }
}

// Reads a value, and puts it behind those of the name.
fn append_value(
    alloc: Global,
    map: &mut HeaderMap,
    name: &HeaderName,
    value: &Text,
) -> Result<(), EndpointError>
    ensures ok { OnOk result
        ((map.new ≡ with_value name.now map.old value.now)
        × ¬ (RefusesValue name.now map.old value.now)) }
    ensures err { IfErr result (HasCause ⊥ ⊥ ⊥ ⊥ (RefusesValue name.now map.old value.now)) }
{
    let value = read_value(alloc, value)?;
    push_value(map, name, value)
}

// Puts the values behind those of the name, in order.
fn append_values(
    alloc: Global,
    map: &mut HeaderMap,
    name: &HeaderName,
    values: &[Text],
) -> Result<(), EndpointError>
    ensures ok { OnOk result
        ((map.new ≡ fold (with_value name.now) map.old values.now)
        × ¬ (RefusesSome (with_value name.now) (RefusesValue name.now) map.old values.now)) }
    ensures err { IfErr result (HasCause ⊥ ⊥ ⊥ ⊥
        (RefusesSome (with_value name.now) (RefusesValue name.now) map.old values.now)) }
{
    for value in values {
        append_value(alloc, map, name, value)?;
    }
    Ok(())
}

// Sets a header in place of all those of its name.
fn set_header(
    alloc: Global,
    map: &mut HeaderMap,
    header: &EndpointHeader,
) -> Result<(), EndpointError>
    ensures ok { OnOk result
        ((map.new ≡ with_header map.old header.now) × ¬ (RefusesHeader map.old header.now)) }
    ensures err { IfErr result (HasCause ⊥ ⊥ ⊥ ⊥ (RefusesHeader map.old header.now)) }
{
    let name = read_name(alloc, &header.name)?;
    let _removed = map.remove(&name);
    append_values(alloc, map, &name, header.values.as_slice())
}

// The map of these headers, copied.
fn copied_map(alloc: Global, headers: &Headers) -> Result<HeaderMap, OutOfMemory>
    ensures { IfOk result (λ map. map ≡ headers.now) }
{
    match headers.as_map() {
        Some(map) => Ok(map.clone()?),
        None => Ok(HeaderMap::new(alloc)),
    }
}

/// These headers, and then each that the endpoint sets, in place of all those of its name.
pub(crate) fn set_headers(
    alloc: Global,
    headers: &Headers,
    added: &[EndpointHeader],
) -> Result<Headers, EndpointError>
    ensures ok { IfOk result (λ h. (h ≡ with_headers headers.now added.now)
        × ¬ (RefusesHeaders headers.now added.now)) }
    ensures err { IfErr result (HasCause ⊥ ⊥ ⊥ ⊥ (RefusesHeaders headers.now added.now)) }
{
    let mut map = copied_map(alloc, headers)?;
    for header in added {
        set_header(alloc, &mut map, header)?;
    }
    Ok(Headers::from_map(alloc, map)?)
}

//! Payloads, requests, responses, identities and endpoints.
ghost use Rattle.std.specs.Prelude.{◌≡◌, IfOk, IfErr, OnOk};
ghost use Rattle.std.specs.List.{list_all};
ghost use Rattle.http_header.specs.Token.{is_token_byte, is_value_byte};
ghost use Rattle.json_forms.specs.Forms.{optional_at};
ghost use Rattle.json_forms.specs.JsonData.{data_of};
ghost use Rattle.json_forms.specs.Lists.{list_of};
ghost use Rattle.json_forms.specs.Reading.{Reads};
ghost use Rattle.json_values.specs.Readings.{payload_at, is_field_name, field_name, field_value};
ghost use Rattle.json_values.specs.Readings.{header_at, header_items, headers_at, put_within};
ghost use Rattle.json_values.specs.Readings.{sent_at, body_at, request_at, response_at, identity_at};
ghost use Rattle.json_values.specs.Readings.{endpoint_header_at, endpoint_at};
ghost use Rattle.json_forms.specs.declared.read.ReadError.TheVariants.{Memory};
ghost use Rattle.json_forms.specs.View.{view, items_view};
ghost use Rattle.json_values.specs.Values.{payload_data, headers_data, body_data, request_data};
ghost use Rattle.json_values.specs.Values.{response_data};

use http_header::{HeaderMap, HeaderName, HeaderValue, is_token_char};
use json_forms::forms::{
    print_blob, print_bytes, read_blob, read_optional_number, read_optional_texts, read_tagged,
    read_texts, starts,
};
use json_forms::{Json, ReadError, Row, Value, read};
use smithy_types::{
    Body, Endpoint, EndpointHeader, Headers, HttpRequest, HttpResponse, Identity, List,
    OutOfMemory, Payload, Shared,
};
use std::alloc::Global;

/// How many headers of a head are kept: as many as a header map takes whatever their names.
const KEPT_HEADERS: usize = 24576;

/// A payload: its kind and its bytes.
#[tactic(auto, unfolding(crate::specs::Values::payload_data))]
pub fn print_payload(alloc: Global, payload: &Payload) -> Result<Json, OutOfMemory>
    ensures { IfOk result (λ j. data_of j ≡ payload_data payload.now) }
{
    let bytes = print_blob(alloc, &payload.bytes)?;
    Json::pair(alloc, Json::number(payload.kind as u64), bytes)
}

/// Headers: a name and a value each, the values of a name together.
pub fn print_headers(alloc: Global, headers: &Headers) -> Result<Json, OutOfMemory>
    ensures { IfOk result (λ j. data_of j ≡ headers_data headers.now) }
{
    match headers.as_map() {
        Some(map) => print_header_map(alloc, map),
        None => Ok(Row::new(alloc).finish()),
    }
}

/// The headers of a map.
#[tactic(auto, unfolding(crate::specs::Values::headers_data, crate::specs::Values::header_data))]
pub fn print_header_map(alloc: Global, map: &HeaderMap) -> Result<Json, OutOfMemory>
    ensures { IfOk result (λ j. data_of j ≡ headers_data map.now) }
{
    let mut row = Row::new(alloc);
    for (name, value) in map.iter() {
        let value = print_bytes(alloc, value.as_bytes())?;
        row.push(Json::tagged(alloc, name.as_str(), value)?)?;
    }
    Ok(row.finish())
}

/// A body.
#[tactic(auto, unfolding(crate::specs::Values::body_data))]
pub fn print_body(alloc: Global, body: &Body) -> Result<Json, OutOfMemory>
    ensures { IfOk result (λ j. data_of j ≡ body_data body.now) }
{
    match body {
        Body::Bytes(bytes) => print_blob(alloc, bytes),
        Body::Once(bytes) => Json::tagged(alloc, "Once", print_blob(alloc, bytes)?),
        Body::Taken => Ok(Json::null()),
    }
}

/// A request.
#[tactic(auto, unfolding(crate::specs::Values::request_data))]
pub fn print_request(alloc: Global, request: &HttpRequest) -> Result<Json, OutOfMemory>
    ensures { IfOk result (λ j. data_of j ≡ request_data request.now) }
{
    let method = Json::text(alloc, request.method.as_str())?;
    let uri = Json::text(alloc, request.uri.as_str())?;
    let headers = print_headers(alloc, &request.headers)?;
    let body = print_body(alloc, &request.body)?;
    Json::quadruple(alloc, method, uri, headers, body)
}

/// A response.
#[tactic(auto, unfolding(crate::specs::Values::response_data))]
pub fn print_response(alloc: Global, response: &HttpResponse) -> Result<Json, OutOfMemory>
    ensures { IfOk result (λ j. data_of j ≡ response_data response.now) }
{
    let headers = print_headers(alloc, &response.headers)?;
    let body = print_body(alloc, &response.body)?;
    Json::triple(alloc, Json::number(response.status as u64), headers, body)
}

/// A payload.
#[tactic(auto, unfolding(crate::specs::Readings::payload_at))]
pub fn read_payload(alloc: Global, value: &Value) -> Result<Payload, ReadError>
    ensures { Reads result (payload_at (view value.now)) }
{
    let (kind, bytes) = read::pair(value)?;
    let kind = read::number_32(kind)?;
    let bytes = read_blob(alloc, bytes)?;
    Ok(Payload { kind, bytes })
}

// Whether the bytes may name a header.
#[tactic(auto, unfolding(crate::specs::Readings::is_field_name))]
fn is_field_name(bytes: &[u8]) -> bool
    ensures { result ≡ is_field_name bytes.now }
{
    !bytes.is_empty() && bytes.len() <= 65535 && all_token_bytes(bytes)
}

fn all_token_bytes(bytes: &[u8]) -> bool
    ensures { result ≡ list_all is_token_byte bytes.now }
{
    bytes.iter().all(|byte| is_token_char(*byte))
}

// Whether the byte may stand in a header's value.
fn is_value_byte(byte: u8) -> bool
    ensures { result ≡ is_value_byte byte }
{
    byte == 9 || (32 <= byte && byte != 127)
}

fn all_value_bytes(bytes: &[u8]) -> bool
    ensures { result ≡ list_all is_value_byte bytes.now }
{
    bytes.iter().all(|byte| is_value_byte(*byte))
}

// A header's name. One that may be a name fails for want of memory alone.
#[tactic(auto, unfolding(crate::specs::Readings::field_name))]
fn header_name(alloc: Global, text: &str) -> Result<HeaderName, ReadError>
    ensures { Reads result (field_name text.now) }
{
    if !is_field_name(text.as_bytes()) {
        return Err(ReadError::Refused);
    }
    match HeaderName::from_bytes(alloc, text.as_bytes()) {
        Ok(name) => Ok(name),
        Err(_) => Err(ReadError::Memory),
    }
}

// A header's value. One that may be a value fails for want of memory alone.
#[tactic(auto, unfolding(crate::specs::Readings::field_value))]
fn header_value(alloc: Global, bytes: &[u8]) -> Result<HeaderValue, ReadError>
    ensures { Reads result (field_value bytes.now) }
{
    if !all_value_bytes(bytes) {
        return Err(ReadError::Refused);
    }
    match HeaderValue::from_bytes(alloc, bytes) {
        Ok(value) => Ok(value),
        Err(_) => Err(ReadError::Memory),
    }
}

// A header's name and value.
#[tactic(auto, unfolding(crate::specs::Readings::header_at))]
fn read_header(alloc: Global, value: &Value) -> Result<(HeaderName, HeaderValue), ReadError>
    ensures { Reads result (header_at (view value.now)) }
{
    let (name, value) = read::pair(value)?;
    let name = header_name(alloc, read::str(name)?)?;
    let bytes = read_blob(alloc, value)?;
    let value = header_value(alloc, bytes.as_slice())?;
    Ok((name, value))
}

/// The headers of a head. All are read, and so many are kept as a header map takes.
#[tactic(auto, unfolding(crate::specs::Readings::headers_at))]
pub fn read_headers(alloc: Global, value: &Value) -> Result<Headers, ReadError>
    ensures { Reads result (headers_at (view value.now)) }
{
    header_list(alloc, read::items(value)?)
}

// The headers of these items. An empty list takes no memory.
#[tactic(auto, unfolding(json_forms::specs::Lists::list_of))]
fn header_list(alloc: Global, items: &[Value]) -> Result<Headers, ReadError>
    ensures { Reads result (header_items (items_view items.now)) }
{
    match items {
        [] => Ok(Headers::new()),
        _ => Ok(Headers::from_map(alloc, header_items(alloc, items)?)?),
    }
}

#[tactic(auto, using(crate::proofs::HeaderReading::header_reading))]
fn header_items(alloc: Global, items: &[Value]) -> Result<HeaderMap, ReadError>
    ensures { Reads result (header_items (items_view items.now)) }
{
    let mut map = HeaderMap::new(alloc);
    for index in 0..items.len() {
        match read_header(alloc, &items[index]) {
            Ok((name, value)) => put_within(index, &mut map, name, value)?,
            Err(error) => return Err(error),
        }
    }
    Ok(map)
}

// Puts a header behind those of its name. Those that are kept fail for want of memory alone.
fn put_within(
    index: usize,
    map: &mut HeaderMap,
    name: HeaderName,
    value: HeaderValue,
) -> Result<(), ReadError>
    ensures ok { OnOk result (map.new ≡ put_within index map.old name value) }
    ensures err { IfErr result (λ e. e ≡ Memory) }
{
    if index >= KEPT_HEADERS {
        return Ok(());
    }
    match map.append(name, value) {
        Ok(_) => Ok(()),
        Err(_) => Err(ReadError::Memory),
    }
}

// A body that is there.
#[tactic(auto, unfolding(crate::specs::Readings::sent_at))]
fn read_sent(alloc: Global, value: &Value) -> Result<Body, ReadError>
    ensures { Reads result (sent_at (view value.now)) }
{
    if starts("Once", value) {
        let bytes = read_tagged("Once", value)?;
        return Ok(Body::Once(read_blob(alloc, bytes)?));
    }
    Ok(Body::Bytes(read_blob(alloc, value)?))
}

/// A body.
#[tactic(auto, unfolding(json_forms::specs::View::view, crate::specs::Readings::body_at))]
pub fn read_body(alloc: Global, value: &Value) -> Result<Body, ReadError>
    ensures { Reads result (body_at (view value.now)) }
{
    match value {
        Value::Null => Ok(Body::Taken),
        _ => read_sent(alloc, value),
    }
}

/// A request.
#[tactic(auto, unfolding(crate::specs::Readings::request_at))]
pub fn read_request(alloc: Global, value: &Value) -> Result<HttpRequest, ReadError>
    ensures { Reads result (request_at (view value.now)) }
{
    let (method, uri, headers, body) = read::quadruple(value)?;
    let method = read::text(alloc, method)?;
    let uri = read::text(alloc, uri)?;
    let headers = read_headers(alloc, headers)?;
    let body = read_body(alloc, body)?;
    Ok(HttpRequest {
        method,
        uri,
        headers,
        body,
    })
}

/// A response.
#[tactic(auto, unfolding(crate::specs::Readings::response_at))]
pub fn read_response(alloc: Global, value: &Value) -> Result<HttpResponse, ReadError>
    ensures { Reads result (response_at (view value.now)) }
{
    let (status, headers, body) = read::triple(value)?;
    let status = read::number_16(status)?;
    let headers = read_headers(alloc, headers)?;
    let body = read_body(alloc, body)?;
    Ok(HttpResponse {
        status,
        headers,
        body,
    })
}

/// An identity.
#[tactic(auto, unfolding(crate::specs::Readings::identity_at))]
pub fn read_identity(alloc: Global, value: &Value) -> Result<Identity, ReadError>
    ensures { Reads result (identity_at (view value.now)) }
{
    let (content, expiration) = read::pair(value)?;
    let content = read_blob(alloc, content)?;
    let expiration = read_optional_number(expiration)?;
    Ok(Identity {
        content,
        expiration,
    })
}

// A header of an endpoint.
#[tactic(auto, unfolding(crate::specs::Readings::endpoint_header_at))]
fn read_endpoint_header(alloc: Global, value: &Value) -> Result<EndpointHeader, ReadError>
    ensures { Reads result (endpoint_header_at (view value.now)) }
{
    let (name, values) = read::pair(value)?;
    let name = read::text(alloc, name)?;
    let values = read_texts(alloc, values)?;
    Ok(EndpointHeader { name, values })
}

#[tactic(auto, using(json_forms::proofs::ReadLists::list_reading))]
fn endpoint_headers(alloc: Global, items: &[Value]) -> Result<List<EndpointHeader>, ReadError>
    ensures { Reads result (list_of endpoint_header_at (items_view items.now)) }
{
    let mut list = List::new();
    for value in items {
        match read_endpoint_header(alloc, value) {
            Ok(header) => list.push(alloc, header)?,
            Err(error) => return Err(error),
        }
    }
    Ok(list)
}

/// An endpoint.
#[tactic(auto, unfolding(crate::specs::Readings::endpoint_at))]
pub fn read_endpoint(alloc: Global, value: &Value) -> Result<Endpoint, ReadError>
    ensures { Reads result (endpoint_at (view value.now)) }
{
    let (url, headers, schemes) = read::triple(value)?;
    let url = read::text(alloc, url)?;
    let headers = endpoint_headers(alloc, read::items(headers)?)?;
    let schemes = read_optional_texts(alloc, schemes)?;
    Ok(Endpoint {
        url,
        headers,
        schemes,
    })
}

/// An endpoint behind a shared handle, or null.
#[tactic(auto, unfolding(json_forms::specs::View::view, json_forms::specs::Forms::optional_at))]
pub fn read_optional_endpoint(
    alloc: Global,
    value: &Value,
) -> Result<Option<Shared<Endpoint>>, ReadError>
    ensures { Reads result (optional_at endpoint_at (view value.now)) }
{
    match value {
        Value::Null => Ok(None),
        _ => {
            let endpoint = read_endpoint(alloc, value)?;
            Ok(Some(Shared::new(alloc, endpoint)?))
        }
    }
}

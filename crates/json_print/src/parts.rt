//! Payloads, requests, responses, identities, endpoints, failures and outcomes as compact JSON
//! text.
ghost use Rattle.std.specs.Prelude.{[], ◌∷◌, OnOk, codes, map};
ghost use Rattle.json_forms.specs.Prints.{row, null_or, blob_data};
ghost use Rattle.json_print.specs.Written.{IsWritten};
ghost use Rattle.json_values.specs.Values.{payload_data, headers_data, body_data, request_data};
ghost use Rattle.json_values.specs.Values.{response_data, identity_data, endpoint_header_data};
ghost use Rattle.json_values.specs.Values.{endpoint_data, error_kind_data, connector_data};
ghost use Rattle.smithy_types.specs.Hooks.{hook_text};
ghost use Rattle.json_values.specs.Values.{fault_data, outcome_data};
ghost use Rattle.serde_json.specs.Data.{string};

use crate::forms::{
    begin_tagged, write_blob, write_bytes, write_comma_if, write_null, write_number,
    write_optional_number, write_optional_texts, write_tagged_blob, write_tagged_text, write_text,
    write_texts, write_word,
};
use http_header::HeaderMap;
use json_values::names::error_kind_name;
use smithy_types::{
    Body, ConnectorKind, Endpoint, EndpointHeader, ErrorKind, Fault, FaultKind, Headers, Hook,
    HttpRequest, HttpResponse, Identity, OutOfMemory, Outcome, Payload, Shared, Text,
};
use std::alloc::Global;

/// A payload: its kind and its bytes.
#[tactic(auto, unfolding(json_values::specs::Values::payload_data))]
pub(crate) fn write_payload(
    alloc: Global,
    payload: &Payload,
    out: &mut Vec<u8>,
) -> Result<(), OutOfMemory>
    ensures { OnOk result (IsWritten (payload_data payload.now) out.old.items out.new.items) }
{
    out.push(b'[')?;
    write_number(payload.kind as u64, out)?;
    out.push(b',')?;
    write_blob(alloc, &payload.bytes, out)?;
    out.push(b']')?;
    Ok(())
}

// Headers: a name and a value each, the values of a name together.
fn write_headers(alloc: Global, headers: &Headers, out: &mut Vec<u8>) -> Result<(), OutOfMemory>
    ensures { OnOk result (IsWritten (headers_data headers.now) out.old.items out.new.items) }
{
    match headers.as_map() {
        Some(map) => write_header_map(alloc, map, out),
        None => {
            out.extend_from_slice(b"[]")?;
            Ok(())
        }
    }
}

// The headers of a map.
#[tactic(auto, unfolding(json_values::specs::Values::headers_data, json_values::specs::Values::header_data))]
fn write_header_map(alloc: Global, map: &HeaderMap, out: &mut Vec<u8>) -> Result<(), OutOfMemory>
    ensures { OnOk result (IsWritten (headers_data map.now) out.old.items out.new.items) }
{
    out.push(b'[')?;
    let mut is_later = false;
    for (name, value) in map.iter() {
        write_comma_if(is_later, out)?;
        write_header(alloc, name.as_str(), value.as_bytes(), out)?;
        is_later = true;
    }
    out.push(b']')?;
    Ok(())
}

// A header's name and value.
fn write_header(
    alloc: Global,
    name: &str,
    value: &[u8],
    out: &mut Vec<u8>,
) -> Result<(), OutOfMemory>
    ensures { OnOk result (IsWritten (row (string name.now ∷ blob_data value.now ∷ []))
        out.old.items out.new.items) }
{
    out.push(b'[')?;
    write_text(name, out)?;
    out.push(b',')?;
    write_bytes(alloc, value, out)?;
    out.push(b']')?;
    Ok(())
}

// A body.
#[tactic(auto, unfolding(json_values::specs::Values::body_data, json::specs::Print::escape_byte))]
fn write_body(alloc: Global, body: &Body, out: &mut Vec<u8>) -> Result<(), OutOfMemory>
    ensures { OnOk result (IsWritten (body_data body.now) out.old.items out.new.items) }
{
    match body {
        Body::Bytes(bytes) => write_blob(alloc, bytes, out),
        Body::Once(bytes) => write_tagged_blob(alloc, "Once", bytes, out),
        Body::Taken => write_null(out),
    }
}

/// A request.
#[tactic(auto, unfolding(json_values::specs::Values::request_data))]
pub(crate) fn write_request(
    alloc: Global,
    request: &HttpRequest,
    out: &mut Vec<u8>,
) -> Result<(), OutOfMemory>
    ensures { OnOk result (IsWritten (request_data request.now) out.old.items out.new.items) }
{
    out.push(b'[')?;
    write_text(request.method.as_str(), out)?;
    out.push(b',')?;
    write_text(request.uri.as_str(), out)?;
    out.push(b',')?;
    write_headers(alloc, &request.headers, out)?;
    out.push(b',')?;
    write_body(alloc, &request.body, out)?;
    out.push(b']')?;
    Ok(())
}

/// A response.
#[tactic(auto, unfolding(json_values::specs::Values::response_data))]
pub(crate) fn write_response(
    alloc: Global,
    response: &HttpResponse,
    out: &mut Vec<u8>,
) -> Result<(), OutOfMemory>
    ensures { OnOk result (IsWritten (response_data response.now) out.old.items out.new.items) }
{
    out.push(b'[')?;
    write_number(response.status as u64, out)?;
    out.push(b',')?;
    write_headers(alloc, &response.headers, out)?;
    out.push(b',')?;
    write_body(alloc, &response.body, out)?;
    out.push(b']')?;
    Ok(())
}

/// An identity: its content, and when it expires.
#[tactic(auto, unfolding(json_values::specs::Values::identity_data))]
pub(crate) fn write_identity(
    alloc: Global,
    identity: &Identity,
    out: &mut Vec<u8>,
) -> Result<(), OutOfMemory>
    ensures { OnOk result (IsWritten (identity_data identity.now) out.old.items out.new.items) }
{
    out.push(b'[')?;
    write_blob(alloc, &identity.content, out)?;
    out.push(b',')?;
    write_optional_number(identity.expiration, out)?;
    out.push(b']')?;
    Ok(())
}

/// An endpoint.
#[tactic(auto, unfolding(json_values::specs::Values::endpoint_data))]
pub(crate) fn write_endpoint(endpoint: &Endpoint, out: &mut Vec<u8>) -> Result<(), OutOfMemory>
    ensures { OnOk result (IsWritten (endpoint_data endpoint.now) out.old.items out.new.items) }
{
    out.push(b'[')?;
    write_text(endpoint.url.as_str(), out)?;
    out.push(b',')?;
    write_endpoint_headers(endpoint.headers.as_slice(), out)?;
    out.push(b',')?;
    write_optional_texts(&endpoint.schemes, out)?;
    out.push(b']')?;
    Ok(())
}

// The headers of an endpoint.
fn write_endpoint_headers(headers: &[EndpointHeader], out: &mut Vec<u8>) -> Result<(), OutOfMemory>
    ensures { OnOk result (IsWritten (row (map endpoint_header_data headers.now))
        out.old.items out.new.items) }
{
    out.push(b'[')?;
    let mut is_later = false;
    for header in headers {
        write_comma_if(is_later, out)?;
        write_endpoint_header(header, out)?;
        is_later = true;
    }
    out.push(b']')?;
    Ok(())
}

// A header of an endpoint.
#[tactic(auto, unfolding(json_values::specs::Values::endpoint_header_data))]
fn write_endpoint_header(header: &EndpointHeader, out: &mut Vec<u8>) -> Result<(), OutOfMemory>
    ensures { OnOk result (IsWritten (endpoint_header_data header.now)
        out.old.items out.new.items) }
{
    out.push(b'[')?;
    write_text(header.name.as_str(), out)?;
    out.push(b',')?;
    write_texts(&header.values, out)?;
    out.push(b']')?;
    Ok(())
}

/// Null where there is no endpoint.
pub(crate) fn write_optional_endpoint(
    endpoint: &Option<Shared<Endpoint>>,
    out: &mut Vec<u8>,
) -> Result<(), OutOfMemory>
    ensures { OnOk result (IsWritten (null_or endpoint_data endpoint.now)
        out.old.items out.new.items) }
{
    match endpoint {
        Some(endpoint) => write_endpoint(endpoint.get(), out),
        None => write_null(out),
    }
}

/// A kind of error.
#[tactic(auto, unfolding(json_values::specs::Values::error_kind_data))]
pub(crate) fn write_error_kind(kind: ErrorKind, out: &mut Vec<u8>) -> Result<(), OutOfMemory>
    ensures { OnOk result (IsWritten (error_kind_data kind) out.old.items out.new.items) }
{
    write_text(error_kind_name(kind), out)
}

// Null where there is no kind.
fn write_optional_error_kind(kind: Option<ErrorKind>, out: &mut Vec<u8>) -> Result<(), OutOfMemory>
    ensures { OnOk result (IsWritten (null_or error_kind_data kind) out.old.items out.new.items) }
{
    match kind {
        Some(kind) => write_error_kind(kind, out),
        None => write_null(out),
    }
}

/// What failed in a connector.
#[tactic(auto, unfolding(json_values::specs::Values::connector_data, json::specs::Print::escape_byte))]
pub(crate) fn write_connector_kind(
    kind: ConnectorKind,
    out: &mut Vec<u8>,
) -> Result<(), OutOfMemory>
    ensures { OnOk result (IsWritten (connector_data kind) out.old.items out.new.items) }
{
    match kind {
        ConnectorKind::Timeout => write_word("Timeout", out),
        ConnectorKind::User => write_word("User", out),
        ConnectorKind::Io => write_word("Io", out),
        ConnectorKind::Other(kind) => {
            begin_tagged("Other", out)?;
            write_optional_error_kind(kind, out)?;
            out.push(b']')?;
            Ok(())
        }
    }
}

/// A failure: the parts of its kind, and its text.
#[tactic(auto, unfolding(json_values::specs::Values::fault_data, json_values::specs::Values::fault_parts, json::specs::Print::escape_byte))]
pub(crate) fn write_fault(
    alloc: Global,
    fault: &Fault,
    out: &mut Vec<u8>,
) -> Result<(), OutOfMemory>
    ensures { OnOk result (IsWritten (fault_data fault.now) out.old.items out.new.items) }
{
    match &fault.kind {
        FaultKind::Interceptor(hook) => write_fault_of_hook(*hook, &fault.text, out),
        FaultKind::Operation(payload) => write_fault_of_payload(alloc, payload, &fault.text, out),
        FaultKind::Connector(kind) => write_fault_of_connector(*kind, &fault.text, out),
        FaultKind::Timeout => write_tagged_text("Timeout", &fault.text, out),
        FaultKind::Response => write_tagged_text("Response", &fault.text, out),
        FaultKind::Other => write_tagged_text("Other", &fault.text, out),
    }
}

// The failure of a hook, with this text.
#[tactic(auto, unfolding(json::specs::Print::escape_byte))]
fn write_fault_of_hook(hook: Hook, text: &Text, out: &mut Vec<u8>) -> Result<(), OutOfMemory>
    ensures { OnOk result (IsWritten (row (string (codes "Interceptor") ∷ string (hook_text hook)
        ∷ string text.now ∷ [])) out.old.items out.new.items) }
{
    begin_tagged("Interceptor", out)?;
    write_text(hook.name(), out)?;
    out.push(b',')?;
    write_text(text.as_str(), out)?;
    out.push(b']')?;
    Ok(())
}

// A failure that the operation models, with this text.
#[tactic(auto, unfolding(json::specs::Print::escape_byte))]
fn write_fault_of_payload(
    alloc: Global,
    payload: &Payload,
    text: &Text,
    out: &mut Vec<u8>,
) -> Result<(), OutOfMemory>
    ensures { OnOk result (IsWritten (row (string (codes "Operation") ∷ payload_data payload.now
        ∷ string text.now ∷ [])) out.old.items out.new.items) }
{
    begin_tagged("Operation", out)?;
    write_payload(alloc, payload, out)?;
    out.push(b',')?;
    write_text(text.as_str(), out)?;
    out.push(b']')?;
    Ok(())
}

// The failure of a connector, with this text.
#[tactic(auto, unfolding(json::specs::Print::escape_byte))]
fn write_fault_of_connector(
    kind: ConnectorKind,
    text: &Text,
    out: &mut Vec<u8>,
) -> Result<(), OutOfMemory>
    ensures { OnOk result (IsWritten (row (string (codes "Connector") ∷ connector_data kind
        ∷ string text.now ∷ [])) out.old.items out.new.items) }
{
    begin_tagged("Connector", out)?;
    write_connector_kind(kind, out)?;
    out.push(b',')?;
    write_text(text.as_str(), out)?;
    out.push(b']')?;
    Ok(())
}

/// An outcome.
#[tactic(auto, unfolding(json_values::specs::Values::outcome_data, json::specs::Print::escape_byte))]
pub(crate) fn write_outcome(
    alloc: Global,
    outcome: &Outcome,
    out: &mut Vec<u8>,
) -> Result<(), OutOfMemory>
    ensures { OnOk result (IsWritten (outcome_data outcome.now) out.old.items out.new.items) }
{
    match outcome {
        Outcome::Output(payload) => {
            begin_tagged("Output", out)?;
            write_payload(alloc, payload, out)?;
        }
        Outcome::Failed(fault) => {
            begin_tagged("Failed", out)?;
            write_fault(alloc, fault, out)?;
        }
    }
    out.push(b']')?;
    Ok(())
}

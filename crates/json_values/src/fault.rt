//! Failures and outcomes.
ghost use Rattle.std.specs.Prelude.{◌≡◌, IfOk};
ghost use Rattle.json_forms.specs.Forms.{optional_at};
ghost use Rattle.json_forms.specs.JsonData.{data_of};
ghost use Rattle.json_forms.specs.Reading.{Reads};
ghost use Rattle.json_values.specs.Readings.{error_kind_at, connector_at, operation_fault_at};
ghost use Rattle.json_values.specs.Readings.{connector_fault_at, plain_fault_at, fault_at};
ghost use Rattle.json_values.specs.Readings.{outcome_at, change_at};
ghost use Rattle.json_forms.specs.View.{view};
ghost use Rattle.json_forms.specs.Prints.{null_or};
ghost use Rattle.json_values.specs.Values.{error_kind_data, connector_data, fault_data};
ghost use Rattle.json_values.specs.Values.{outcome_data, change_data};

use crate::http::{
    print_payload, print_request, print_response, read_payload, read_request, read_response,
};
use crate::names::{error_kind_name, error_kind_named};
use json_forms::forms::{read_tagged, read_word, says, starts};
use json_forms::{Json, ReadError, Value, read};
use smithy_context::Change;
use smithy_types::{ConnectorKind, ErrorKind, Fault, FaultKind, OutOfMemory, Outcome, Shared};
use std::alloc::Global;

/// Null where there is no kind.
#[tactic(auto, unfolding(crate::specs::Values::error_kind_data))]
pub fn print_optional_error_kind(
    alloc: Global,
    kind: Option<ErrorKind>,
) -> Result<Json, OutOfMemory>
    ensures { IfOk result (λ j. data_of j ≡ null_or error_kind_data kind) }
{
    match kind {
        Some(kind) => Json::text(alloc, error_kind_name(kind)),
        None => Ok(Json::null()),
    }
}

/// What failed in a connector.
#[tactic(auto, unfolding(crate::specs::Values::connector_data))]
pub fn print_connector_kind(alloc: Global, kind: ConnectorKind) -> Result<Json, OutOfMemory>
    ensures { IfOk result (λ j. data_of j ≡ connector_data kind) }
{
    match kind {
        ConnectorKind::Timeout => Json::text(alloc, "Timeout"),
        ConnectorKind::User => Json::text(alloc, "User"),
        ConnectorKind::Io => Json::text(alloc, "Io"),
        ConnectorKind::Other(kind) => {
            Json::tagged(alloc, "Other", print_optional_error_kind(alloc, kind)?)
        }
    }
}

/// A failure: the parts of its kind, and its text.
#[tactic(auto, unfolding(crate::specs::Values::fault_data, crate::specs::Values::fault_parts))]
pub fn print_fault(alloc: Global, fault: &Fault) -> Result<Json, OutOfMemory>
    ensures { IfOk result (λ j. data_of j ≡ fault_data fault.now) }
{
    let text = Json::text(alloc, fault.text.as_str())?;
    match &fault.kind {
        FaultKind::Interceptor(hook) => {
            let tag = Json::text(alloc, "Interceptor")?;
            Json::triple(alloc, tag, Json::text(alloc, hook.name())?, text)
        }
        FaultKind::Operation(payload) => {
            let tag = Json::text(alloc, "Operation")?;
            Json::triple(alloc, tag, print_payload(alloc, payload)?, text)
        }
        FaultKind::Connector(kind) => {
            let tag = Json::text(alloc, "Connector")?;
            Json::triple(alloc, tag, print_connector_kind(alloc, *kind)?, text)
        }
        FaultKind::Timeout => Json::tagged(alloc, "Timeout", text),
        FaultKind::Response => Json::tagged(alloc, "Response", text),
        FaultKind::Other => Json::tagged(alloc, "Other", text),
    }
}

/// An outcome.
#[tactic(auto, unfolding(crate::specs::Values::outcome_data))]
pub fn print_outcome(alloc: Global, outcome: &Outcome) -> Result<Json, OutOfMemory>
    ensures { IfOk result (λ j. data_of j ≡ outcome_data outcome.now) }
{
    match outcome {
        Outcome::Output(payload) => Json::tagged(alloc, "Output", print_payload(alloc, payload)?),
        Outcome::Failed(fault) => Json::tagged(alloc, "Failed", print_fault(alloc, fault)?),
    }
}

/// What a hook writes.
#[tactic(auto, unfolding(crate::specs::Values::change_data))]
pub fn print_change(alloc: Global, change: &Change) -> Result<Json, OutOfMemory>
    ensures { IfOk result (λ j. data_of j ≡ change_data change.now) }
{
    match change {
        Change::Input(payload) => {
            Json::tagged(alloc, "Input", print_payload(alloc, payload.get())?)
        }
        Change::Request(request) => {
            Json::tagged(alloc, "Request", print_request(alloc, request.get())?)
        }
        Change::Response(response) => {
            Json::tagged(alloc, "Response", print_response(alloc, response.get())?)
        }
        Change::Outcome(outcome) => {
            Json::tagged(alloc, "Outcome", print_outcome(alloc, outcome.get())?)
        }
    }
}

/// Null where there is no change.
pub fn print_optional_change(alloc: Global, change: &Option<Change>) -> Result<Json, OutOfMemory>
    ensures { IfOk result (λ j. data_of j ≡ null_or change_data change.now) }
{
    match change {
        Some(change) => print_change(alloc, change),
        None => Ok(Json::null()),
    }
}

/// A kind of error.
#[tactic(auto, unfolding(crate::specs::Readings::error_kind_at))]
pub fn read_error_kind(value: &Value) -> Result<ErrorKind, ReadError>
    ensures { Reads result (error_kind_at (view value.now)) }
{
    match error_kind_named(read::str(value)?) {
        Some(kind) => Ok(kind),
        None => Err(ReadError::Refused),
    }
}

/// A kind of error, or null.
#[tactic(auto, unfolding(json_forms::specs::View::view, json_forms::specs::Forms::optional_at))]
pub fn read_optional_error_kind(value: &Value) -> Result<Option<ErrorKind>, ReadError>
    ensures { Reads result (optional_at error_kind_at (view value.now)) }
{
    match value {
        Value::Null => Ok(None),
        _ => Ok(Some(read_error_kind(value)?)),
    }
}

/// What failed in a connector.
#[tactic(auto, unfolding(crate::specs::Readings::connector_at))]
pub fn read_connector_kind(value: &Value) -> Result<ConnectorKind, ReadError>
    ensures { Reads result (connector_at (view value.now)) }
{
    if says("Timeout", value) {
        return Ok(ConnectorKind::Timeout);
    }
    if says("User", value) {
        return Ok(ConnectorKind::User);
    }
    if says("Io", value) {
        return Ok(ConnectorKind::Io);
    }
    let kind = read_tagged("Other", value)?;
    Ok(ConnectorKind::Other(read_optional_error_kind(kind)?))
}

// A failure of the operation's model.
#[tactic(auto, unfolding(crate::specs::Readings::operation_fault_at))]
fn read_operation_fault(alloc: Global, value: &Value) -> Result<Fault, ReadError>
    ensures { Reads result (operation_fault_at (view value.now)) }
{
    let (tag, payload, text) = read::triple(value)?;
    read_word("Operation", tag)?;
    let payload = read_payload(alloc, payload)?;
    let text = read::text(alloc, text)?;
    Ok(Fault {
        kind: FaultKind::Operation(payload),
        text,
    })
}

// A failure of a connector.
#[tactic(auto, unfolding(crate::specs::Readings::connector_fault_at))]
fn read_connector_fault(alloc: Global, value: &Value) -> Result<Fault, ReadError>
    ensures { Reads result (connector_fault_at (view value.now)) }
{
    let (tag, kind, text) = read::triple(value)?;
    read_word("Connector", tag)?;
    let kind = read_connector_kind(kind)?;
    let text = read::text(alloc, text)?;
    Ok(Fault {
        kind: FaultKind::Connector(kind),
        text,
    })
}

// A failure whose kind has no part of its own.
#[tactic(auto, unfolding(crate::specs::Readings::plain_fault_at))]
fn read_plain_fault(alloc: Global, value: &Value) -> Result<Fault, ReadError>
    ensures { Reads result (plain_fault_at (view value.now)) }
{
    if starts("Timeout", value) {
        let text = read::text(alloc, read_tagged("Timeout", value)?)?;
        return Ok(Fault {
            kind: FaultKind::Timeout,
            text,
        });
    }
    if starts("Response", value) {
        let text = read::text(alloc, read_tagged("Response", value)?)?;
        return Ok(Fault {
            kind: FaultKind::Response,
            text,
        });
    }
    let text = read::text(alloc, read_tagged("Other", value)?)?;
    Ok(Fault {
        kind: FaultKind::Other,
        text,
    })
}

/// A failure. That of a hook can't be written.
#[tactic(auto, unfolding(crate::specs::Readings::fault_at))]
pub fn read_fault(alloc: Global, value: &Value) -> Result<Fault, ReadError>
    ensures { Reads result (fault_at (view value.now)) }
{
    if starts("Operation", value) {
        return read_operation_fault(alloc, value);
    }
    if starts("Connector", value) {
        return read_connector_fault(alloc, value);
    }
    read_plain_fault(alloc, value)
}

/// An outcome.
#[tactic(auto, unfolding(crate::specs::Readings::outcome_at))]
pub fn read_outcome(alloc: Global, value: &Value) -> Result<Outcome, ReadError>
    ensures { Reads result (outcome_at (view value.now)) }
{
    if starts("Output", value) {
        let output = read_tagged("Output", value)?;
        return Ok(Outcome::Output(read_payload(alloc, output)?));
    }
    let fault = read_tagged("Failed", value)?;
    Ok(Outcome::Failed(read_fault(alloc, fault)?))
}

/// What a hook writes.
#[tactic(auto, unfolding(crate::specs::Readings::change_at))]
pub fn read_change(alloc: Global, value: &Value) -> Result<Change, ReadError>
    ensures { Reads result (change_at (view value.now)) }
{
    if starts("Input", value) {
        let payload = read_tagged("Input", value)?;
        let payload = read_payload(alloc, payload)?;
        return Ok(Change::Input(Shared::new(alloc, payload)?));
    }
    if starts("Request", value) {
        let request = read_tagged("Request", value)?;
        let request = read_request(alloc, request)?;
        return Ok(Change::Request(Shared::new(alloc, request)?));
    }
    if starts("Response", value) {
        let response = read_tagged("Response", value)?;
        let response = read_response(alloc, response)?;
        return Ok(Change::Response(Shared::new(alloc, response)?));
    }
    let outcome = read_tagged("Outcome", value)?;
    let outcome = read_outcome(alloc, outcome)?;
    Ok(Change::Outcome(Shared::new(alloc, outcome)?))
}

/// What a hook writes, or null.
#[tactic(auto, unfolding(json_forms::specs::View::view, json_forms::specs::Forms::optional_at))]
pub fn read_optional_change(alloc: Global, value: &Value) -> Result<Option<Change>, ReadError>
    ensures { Reads result (optional_at change_at (view value.now)) }
{
    match value {
        Value::Null => Ok(None),
        _ => Ok(Some(read_change(alloc, value)?)),
    }
}

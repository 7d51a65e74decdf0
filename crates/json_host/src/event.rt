//! Readers of what came, as a host hands it in.
ghost use Rattle.json_forms.specs.View.{view, items_view};
ghost use Rattle.json_forms.specs.Lists.{list_of};
ghost use Rattle.json_forms.specs.Reading.{Reads};
ghost use Rattle.json_host.specs.Events.{broken_at, call_event_at, data_at, end_at, event_at};
ghost use Rattle.json_host.specs.Events.{events_at, failed_at, identity_event_at};
ghost use Rattle.json_host.specs.Events.{load_event_at, no_identity_at, response_event_at};
ghost use Rattle.json_host.specs.Events.{trailers_at};

use json_forms::forms::{read_blob, starts};
use json_forms::{ReadError, Value, read};
use json_values::fault::{read_connector_kind, read_fault};
use json_values::http::{read_headers, read_identity};
use outside_hosted::{HostEvent, HostFrame, HostIdentity, HostReply};
use smithy_types::List;
use std::alloc::Global;

// The head of a response.
#[tactic(auto, unfolding(crate::specs::Events::response_event_at))]
fn read_response(alloc: Global, value: &Value) -> Result<HostEvent, ReadError>
    ensures { Reads result (response_event_at (view value.now)) }
{
    let (_, call, status, headers) = read::quadruple(value)?;
    let call = read::number(call)?;
    let status = read::number_16(status)?;
    let headers = read_headers(alloc, headers)?;
    Ok(HostEvent::Reply(call, HostReply::Response { status, headers }))
}

// A request that wasn't sent, or to which no response came.
#[tactic(auto, unfolding(crate::specs::Events::failed_at))]
fn read_failed(alloc: Global, value: &Value) -> Result<HostEvent, ReadError>
    ensures { Reads result (failed_at (view value.now)) }
{
    let (_, call, kind, text) = read::quadruple(value)?;
    let call = read::number(call)?;
    let kind = read_connector_kind(kind)?;
    let text = read::text(alloc, text)?;
    Ok(HostEvent::Reply(call, HostReply::NoResponse(kind, text)))
}

// A piece of a body.
#[tactic(auto, unfolding(crate::specs::Events::data_at))]
fn read_data(alloc: Global, value: &Value) -> Result<HostEvent, ReadError>
    ensures { Reads result (data_at (view value.now)) }
{
    let (_, call, bytes) = read::triple(value)?;
    let call = read::number(call)?;
    let bytes = read_blob(alloc, bytes)?;
    Ok(HostEvent::Frame(call, HostFrame::Data(bytes)))
}

#[tactic(auto, unfolding(crate::specs::Events::trailers_at))]
fn read_trailers(value: &Value) -> Result<HostEvent, ReadError>
    ensures { Reads result (trailers_at (view value.now)) }
{
    let (_, call) = read::pair(value)?;
    let call = read::number(call)?;
    Ok(HostEvent::Frame(call, HostFrame::Trailers))
}

#[tactic(auto, unfolding(crate::specs::Events::end_at))]
fn read_end(value: &Value) -> Result<HostEvent, ReadError>
    ensures { Reads result (end_at (view value.now)) }
{
    let (_, call) = read::pair(value)?;
    let call = read::number(call)?;
    Ok(HostEvent::Frame(call, HostFrame::End))
}

// A body that broke off.
#[tactic(auto, unfolding(crate::specs::Events::broken_at))]
fn read_broken(alloc: Global, value: &Value) -> Result<HostEvent, ReadError>
    ensures { Reads result (broken_at (view value.now)) }
{
    let (_, call, fault) = read::triple(value)?;
    let call = read::number(call)?;
    let fault = read_fault(alloc, fault)?;
    Ok(HostEvent::Frame(call, HostFrame::Broken(fault)))
}

// An identity that was loaded.
#[tactic(auto, unfolding(crate::specs::Events::identity_event_at))]
fn read_loaded(alloc: Global, value: &Value) -> Result<HostEvent, ReadError>
    ensures { Reads result (identity_event_at (view value.now)) }
{
    let (_, scheme, identity) = read::triple(value)?;
    let scheme = read::text(alloc, scheme)?;
    let identity = read_identity(alloc, identity)?;
    Ok(HostEvent::Load(scheme, HostIdentity::Loaded(identity)))
}

// A load that failed, and why.
#[tactic(auto, unfolding(crate::specs::Events::no_identity_at))]
fn read_not_loaded(alloc: Global, value: &Value) -> Result<HostEvent, ReadError>
    ensures { Reads result (no_identity_at (view value.now)) }
{
    let (_, scheme, text) = read::triple(value)?;
    let scheme = read::text(alloc, scheme)?;
    let text = read::text(alloc, text)?;
    Ok(HostEvent::Load(scheme, HostIdentity::NotLoaded(text)))
}

// What came of a load.
#[tactic(auto, unfolding(crate::specs::Events::load_event_at))]
fn read_load_event(alloc: Global, value: &Value) -> Result<HostEvent, ReadError>
    ensures { Reads result (load_event_at (view value.now)) }
{
    if starts("identity", value) {
        return read_loaded(alloc, value);
    }
    if starts("no_identity", value) {
        return read_not_loaded(alloc, value);
    }
    Err(ReadError::Refused)
}

// What came of a body, or of a load.
#[tactic(auto, unfolding(crate::specs::Events::call_event_at))]
fn read_body_event(alloc: Global, value: &Value) -> Result<HostEvent, ReadError>
    ensures { Reads result (call_event_at (view value.now)) }
{
    if starts("data", value) {
        return read_data(alloc, value);
    }
    if starts("end", value) {
        return read_end(value);
    }
    if starts("trailers", value) {
        return read_trailers(value);
    }
    if starts("broken", value) {
        return read_broken(alloc, value);
    }
    read_load_event(alloc, value)
}

/// Something that came.
#[tactic(auto, unfolding(crate::specs::Events::event_at))]
pub fn read_event(alloc: Global, value: &Value) -> Result<HostEvent, ReadError>
    ensures { Reads result (event_at (view value.now)) }
{
    if starts("response", value) {
        return read_response(alloc, value);
    }
    if starts("failed", value) {
        return read_failed(alloc, value);
    }
    read_body_event(alloc, value)
}

#[tactic(auto, using(json_forms::proofs::ReadLists::list_reading))]
fn event_items(alloc: Global, items: &[Value]) -> Result<List<HostEvent>, ReadError>
    ensures { Reads result (list_of event_at (items_view items.now)) }
{
    let mut list = List::new();
    for value in items {
        match read_event(alloc, value) {
            Ok(event) => list.push(alloc, event)?,
            Err(error) => return Err(error),
        }
    }
    Ok(list)
}

/// What came, in order.
#[tactic(auto, unfolding(crate::specs::Events::events_at))]
pub fn read_events(alloc: Global, value: &Value) -> Result<List<HostEvent>, ReadError>
    ensures { Reads result (events_at (view value.now)) }
{
    event_items(alloc, read::items(value)?)
}

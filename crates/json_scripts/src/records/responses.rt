//! Readers of what comes of requests: frames, responses and failures.
ghost use Rattle.std.specs.Prelude.{◌≡◌};
ghost use Rattle.json_forms.specs.View.{view, items_view};
ghost use Rattle.json_forms.specs.Lists.{list_of};
ghost use Rattle.json_forms.specs.Reading.{Reads};
ghost use Rattle.json_scripts.specs.Records.Responses.{frame_at, frames_at, failed_record_at};
ghost use Rattle.json_scripts.specs.Records.Responses.{may_repeat, response_at, answered_record_at};
ghost use Rattle.json_scripts.specs.Records.Responses.{response_record_at, records_at};

use json_forms::forms::{read_blob, read_optional_number, read_word};
use json_forms::{ReadError, Value, read};
use json_values::fault::read_connector_kind;
use json_values::http::read_headers;
use outside_scripted::{Frame, RecordAnswer, ResponseRecord, ScriptedResponse};
use smithy_types::List;
use std::alloc::Global;

// A frame: its delay and its bytes.
#[tactic(auto, unfolding(crate::specs::Records::Responses::frame_at))]
fn read_frame(alloc: Global, value: &Value) -> Result<Frame, ReadError>
    ensures { Reads result (frame_at (view value.now)) }
{
    let (delay, bytes) = read::pair(value)?;
    let delay = read::number(delay)?;
    let bytes = read_blob(alloc, bytes)?;
    Ok(Frame { delay, bytes })
}

#[tactic(auto, using(json_forms::proofs::ReadLists::list_reading))]
fn frame_items(alloc: Global, items: &[Value]) -> Result<List<Frame>, ReadError>
    ensures { Reads result (list_of frame_at (items_view items.now)) }
{
    let mut list = List::new();
    for value in items {
        match read_frame(alloc, value) {
            Ok(frame) => list.push(alloc, frame)?,
            Err(error) => return Err(error),
        }
    }
    Ok(list)
}

// The frames of a body.
#[tactic(auto, unfolding(crate::specs::Records::Responses::frames_at))]
fn read_frames(alloc: Global, value: &Value) -> Result<List<Frame>, ReadError>
    ensures { Reads result (frames_at (view value.now)) }
{
    frame_items(alloc, read::items(value)?)
}

// A request that fails, and after which delay.
#[tactic(auto, unfolding(crate::specs::Records::Responses::failed_record_at))]
fn read_failed_record(alloc: Global, value: &Value) -> Result<ResponseRecord, ReadError>
    ensures { Reads result (failed_record_at (view value.now)) }
{
    let (delay, failure) = read::pair(value)?;
    let delay = read::number(delay)?;
    let (tag, kind, text) = read::triple(failure)?;
    read_word("Failed", tag)?;
    let kind = read_connector_kind(kind)?;
    let text = read::text(alloc, text)?;
    let answer = RecordAnswer::Failed(kind, text);
    Ok(ResponseRecord { delay, answer })
}

// Frames that begin again at their end are at least one.
#[tactic(auto, unfolding(crate::specs::Records::Responses::may_repeat))]
fn may_repeat(repeat: bool, frames: &List<Frame>) -> Result<(), ReadError>
    ensures { Reads result (may_repeat repeat frames.now) }
{
    if repeat && frames.is_empty() {
        Err(ReadError::Refused)
    } else {
        Ok(())
    }
}

// A response, of the items behind its delay.
#[tactic(auto, unfolding(crate::specs::Records::Responses::response_at))]
fn read_response(
    alloc: Global,
    status: &Value,
    headers: &Value,
    frames: &Value,
    repeat: &Value,
    clock: &Value,
) -> Result<ScriptedResponse, ReadError>
    ensures { Reads result (response_at (view status.now) (view headers.now) (view frames.now)
        (view repeat.now) (view clock.now)) }
{
    let status = read::number_16(status)?;
    let repeat = read::boolean(repeat)?;
    let clock = read_optional_number(clock)?;
    let headers = read_headers(alloc, headers)?;
    let frames = read_frames(alloc, frames)?;
    may_repeat(repeat, &frames)?;
    Ok(ScriptedResponse {
        status,
        headers,
        frames,
        repeat,
        clock,
    })
}

// A request that is answered, and after which delay.
#[tactic(auto, unfolding(crate::specs::Records::Responses::answered_record_at))]
fn read_answered_record(alloc: Global, value: &Value) -> Result<ResponseRecord, ReadError>
    ensures { Reads result (answered_record_at (view value.now)) }
{
    let (delay, status, headers, frames, repeat, clock) = read::sextuple(value)?;
    let delay = read::number(delay)?;
    let response = read_response(alloc, status, headers, frames, repeat, clock)?;
    let answer = RecordAnswer::Response(response);
    Ok(ResponseRecord { delay, answer })
}

/// What comes of a request, and after which delay.
#[tactic(auto, unfolding(crate::specs::Records::Responses::response_record_at))]
pub fn read_response_record(alloc: Global, value: &Value) -> Result<ResponseRecord, ReadError>
    ensures { Reads result (response_record_at (view value.now)) }
{
    match read_failed_record(alloc, value) {
        Ok(failed) => Ok(failed),
        Err(ReadError::Memory) => Err(ReadError::Memory),
        Err(ReadError::Refused) => read_answered_record(alloc, value),
    }
}

#[tactic(auto, using(json_forms::proofs::ReadLists::list_reading))]
fn record_items(alloc: Global, items: &[Value]) -> Result<List<ResponseRecord>, ReadError>
    ensures { Reads result (list_of response_record_at (items_view items.now)) }
{
    let mut list = List::new();
    for value in items {
        match read_response_record(alloc, value) {
            Ok(read) => list.push(alloc, read)?,
            Err(error) => return Err(error),
        }
    }
    Ok(list)
}

/// What comes of the requests of an invocation, in order.
#[tactic(auto, unfolding(crate::specs::Records::Responses::records_at))]
pub fn read_records(alloc: Global, value: &Value) -> Result<List<ResponseRecord>, ReadError>
    ensures { Reads result (records_at (view value.now)) }
{
    record_items(alloc, read::items(value)?)
}

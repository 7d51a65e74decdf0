//! What a host says, and the reader of it.
ghost use Rattle.std.specs.Prelude.{IfOk, IsErrOf};
ghost use Rattle.json_forms.specs.View.{view, items_view};
ghost use Rattle.json_forms.specs.Reading.{Reads};
ghost use Rattle.json_host.specs.Messages.{IsMessage, alone_at, give_up_at, invoke_at};
ghost use Rattle.json_host.specs.Messages.{message_at, moment_at, only_item, seat_message_at, stop_at};

use crate::event::read_events;
use json_forms::forms::starts;
use json_forms::{Arena, ReadError, Value, read};
use json_values::http::read_payload;
use json_values::names::stop_named;
use outside_hosted::HostEvent;
use smithy_types::{List, Payload, StopPoint};
use std::alloc::Global;

/// A run that is begun.
#[derive(Drop)]
pub struct HostInvocation {
    /// The present moment, in nanoseconds.
    pub moment: u64,
    /// The input.
    pub input: Payload,
    /// The most calls.
    pub fuel: u64,
    /// Where the run stops.
    pub stop: StopPoint,
    /// Whether its log is told.
    pub is_logged: bool,
}

/// What a host says for a seat, which is a client and its run.
#[derive(Drop)]
pub enum SeatMessage {
    /// The client is invoked.
    Invoke(HostInvocation),
    /// The present moment in nanoseconds, and what came since, in order.
    At(u64, List<HostEvent>),
    /// The caller of the run lost interest, at this moment in nanoseconds.
    GiveUp(u64),
}

/// What a host says.
#[derive(Drop)]
pub enum HostMessage {
    /// For the seat of this number.
    Seat(u64, SeatMessage),
    /// What the buckets hold is wanted.
    Sums,
    /// There is nothing more.
    Close,
}

// The stop point of this name.
#[tactic(auto, unfolding(crate::specs::Messages::stop_at))]
fn read_stop(value: &Value) -> Result<StopPoint, ReadError>
    ensures { Reads result (stop_at (view value.now)) }
{
    match stop_named(read::str(value)?) {
        Some(stop) => Ok(stop),
        None => Err(ReadError::Refused),
    }
}

// A client is invoked.
#[tactic(auto, unfolding(crate::specs::Messages::invoke_at))]
fn read_invoke(alloc: Global, value: &Value) -> Result<HostMessage, ReadError>
    ensures { Reads result (invoke_at (view value.now)) }
{
    let (_, seat, moment, input, fuel, stop, log) = read::septuple(value)?;
    let seat = read::number(seat)?;
    let moment = read::number(moment)?;
    let fuel = read::number(fuel)?;
    let stop = read_stop(stop)?;
    let is_logged = read::boolean(log)?;
    let input = read_payload(alloc, input)?;
    let invocation = HostInvocation {
        moment,
        input,
        fuel,
        stop,
        is_logged,
    };
    Ok(HostMessage::Seat(seat, SeatMessage::Invoke(invocation)))
}

// The moment, and what came.
#[tactic(auto, unfolding(crate::specs::Messages::moment_at))]
fn read_moment(alloc: Global, value: &Value) -> Result<HostMessage, ReadError>
    ensures { Reads result (moment_at (view value.now)) }
{
    let (_, seat, moment, events) = read::quadruple(value)?;
    let seat = read::number(seat)?;
    let moment = read::number(moment)?;
    let events = read_events(alloc, events)?;
    Ok(HostMessage::Seat(seat, SeatMessage::At(moment, events)))
}

// A run is given up.
#[tactic(auto, unfolding(crate::specs::Messages::give_up_at))]
fn read_give_up(value: &Value) -> Result<HostMessage, ReadError>
    ensures { Reads result (give_up_at (view value.now)) }
{
    let (_, seat, moment) = read::triple(value)?;
    let seat = read::number(seat)?;
    let moment = read::number(moment)?;
    Ok(HostMessage::Seat(seat, SeatMessage::GiveUp(moment)))
}

// One item alone.
#[tactic(auto, using(crate::proofs::OneItem::one_item, crate::proofs::OneItem::not_one))]
fn only_item(items: &[Value]) -> Result<(), ReadError>
    ensures { Reads result (only_item (items_view items.now)) }
{
    if items.len() == 1 {
        Ok(())
    } else {
        Err(ReadError::Refused)
    }
}

// This message, where nothing stands beside its word.
#[tactic(auto, unfolding(crate::specs::Messages::alone_at))]
fn read_alone(message: HostMessage, value: &Value) -> Result<HostMessage, ReadError>
    ensures { Reads result (alone_at message (view value.now)) }
{
    only_item(read::items(value)?)?;
    Ok(message)
}

// The message for a seat that the value is. Refused where it is none.
#[tactic(auto, unfolding(crate::specs::Messages::seat_message_at))]
fn read_seat_message(alloc: Global, value: &Value) -> Result<HostMessage, ReadError>
    ensures { Reads result (seat_message_at (view value.now)) }
{
    if starts("at", value) {
        return read_moment(alloc, value);
    }
    if starts("invoke", value) {
        return read_invoke(alloc, value);
    }
    if starts("give_up", value) {
        return read_give_up(value);
    }
    Err(ReadError::Refused)
}

// The message that the value is. Refused where it is none.
#[tactic(auto, unfolding(crate::specs::Messages::message_at))]
fn read_value(alloc: Global, value: &Value) -> Result<HostMessage, ReadError>
    ensures { Reads result (message_at (view value.now)) }
{
    if starts("sums", value) {
        return read_alone(HostMessage::Sums, value);
    }
    if starts("close", value) {
        return read_alone(HostMessage::Close, value);
    }
    read_seat_message(alloc, value)
}

/// The message that a line is the text of, without its line feed. It is refused exactly where the
/// line is the text of none. The arena's memory is used for what the line holds.
pub fn read_message(alloc: Global, arena: &mut Arena, line: &[u8]) -> Result<HostMessage, ReadError>
    ensures found { IfOk result (λ m. IsMessage line.now m) }
    ensures refused { IsErrOf result ReadError.Refused → (m : HostMessage) →
        IsMessage line.now m → ⊥ }
{
    let value = arena.read(line)?;
    read_value(alloc, &value)
}

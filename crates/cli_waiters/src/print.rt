//! The print of waiters.
ghost use Rattle.std.specs.Prelude.{◌≡◌, ◌++◌, IfOk, OnOk, option_map};
ghost use Rattle.std.specs.List.{list_all};
ghost use Rattle.json_forms.specs.JsonData.{data_of};
ghost use Rattle.cli_waiters.specs.Print.{bucket_data, came_to, end_data, end_name, event_data};
ghost use Rattle.cli_waiters.specs.Print.{events_text, fleet_text, is_well, line_of, poll_data};
ghost use Rattle.cli_waiters.specs.Print.{refusal_data, sleep_data};

use cli_shell::status::PrintStatus;
use json_forms::Json;
use json_values::note::print_sums;
use smithy_types::{OutOfMemory, Sums};
use std::alloc::Global;
use waiter_fleet::{FleetEnd, FleetEvent};

/// The whole print: the lines of the events, and the sums of the bucket.
#[tactic(auto, unfolding(crate::specs::Print::fleet_text))]
pub fn print_fleet(alloc: Global, events: &[FleetEvent], sums: Sums) -> Result<Vec<u8>, OutOfMemory>
    ensures { IfOk result (λ v. v.items ≡ fleet_text events.now sums) }
{
    let mut out = Vec::new(alloc);
    print_events(alloc, events, &mut out)?;
    print_bucket(alloc, sums)?.write_line(alloc, &mut out)?;
    Ok(out)
}

// The lines of the events.
fn print_events(alloc: Global, events: &[FleetEvent], out: &mut Vec<u8>) -> Result<(), OutOfMemory>
    ensures { OnOk result (out.new.items ≡ out.old.items ++ events_text events.now) }
{
    for event in events {
        write_event(alloc, event, out)?;
    }
    Ok(())
}

// The line of an event, if it has one.
fn write_event(alloc: Global, event: &FleetEvent, out: &mut Vec<u8>) -> Result<(), OutOfMemory>
    ensures { OnOk result (out.new.items ≡ out.old.items ++ line_of (event_data event.now)) }
{
    match print_event(alloc, event)? {
        Some(json) => json.write_line(alloc, out),
        None => Ok(()),
    }
}

// An event with its waiter. A charge and a delay of 0 aren't printed.
#[tactic(auto, unfolding(crate::specs::Print::event_data))]
fn print_event(alloc: Global, event: &FleetEvent) -> Result<Option<Json>, OutOfMemory>
    ensures { IfOk result (λ j. option_map data_of j ≡ event_data event.now) }
{
    match event {
        FleetEvent::Poll {
            waiter,
            number,
            moment,
            ..
        } => Ok(Some(print_poll(alloc, *waiter, *number, *moment)?)),
        FleetEvent::Sleep { waiter, nanos, .. } => print_sleep(alloc, *waiter, *nanos),
        FleetEvent::Charged { .. } => Ok(None),
        FleetEvent::Refused { waiter, cost, .. } => Ok(Some(print_refusal(alloc, *waiter, *cost)?)),
        FleetEvent::End { waiter, end } => Ok(Some(print_end(alloc, *waiter, *end)?)),
    }
}

// A poll with its waiter, number and moment.
#[tactic(auto, unfolding(crate::specs::Print::poll_data))]
fn print_poll(alloc: Global, waiter: u32, number: u32, moment: u64) -> Result<Json, OutOfMemory>
    ensures { IfOk result (λ j. data_of j ≡ poll_data waiter number moment) }
{
    let word = Json::text(alloc, "poll")?;
    Json::quadruple(
        alloc,
        word,
        Json::number(waiter as u64),
        Json::number(number as u64),
        Json::number(moment),
    )
}

// A sleep with its waiter and its nanoseconds, if it has any.
#[tactic(auto, unfolding(crate::specs::Print::sleep_data))]
fn print_sleep(alloc: Global, waiter: u32, nanos: u64) -> Result<Option<Json>, OutOfMemory>
    ensures { IfOk result (λ j. option_map data_of j ≡ sleep_data waiter nanos) }
{
    if nanos == 0 {
        return Ok(None);
    }
    let word = Json::text(alloc, "sleep")?;
    Ok(Some(Json::triple(
        alloc,
        word,
        Json::number(waiter as u64),
        Json::number(nanos),
    )?))
}

// A refusal with its waiter and what the poll would have cost.
#[tactic(auto, unfolding(crate::specs::Print::refusal_data))]
fn print_refusal(alloc: Global, waiter: u32, cost: u32) -> Result<Json, OutOfMemory>
    ensures { IfOk result (λ j. data_of j ≡ refusal_data waiter cost) }
{
    let word = Json::text(alloc, "refused")?;
    Json::triple(
        alloc,
        word,
        Json::number(waiter as u64),
        Json::number(cost as u64),
    )
}

// An end with its waiter and its name.
#[tactic(auto, unfolding(crate::specs::Print::end_data))]
fn print_end(alloc: Global, waiter: u32, end: FleetEnd) -> Result<Json, OutOfMemory>
    ensures { IfOk result (λ j. data_of j ≡ end_data waiter end) }
{
    let word = Json::text(alloc, "end")?;
    let name = Json::text(alloc, end_name(end))?;
    Json::triple(alloc, word, Json::number(waiter as u64), name)
}

// The name of an end.
#[tactic(auto, unfolding(crate::specs::Print::end_name))]
fn end_name(end: FleetEnd) -> &'static str
    ensures { result.now ≡ end_name end }
{
    match end {
        FleetEnd::Ok => "Ok",
        FleetEnd::OperationFailed => "OperationFailed",
        FleetEnd::FailureState => "FailureState",
        FleetEnd::ExceededMaxWait { .. } => "ExceededMaxWait",
        FleetEnd::NoQuota { .. } => "NoQuota",
        FleetEnd::Unfinished => "Unfinished",
    }
}

// The bucket, whose number is 0, with its sums.
#[tactic(auto, unfolding(crate::specs::Print::bucket_data))]
fn print_bucket(alloc: Global, sums: Sums) -> Result<Json, OutOfMemory>
    ensures { IfOk result (λ j. data_of j ≡ bucket_data sums) }
{
    let word = Json::text(alloc, "bucket")?;
    let sums = print_sums(alloc, sums)?;
    Json::triple(alloc, word, Json::number(0), sums)
}

/// What the events come to.
pub fn status_of(events: &[FleetEvent]) -> PrintStatus
    ensures { result ≡ came_to events.now }
{
    if are_well(events) {
        PrintStatus::Ok
    } else {
        PrintStatus::WaiterFailed
    }
}

// Whether each waiter found what it waits for.
fn are_well(events: &[FleetEvent]) -> bool
    ensures { result ≡ list_all is_well events.now }
{
    events.iter().all(|event| is_well(event))
}

// Whether this is no end, or that of a waiter that found what it waits for.
fn is_well(event: &FleetEvent) -> bool
    ensures { result ≡ is_well event.now }
{
    match event {
        FleetEvent::End { end, .. } => matches!(end, FleetEnd::Ok),
        _ => true,
    }
}

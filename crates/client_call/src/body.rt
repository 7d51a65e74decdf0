//! Body: the open response's body is read to its end.
ghost use Rattle.std.specs.Prelude.{◌≡◌, IfOk, OnErr};
ghost use Rattle.smithy_types.specs.Chain.{ByCalls, Chained};
ghost use Rattle.client_call.specs.Reading.{Asks, ClosesAs, Opens, ReadsOn, Reads, Runs, closing};
ghost use Rattle.client_call.specs.Reading.{failed_call};

use crate::{Call, Reading, Stop};
use outside::Outside;
use run_grammar::Answer;
use smithy_context::Settings;
use smithy_types::{HttpResponse, OutOfMemory, Shared, Text};
use std::alloc::Global;
use std::mem;

/// The most frames of one ask.
pub const FRAMES: u64 = 64;

/// The text of a body with more bytes than it may have.
const TOO_LONG: &str = "body over 16384 bytes";

/// Reads the open body on, by at most 64 frames. At the first ask the guards are set up. It is Read
/// at its end, with all bytes of data of the response, and Absent where no body is open.
pub fn body<X: Outside>(
    alloc: Global,
    settings: &Settings,
    response: &Option<Shared<HttpResponse>>,
    call: &mut Call,
    outside: &mut X,
) -> Result<Answer, OutOfMemory>
    ensures ok { IfOk result (λ a. ByCalls X.makes outside.old
        (Reads (X.sleeps outside.old) settings.now response.now call.old a call.new) outside.new) }
    ensures err { OnErr result ((calls : _) × Chained X.makes outside.old calls outside.new) }
{
    open(alloc, settings, response, call, outside);
    read_on(alloc, call, outside)
}

// A body that came is read from here on.
fn open<X: Outside>(
    alloc: Global,
    settings: &Settings,
    response: &Option<Shared<HttpResponse>>,
    call: &mut Call,
    outside: &mut X,
)
    ensures { ByCalls X.makes outside.old (Opens settings.now response.now call.old call.new)
        outside.new }
{
    match call {
        Call::Arrived => {
            *call = Call::Reading(Reading::new(alloc, settings, response, outside));
        }
        _ => {}
    }
}

// Reads an open body on.
fn read_on<X: Outside>(
    alloc: Global,
    call: &mut Call,
    outside: &mut X,
) -> Result<Answer, OutOfMemory>
    ensures ok { IfOk result (λ a. ByCalls X.makes outside.old
        (ReadsOn (X.sleeps outside.old) call.old a call.new) outside.new) }
    ensures err { OnErr result ((calls : _) × Chained X.makes outside.old calls outside.new) }
{
    match mem::replace(call, Call::Left) {
        Call::Reading(open) => {
            let mut reading = open;
            match frames(alloc, &mut reading, outside) {
                Ok(stop) => close(stop, reading, call, outside),
                Err(refused) => {
                    *call = Call::Reading(reading);
                    Err(refused)
                }
            }
        }
        other => {
            *call = other;
            Ok(Answer::Absent)
        }
    }
}

// Reads frames until the ask stops.
fn frames<X: Outside>(
    alloc: Global,
    reading: &mut Reading,
    outside: &mut X,
) -> Result<Stop, OutOfMemory>
    ensures ok { IfOk result (λ stop. ByCalls X.makes outside.old
        (Runs (X.sleeps outside.old) reading.old stop reading.new) outside.new) }
    ensures err { OnErr result ((calls : _) × Chained X.makes outside.old calls outside.new) }
{
    for _ in 0..FRAMES {
        match frame(alloc, reading, outside)? {
            Some(stop) => return Ok(stop),
            None => {}
        }
    }
    Ok(Stop::Pending)
}

// Reads one frame through the guards. It answers how the ask stops with it, and None where it goes
// on.
fn frame<X: Outside>(
    alloc: Global,
    reading: &mut Reading,
    outside: &mut X,
) -> Result<Option<Stop>, OutOfMemory>
    ensures ok { IfOk result (λ stop. ByCalls X.makes outside.old
        (Asks (X.sleeps outside.old) reading.old stop reading.new) outside.new) }
    ensures err { OnErr result ((calls : _) × Chained X.makes outside.old calls outside.new) }
{
    let frame = outside.frame(alloc)?;
    let over = frame.ends();
    let passed = reading.guards.pass(alloc, outside, frame)?;
    reading.gather(&passed, over)
}

// What the stop of an ask makes of the call.
fn close<X: Outside>(
    stop: Stop,
    end: Reading,
    call: &mut Call,
    outside: &mut X,
) -> Result<Answer, OutOfMemory>
    ensures closes { IfOk result (λ a. ClosesAs stop end a call.new) }
    ensures calls { Chained X.makes outside.old (closing stop end) outside.new }
{
    let mut end = end;
    match stop {
        Stop::Pending => {
            *call = Call::Reading(end);
            Ok(Answer::Pending)
        }
        Stop::End => {
            *call = Call::Idle;
            end.guards.stop(outside);
            Ok(Answer::Read(end.bytes.into_blob()?))
        }
        Stop::Failed { text, over } => {
            *call = failed_call(over);
            end.guards.stop(outside);
            Ok(Answer::Failed(text))
        }
        Stop::TooLong => {
            *call = Call::Left;
            end.guards.stop(outside);
            Ok(Answer::Failed(Text::from_static(TOO_LONG)))
        }
    }
}

// The call of a body that failed, and is over outside too or not.
fn failed_call(over: bool) -> Call
    ensures { result ≡ failed_call over }
{
    if over { Call::Idle } else { Call::Left }
}

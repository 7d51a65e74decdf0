//! Transmit: the request is sent, and a response awaited.
ghost use Rattle.std.specs.Prelude.{◌≡◌, IfOk, OnOk, OnErr};
ghost use Rattle.smithy_types.specs.Chain.{ByCalls, Chained};
ghost use Rattle.client_call.specs.Protection.{standing_stall, upload_marked, upload_options};
ghost use Rattle.client_call.specs.Transmitting.{Begins, BeginsAnew, Pends, SentAs, StallsAs};
ghost use Rattle.client_call.specs.Transmitting.{Transmits, WatchesMaybe};

use crate::protection::upload_options;
use crate::{Call, Upload};
use outside::{Outside, Sent};
use run_grammar::Answer;
use smithy_context::Settings;
use smithy_types::{ConnectorKind, Fault, HttpRequest, OutOfMemory, Shared};
use std::alloc::Global;
use std::mem;

/// Begins to send the request at the first ask, and asks for the response at each. While there is
/// none it looks at the upload, where that is watched. It is Absent where no request stands.
pub fn transmit<X: Outside>(
    alloc: Global,
    settings: &Settings,
    request: &Option<Shared<HttpRequest>>,
    call: &mut Call,
    outside: &mut X,
) -> Result<Answer, OutOfMemory>
    ensures ok { IfOk result (λ a. ByCalls X.makes outside.old
        (Transmits (X.sleeps outside.old) settings.now request.now call.old a call.new)
        outside.new) }
    ensures err { OnErr result ((calls : _) × Chained X.makes outside.old calls outside.new) }
{
    let Some(request) = request else {
        return Ok(Answer::Absent);
    };
    let upload = begin(alloc, settings, request.get(), call, outside)?;
    *call = Call::Sending(None);
    let sent = outside.poll(alloc)?;
    answer(alloc, sent, upload, call, outside)
}

// Begins the call, unless it is under way. It answers the upload, where it is watched.
fn begin<X: Outside>(
    alloc: Global,
    settings: &Settings,
    request: &HttpRequest,
    call: &mut Call,
    outside: &mut X,
) -> Result<Option<Upload>, OutOfMemory>
    ensures ok { IfOk result (λ upload. ByCalls X.makes outside.old
        (Begins settings.now request.now call.old upload) outside.new) }
    ensures err { OnErr result ((calls : _) × Chained X.makes outside.old calls outside.new) }
{
    match mem::replace(call, Call::Left) {
        Call::Sending(upload) => Ok(upload),
        other => {
            *call = other;
            begin_anew(alloc, settings, request, call, outside)
        }
    }
}

// Begins the call, behind what the guards of a body give up that is still open.
fn begin_anew<X: Outside>(
    alloc: Global,
    settings: &Settings,
    request: &HttpRequest,
    call: &mut Call,
    outside: &mut X,
) -> Result<Option<Upload>, OutOfMemory>
    ensures ok { IfOk result (λ upload. ByCalls X.makes outside.old
        (BeginsAnew settings.now request.now call.old upload) outside.new) }
    ensures err { OnErr result ((calls : _) × Chained X.makes outside.old calls outside.new) }
{
    call.quiet(outside);
    let upload = watch(alloc, settings, request, outside)?;
    outside.begin(alloc, request, settings)?;
    Ok(upload)
}

// Reads the body that is sent, where the upload is watched.
fn watch<X: Outside>(
    alloc: Global,
    settings: &Settings,
    request: &HttpRequest,
    outside: &mut X,
) -> Result<Option<Upload>, OutOfMemory>
    ensures ok { IfOk result (λ upload. ByCalls X.makes outside.old
        (WatchesMaybe (upload_options (upload_marked settings.now) (standing_stall settings.now))
        request.now upload)
        outside.new) }
    ensures err { OnErr result ((calls : _) × Chained X.makes outside.old calls outside.new) }
{
    match upload_options(settings) {
        Some(options) => {
            let upload = Upload::new(alloc, options, &request.body, outside)?;
            Ok(Some(upload))
        }
        None => Ok(None),
    }
}

// What became of the request is answered, and makes this of the call.
fn answer<X: Outside>(
    alloc: Global,
    sent: Sent,
    upload: Option<Upload>,
    call: &mut Call,
    outside: &mut X,
) -> Result<Answer, OutOfMemory>
    ensures ok { IfOk result (λ a. ByCalls X.makes outside.old
        (SentAs (X.sleeps outside.old) upload sent a call.new) outside.new) }
    ensures err { OnErr result ((calls : _) × Chained X.makes outside.old calls outside.new) }
{
    match sent {
        Sent::Pending => pend(alloc, upload, call, outside),
        Sent::Response(response) => {
            *call = Call::Arrived;
            Ok(Answer::Response(Shared::new(alloc, response)?))
        }
        Sent::Failed(kind, text) => {
            *call = Call::Idle;
            Ok(Answer::ConnectorFailed(kind, text))
        }
    }
}

// There is no response yet.
fn pend<X: Outside>(
    alloc: Global,
    upload: Option<Upload>,
    call: &mut Call,
    outside: &mut X,
) -> Result<Answer, OutOfMemory>
    ensures ok { IfOk result (λ a. ByCalls X.makes outside.old
        (Pends (X.sleeps outside.old) upload a call.new) outside.new) }
    ensures err { OnErr result ((calls : _) × Chained X.makes outside.old calls outside.new) }
{
    let Some(watched) = upload else {
        *call = Call::Sending(None);
        return Ok(Answer::Pending);
    };
    let mut upload = watched;
    let fault = upload.look(alloc, outside)?;
    Ok(stall(fault, upload, call))
}

// What a look at the upload makes of the call. One that stalls leaves it open.
fn stall(fault: Option<Fault>, upload: Upload, call: &mut Call) -> Answer
    ensures { StallsAs fault upload result call.new }
{
    match fault {
        None => {
            *call = Call::Sending(Some(upload));
            Answer::Pending
        }
        Some(fault) => {
            *call = Call::Left;
            Answer::ConnectorFailed(ConnectorKind::Timeout, fault.text)
        }
    }
}

//! The guards that a response's body is read through.
ghost use Rattle.std.specs.Prelude.{◌≡◌, IfOk, OnErr};
ghost use Rattle.smithy_types.specs.Chain.{ByCalls, Chained};
ghost use Rattle.client_call.specs.Guarding.{GuardsLength, GuardsThroughput, LengthPasses, Passes};
ghost use Rattle.client_call.specs.Guarding.{SetsUp, ThroughputPasses, stopped, stopping};
ghost use Rattle.client_call.specs.Protection.{download_options, enforces_length, standing_stall};

use crate::protection::{download_options, enforces_length};
use body_guard::{
    ContentLengthEnforcingBody, MinimumThroughputDownloadBody, NoBody, extract_content_length,
};
use outside::Outside;
use smithy_context::Settings;
use smithy_types::{HttpResponse, OutOfMemory, Polled, Shared};
use std::alloc::Global;

/// The guard of a body's length, and outside of it that of its throughput. Each stands over a body
/// of its own that is at its end, and is handed the frames.
#[derive(Drop)]
pub struct Guards {
    /// Fails a body that has another length than it declares.
    pub length: Option<ContentLengthEnforcingBody<NoBody>>,
    /// Fails a body that stalls.
    pub throughput: Option<MinimumThroughputDownloadBody<NoBody>>,
}

impl Guards {
    /// The guards that are set for this response. That of the throughput watches from now on.
    pub fn new<X: Outside>(
        settings: &Settings,
        response: &Option<Shared<HttpResponse>>,
        outside: &mut X,
    ) -> Guards
        ensures { ByCalls X.makes outside.old (SetsUp settings.now response.now result)
            outside.new }
    {
        let length = length_guard(settings, response);
        let throughput = throughput_guard(settings, outside);
        Guards { length, throughput }
    }

    /// What becomes of a frame.
    pub fn pass<X: Outside>(
        &mut self,
        alloc: Global,
        outside: &mut X,
        frame: Polled,
    ) -> Result<Polled, OutOfMemory>
        ensures ok { IfOk result (λ passed. ByCalls X.makes outside.old
            (Passes (X.sleeps outside.old) self.old frame passed self.new) outside.new) }
        ensures err { OnErr result ((calls : _) × Chained X.makes outside.old calls outside.new) }
    {
        let enforced = pass_length(alloc, &mut self.length, frame)?;
        pass_throughput(alloc, &mut self.throughput, outside, enforced)
    }

    /// Gives the sleep of a violation up, where one is open.
    pub fn stop<X: Outside>(&mut self, outside: &mut X)
        ensures guards { self.new ≡ stopped self.old }
        ensures calls { Chained X.makes outside.old (stopping self.old) outside.new }
    {
        match &mut self.throughput {
            Some(body) => body.stop(outside),
            None => {}
        }
    }
}

// The guard of the length that the response declares, where it is held to it and declares one.
fn length_guard(
    settings: &Settings,
    response: &Option<Shared<HttpResponse>>,
) -> Option<ContentLengthEnforcingBody<NoBody>>
    ensures { GuardsLength (enforces_length settings.now) response.now result }
{
    if !enforces_length(settings) {
        return None;
    }
    let Some(response) = response else {
        return None;
    };
    match extract_content_length(response.get()) {
        Ok(Some(length)) => Some(ContentLengthEnforcingBody::wrap(NoBody, length)),
        _ => None,
    }
}

// The guard of the throughput, where the body is watched.
fn throughput_guard<X: Outside>(
    settings: &Settings,
    outside: &mut X,
) -> Option<MinimumThroughputDownloadBody<NoBody>>
    ensures { ByCalls X.makes outside.old
        (GuardsThroughput (download_options (standing_stall settings.now)) result) outside.new }
{
    match download_options(settings) {
        Some(options) => Some(MinimumThroughputDownloadBody::new(outside, NoBody, options)),
        None => None,
    }
}

// What becomes of a frame by the guard of the length.
fn pass_length(
    alloc: Global,
    guard: &mut Option<ContentLengthEnforcingBody<NoBody>>,
    frame: Polled,
) -> Result<Polled, OutOfMemory>
    ensures { IfOk result (λ passed. LengthPasses guard.old frame passed guard.new) }
{
    match guard {
        Some(body) => body.judge(alloc, frame),
        None => Ok(frame),
    }
}

// What becomes of a frame by the guard of the throughput.
fn pass_throughput<X: Outside>(
    alloc: Global,
    guard: &mut Option<MinimumThroughputDownloadBody<NoBody>>,
    outside: &mut X,
    frame: Polled,
) -> Result<Polled, OutOfMemory>
    ensures ok { IfOk result (λ passed. ByCalls X.makes outside.old
        (ThroughputPasses (X.sleeps outside.old) guard.old frame passed guard.new) outside.new) }
    ensures err { OnErr result ((calls : _) × Chained X.makes outside.old calls outside.new) }
{
    match guard {
        Some(body) => body.judge(alloc, outside, frame),
        None => Ok(frame),
    }
}

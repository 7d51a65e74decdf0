//! The context of a run that interceptors and retry classifiers read.
ghost use Rattle.std.specs.Prelude.{◌≡◌, Some, None, IfOk, OnOk, OnErr, option_copied, IsTrue};
ghost use Rattle.smithy_context.specs.Failures.{sdk_error_of, modelled_error, is_building};
ghost use Rattle.smithy_context.specs.Failures.{is_failure};
ghost use Rattle.smithy_context.specs.Context.{view_of, failed_with, checkpointed, restored};
ghost use Rattle.smithy_context.specs.Context.{Rewinds, opened};

use crate::{HookView, Settings};
use smithy_types::{
    Body, Fault, FaultKind, HttpRequest, HttpResponse, OutOfMemory, Outcome, Payload, Phase,
    SdkError, Shared,
};
use std::alloc::Global;

/// What stands in a run of an operation.
#[derive(Drop)]
pub struct InterceptorContext {
    /// What a hook is shown.
    pub view: HookView,
    /// How far the run has come.
    pub phase: Phase,
    /// The request as it stood before the first attempt, where it can be copied.
    pub checkpoint: Option<Shared<HttpRequest>>,
    /// Whether a rewind was asked for before.
    pub tainted: bool,
}

/// What a rewind came to.
#[derive(Clone, Copy, Debug, PartialEq, Eq)]
pub enum RewindResult {
    /// No checkpoint stands, so the request can't be sent again.
    Impossible,
    /// This was the first call, so nothing had to be undone.
    Unnecessary,
    /// The checkpoint's request stands again.
    Occurred,
}

impl InterceptorContext {
    /// The context at a run's start: the input, and nothing else.
    pub fn new(alloc: Global, input: Payload) -> Result<InterceptorContext, OutOfMemory>
        ensures { IfOk result (λ c. c ≡ opened input) }
    {
        Ok(InterceptorContext {
            view: HookView {
                input: Some(Shared::new(alloc, input)?),
                request: None,
                response: None,
                outcome: None,
                attempt: 0,
                settings: Settings::new(),
            },
            phase: Phase::BeforeSerialization,
            checkpoint: None,
            tainted: false,
        })
    }

    /// The context with the parts of this view, no checkpoint, and no rewind so far.
    pub fn of(view: HookView, phase: Phase) -> InterceptorContext
        ensures { result ≡ view_of view phase }
    {
        InterceptorContext {
            view,
            phase,
            checkpoint: None,
            tainted: false,
        }
    }

    /// Makes the outcome this failure, whatever stood.
    pub fn fail(&mut self, alloc: Global, fault: Fault) -> Result<(), OutOfMemory>
        ensures ok { OnOk result (self.new ≡ failed_with self.old fault) }
        ensures err { OnErr result (self.new ≡ self.old) }
    {
        self.view.outcome = Some(Shared::new(alloc, Outcome::Failed(fault))?);
        Ok(())
    }

    /// Keeps a copy of the request where its body can be copied, and none otherwise.
    pub fn save_checkpoint(&mut self) -> Result<(), OutOfMemory>
        ensures ok { OnOk result (self.new ≡ checkpointed self.old) }
        ensures err { OnErr result (self.new ≡ self.old) }
    {
        let copy = match &self.view.request {
            Some(request) => match &request.get().body {
                Body::Bytes(_) => Some(request.clone()?),
                _ => None,
            },
            None => None,
        };
        self.checkpoint = copy;
        Ok(())
    }

    /// Takes the context back to the checkpoint, for a further attempt. The first call finds
    /// nothing to undo; a later one without a checkpoint changes nothing.
    pub fn rewind(&mut self) -> Result<RewindResult, OutOfMemory>
        ensures ok { IfOk result (λ r. Rewinds self.old r self.new) }
        ensures err { OnErr result (self.new ≡ self.old) }
    {
        if !self.tainted {
            self.tainted = true;
            return Ok(RewindResult::Unnecessary);
        }
        if self.checkpoint.is_none() {
            return Ok(RewindResult::Impossible);
        }
        self.restore_checkpoint()?;
        Ok(RewindResult::Occurred)
    }

    /// Makes a copy of the checkpoint the request, and takes response and outcome away. Without a
    /// checkpoint nothing changes.
    pub fn restore_checkpoint(&mut self) -> Result<(), OutOfMemory>
        ensures ok { OnOk result (self.new ≡ restored self.old) }
        ensures err { OnErr result (self.new ≡ self.old) }
    {
        if self.checkpoint.is_none() {
            return Ok(());
        }
        let request = self.checkpoint.clone()?;
        self.view.request = request;
        self.view.response = None;
        self.view.outcome = None;
        self.phase = Phase::BeforeTransmit;
        Ok(())
    }

    /// Whether a failure stands.
    pub fn is_failed(&self) -> bool
        ensures { result ≡ is_failure self.now.view.outcome }
    {
        matches!(self.outcome(), Some(Outcome::Failed(_)))
    }

    /// The operation's input, up to serialization.
    pub fn input(&self) -> Option<&Payload>
        ensures { option_copied result ≡ self.now.view.input }
    {
        self.view.input.as_ref().map(|input| input.get())
    }

    /// The request as it stands.
    pub fn request(&self) -> Option<&HttpRequest>
        ensures { option_copied result ≡ self.now.view.request }
    {
        self.view.request.as_ref().map(|request| request.get())
    }

    /// The response of the present attempt.
    pub fn response(&self) -> Option<&HttpResponse>
        ensures { option_copied result ≡ self.now.view.response }
    {
        self.view.response.as_ref().map(|response| response.get())
    }

    /// What the attempt, or the run, has come to so far.
    pub fn outcome(&self) -> Option<&Outcome>
        ensures { option_copied result ≡ self.now.view.outcome }
    {
        self.view.outcome.as_ref().map(|outcome| outcome.get())
    }

    /// The number of the attempt, from 1; 0 before the first.
    pub fn attempt(&self) -> u64
        ensures { result ≡ self.now.view.attempt }
    {
        self.view.attempt
    }

    /// The settings that stand.
    pub fn settings(&self) -> &Settings
        ensures { result.now ≡ self.now.view.settings }
    {
        &self.view.settings
    }

    /// How far the run has come.
    pub fn phase(&self) -> &Phase
        ensures { result.now ≡ self.now.phase }
    {
        &self.phase
    }

    /// The request as it stood before the first attempt.
    pub fn checkpoint(&self) -> Option<&HttpRequest>
        ensures { option_copied result ≡ self.now.checkpoint }
    {
        self.checkpoint.as_ref().map(|request| request.get())
    }

    /// The error that a failure gives, by its kind, the phase and whether a response is held.
    pub fn sdk_error(
        fault: Fault,
        phase: Phase,
        response: Option<HttpResponse>,
    ) -> SdkError<Payload>
        ensures { result ≡ sdk_error_of fault phase response }
    {
        match response {
            Some(response) => answered(fault, phase, response),
            None => unanswered(fault, phase),
        }
    }
}

// The error of a failure where no response is held.
fn unanswered(fault: Fault, phase: Phase) -> SdkError<Payload>
    ensures { result ≡ sdk_error_of fault phase None }
{
    match &fault.kind {
        FaultKind::Connector(_) => SdkError::DispatchFailure(fault),
        FaultKind::Timeout => SdkError::TimeoutError(fault),
        _ => {
            if is_building(phase) {
                SdkError::ConstructionFailure(fault)
            } else {
                SdkError::DispatchFailure(fault)
            }
        }
    }
}

// The error of a failure where a response is held.
fn answered(fault: Fault, phase: Phase, response: HttpResponse) -> SdkError<Payload>
    ensures { result ≡ sdk_error_of fault phase (Some response) }
{
    match &fault.kind {
        FaultKind::Connector(_) => SdkError::DispatchFailure(fault),
        FaultKind::Timeout => SdkError::TimeoutError(fault),
        FaultKind::Operation(_) => modelled(fault, response),
        FaultKind::Response => SdkError::ResponseError(fault, response),
        _ => {
            if is_building(phase) {
                SdkError::ConstructionFailure(fault)
            } else {
                SdkError::ResponseError(fault, response)
            }
        }
    }
}

// The service's own error, and any other failure as one of the response.
fn modelled(fault: Fault, response: HttpResponse) -> SdkError<Payload>
    ensures { result ≡ modelled_error fault.kind fault response }
{
    let Fault { kind, text } = fault;
    match kind {
        FaultKind::Operation(payload) => SdkError::ServiceError(payload, response),
        kind => SdkError::ResponseError(Fault { kind, text }, response),
    }
}

// Whether the request wasn't built yet.
fn is_building(phase: Phase) -> bool
    ensures { result ≡ is_building phase }
{
    matches!(phase, Phase::BeforeSerialization | Phase::Serialization)
}

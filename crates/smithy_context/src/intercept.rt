//! What interceptors see and answer.
ghost use Rattle.std.specs.Prelude.{◌≡◌, ◌&&◌, ◌==◌, None, [], is_none, length, IfOk, option_copied};

use crate::{Layer, Settings};
use smithy_types::{HttpRequest, HttpResponse, OutOfMemory, Outcome, Payload, Shared, Text};
use std::alloc::{AllocError, Global};
use std::fmt;
use std::marker::Model;

/// What a hook is shown.
#[derive(Debug, Drop)]
pub struct HookView {
    /// The operation's input, up to serialization.
    pub input: Option<Shared<Payload>>,
    /// The request as it stands, from serialization on.
    pub request: Option<Shared<HttpRequest>>,
    /// The response of the present attempt, once it came.
    pub response: Option<Shared<HttpResponse>>,
    /// What the present attempt, or the run, has come to so far.
    pub outcome: Option<Shared<Outcome>>,
    /// The number of the attempt, from 1; 0 before the first.
    pub attempt: u64,
    /// The settings that stand.
    pub settings: Settings,
}

impl Clone for HookView {
    ghost is_clone = { λ view copy. copy ≡ view };

    fn clone(&self) -> Result<HookView, AllocError> {
        Ok(HookView {
            input: self.input.clone()?,
            request: self.request.clone()?,
            response: self.response.clone()?,
            outcome: self.outcome.clone()?,
            attempt: self.attempt,
            settings: self.settings.clone()?,
        })
    }
}

/// A part of the run that a hook writes.
#[derive(Debug, Drop)]
pub enum Change {
    /// The input becomes this.
    Input(Shared<Payload>),
    /// The request becomes this.
    Request(Shared<HttpRequest>),
    /// The response becomes this.
    Response(Shared<HttpResponse>),
    /// What the attempt or the run has come to becomes this.
    Outcome(Shared<Outcome>),
}

impl Clone for Change {
    ghost is_clone = { λ change copy. copy ≡ change };

    fn clone(&self) -> Result<Change, AllocError> {
        match self {
            Change::Input(input) => Ok(Change::Input(input.clone()?)),
            Change::Request(request) => Ok(Change::Request(request.clone()?)),
            Change::Response(response) => Ok(Change::Response(response.clone()?)),
            Change::Outcome(outcome) => Ok(Change::Outcome(outcome.clone()?)),
        }
    }
}

/// What a hook answers.
#[derive(Debug, Drop)]
pub struct HookAnswer {
    /// What it writes. A change that its hook may not write is ignored.
    pub change: Option<Change>,
    /// What it sets.
    pub settings: Layer,
    /// Why it failed, where it did.
    pub failure: Option<Text>,
}

impl HookAnswer {
    /// The answer of a hook that does nothing. It takes no memory.
    pub fn done() -> HookAnswer
        ensures change { result.change ≡ None }
        ensures settings { result.settings ≡ [] }
        ensures failure { result.failure ≡ None }
    {
        HookAnswer {
            change: None,
            settings: Layer::new(),
            failure: None,
        }
    }

    /// Whether the hook writes nothing, sets nothing and doesn't fail.
    pub fn does_nothing(&self) -> bool
        ensures { result ≡ (is_none self.now.change && (length self.now.settings == 0)
            && is_none self.now.failure) }
    {
        self.change.is_none() && self.settings.is_empty() && self.failure.is_none()
    }
}

impl Clone for HookAnswer {
    ghost is_clone = { λ answer copy. copy ≡ answer };

    fn clone(&self) -> Result<HookAnswer, AllocError> {
        Ok(HookAnswer {
            change: self.change.clone()?,
            settings: self.settings.clone()?,
            failure: self.failure.clone()?,
        })
    }
}

/// A hook's answer as a log keeps it. A copy costs the same however much the hook did, and the
/// answer of a hook that did nothing takes no memory.
#[derive(Drop)]
pub struct HookReply {
    // None is the answer of a hook that did nothing.
    did: Option<Shared<HookAnswer>>,
}

impl Model for HookReply {
    ghost use Rattle.smithy_context.specs.declared.intercept.HookAnswer.{HookAnswer};
    ghost use Rattle.smithy_context.specs.Reply.{reply_of};

    ghost Value = { HookAnswer };

    ghost view = { λ r. reply_of r.did };
}

impl HookReply {
    ghost use Rattle.smithy_context.specs.Reply.{done, reply_of};

    /// The answer of a hook that does nothing. It takes no memory.
    pub fn done() -> HookReply
        ensures { result ≡ done }
    {
        HookReply { did: None }
    }

    /// This answer. It takes memory where the hook did something.
    pub fn of(alloc: Global, answer: HookAnswer) -> Result<HookReply, OutOfMemory>
        ensures { IfOk result (λ r. r ≡ answer) }
    {
        if answer.does_nothing() {
            return Ok(HookReply::done());
        }
        Ok(HookReply {
            did: Some(Shared::new(alloc, answer)?),
        })
    }

    /// What the hook did. None where it did nothing.
    pub fn did(&self) -> Option<&HookAnswer>
        ensures { reply_of (option_copied result) ≡ self.now }
    {
        match &self.did {
            Some(answer) => Some(answer.get()),
            None => None,
        }
    }
}

/// It prints as the answer that it stands for.
impl fmt::Debug for HookReply {
    fn fmt<W: fmt::Write>(&self, f: &mut fmt::Formatter<W>) -> fmt::Result {
        match &self.did {
            Some(answer) => fmt::Debug::fmt(answer.get(), f),
            None => fmt::Debug::fmt(&HookAnswer::done(), f),
        }
    }
}

impl Clone for HookReply {
    ghost is_clone = { λ reply copy. copy ≡ reply };

    fn clone(&self) -> Result<HookReply, AllocError> {
        Ok(HookReply {
            did: self.did.clone()?,
        })
    }
}

//! What a world answers.
ghost use Rattle.std.specs.Prelude.{◌≡◌};

use smithy_context::{HookReply, Layer};
use smithy_types::{
    Blob, Choice, ChooseNote, ConnectorKind, DecideNote, Endpoint, HttpRequest, HttpResponse,
    Identity, Outcome, Shared, Text,
};
use std::alloc::AllocError;

/// The auth scheme and the identity that a request is signed with.
#[derive(Debug, Drop)]
pub struct Chosen {
    /// The scheme's id.
    pub scheme: Text,
    /// Whom the request is signed for.
    pub identity: Shared<Identity>,
    /// The endpoint, where it was resolved already.
    pub endpoint: Option<Shared<Endpoint>>,
    /// What is set with the choice.
    pub settings: Layer,
    /// Where the identity came from, where the world notes it.
    pub note: Option<ChooseNote>,
}

impl Clone for Chosen {
    ghost is_clone = { λ chosen copy. copy ≡ chosen };

    fn clone(&self) -> Result<Chosen, AllocError> {
        Ok(Chosen {
            scheme: self.scheme.clone()?,
            identity: self.identity.clone()?,
            endpoint: self.endpoint.clone()?,
            settings: self.settings.clone()?,
            note: self.note,
        })
    }
}

/// An answer. Which ones fit a question is said by its kind.
#[derive(Debug)]
pub enum Answer {
    /// Not yet: the question is asked again.
    Pending,
    /// The world has no such part.
    Absent,
    /// It failed, with this text.
    Failed(Text),
    /// The request was not sent, or no response came.
    ConnectorFailed(ConnectorKind, Text),
    /// The settings of a step of the configuration.
    Layer(Layer),
    /// What the interceptors of a hook did.
    Hooked(HookReply),
    /// The request, made or rewritten.
    Request(Shared<HttpRequest>),
    /// The request's body, in memory.
    Loaded(Blob),
    /// The attempt is made.
    Go,
    /// No first attempt is made. A further one is made nonetheless.
    No,
    /// The attempt is asked for again after so many nanoseconds.
    Delay(u64),
    /// The sleep was started.
    Started,
    /// The sleep is over.
    Ready,
    /// The scheme and the identity.
    Chosen(Shared<Chosen>),
    /// Where the request goes.
    Endpoint(Shared<Endpoint>),
    /// The response's head, with the body as far as it is there.
    Response(Shared<HttpResponse>),
    /// The operation doesn't stream: its body is read.
    NotStreaming,
    /// The output or the error that the response is.
    Outcome(Shared<Outcome>),
    /// The response's body, whole.
    Read(Blob),
    /// Whether a further attempt is made, and from what that was decided.
    Decided(Choice, Option<Shared<DecideNote>>),
    /// What was pending is given up.
    Abandoned,
    /// The caller may have waited.
    Parked,
    /// The world had no memory for its answer. It stands in a log alone, and fits no question.
    NoMemory,
}

// Written out, so that a drop is one call wherever an answer is dropped.
impl Drop for Answer {
    fn drop(self) {
        match self {
            Answer::Failed(_) => {}
            Answer::ConnectorFailed(_, _) => {}
            Answer::Layer(_) => {}
            Answer::Hooked(_) => {}
            Answer::Request(_) => {}
            Answer::Loaded(_) => {}
            Answer::Delay(_) => {}
            Answer::Chosen(_) => {}
            Answer::Endpoint(_) => {}
            Answer::Response(_) => {}
            Answer::Outcome(_) => {}
            Answer::Read(_) => {}
            Answer::Decided(_, _) => {}
            Answer::Pending => {}
            Answer::Absent => {}
            Answer::Go => {}
            Answer::No => {}
            Answer::Started => {}
            Answer::Ready => {}
            Answer::NotStreaming => {}
            Answer::Abandoned => {}
            Answer::Parked => {}
            Answer::NoMemory => {}
        }
    }
}

impl Clone for Answer {
    ghost is_clone = { λ answer copy. copy ≡ answer };

    fn clone(&self) -> Result<Answer, AllocError> {
        Ok(match self {
            Answer::Pending => Answer::Pending,
            Answer::Absent => Answer::Absent,
            Answer::Failed(text) => Answer::Failed(text.clone()?),
            Answer::ConnectorFailed(kind, text) => Answer::ConnectorFailed(*kind, text.clone()?),
            Answer::Layer(layer) => Answer::Layer(layer.clone()?),
            Answer::Hooked(answer) => Answer::Hooked(answer.clone()?),
            Answer::Request(request) => Answer::Request(request.clone()?),
            Answer::Loaded(bytes) => Answer::Loaded(bytes.clone()?),
            Answer::Go => Answer::Go,
            Answer::No => Answer::No,
            Answer::Delay(nanos) => Answer::Delay(*nanos),
            Answer::Started => Answer::Started,
            Answer::Ready => Answer::Ready,
            Answer::Chosen(chosen) => Answer::Chosen(chosen.clone()?),
            Answer::Endpoint(endpoint) => Answer::Endpoint(endpoint.clone()?),
            Answer::Response(response) => Answer::Response(response.clone()?),
            Answer::NotStreaming => Answer::NotStreaming,
            Answer::Outcome(outcome) => Answer::Outcome(outcome.clone()?),
            Answer::Read(bytes) => Answer::Read(bytes.clone()?),
            Answer::Decided(choice, note) => Answer::Decided(*choice, note.clone()?),
            Answer::Abandoned => Answer::Abandoned,
            Answer::Parked => Answer::Parked,
            Answer::NoMemory => Answer::NoMemory,
        })
    }
}

/// One call of a world: what it was asked, and what it answered.
#[derive(Debug, Drop)]
pub struct Entry {
    /// What it was asked.
    pub question: crate::Question,
    /// What it answered.
    pub answer: Answer,
}

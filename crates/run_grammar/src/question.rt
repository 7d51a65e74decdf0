//! What a world is asked.
ghost use Rattle.std.specs.Prelude.{◌≡◌};
ghost use Rattle.run_grammar.specs.Question.{kind_of_question, nanos_of};

use crate::kind::{Abandonable, ConfigureStage, Kind, Role};
use smithy_context::{HookView, Settings};
use smithy_types::{Endpoint, HttpRequest, HttpResponse, Identity, Outcome, Payload, Shared, Text};

/// A question with the parts of the run that it hands on. A part that doesn't stand is None.
#[derive(Debug)]
pub enum Question {
    /// For a layer of settings.
    Configure {
        stage: ConfigureStage,
        settings: Settings,
    },
    /// For what the interceptors of a hook do.
    Hook {
        hook: smithy_types::Hook,
        view: HookView,
    },
    /// For the request that the input is.
    Serialize {
        input: Option<Shared<Payload>>,
        settings: Settings,
    },
    /// For the request's body, in memory.
    Load {
        request: Option<Shared<HttpRequest>>,
    },
    /// For leave to make an attempt.
    Initial {
        settings: Settings,
    },
    /// For a sleep.
    Start {
        role: Role,
        /// How long the sleep is, in nanoseconds.
        nanos: Option<u64>,
    },
    /// Whether a sleep is over.
    Wait {
        role: Role,
    },
    /// For an auth scheme and an identity.
    Choose {
        settings: Settings,
    },
    /// For the endpoint.
    Endpoint {
        settings: Settings,
        identity: Option<Shared<Identity>>,
    },
    /// For the request with the endpoint in it.
    Apply {
        settings: Settings,
        request: Option<Shared<HttpRequest>>,
        endpoint: Option<Shared<Endpoint>>,
    },
    /// For the signed request.
    Sign {
        settings: Settings,
        request: Option<Shared<HttpRequest>>,
        scheme: Option<Text>,
        identity: Option<Shared<Identity>>,
        endpoint: Option<Shared<Endpoint>>,
    },
    /// For the response.
    Transmit {
        settings: Settings,
        request: Option<Shared<HttpRequest>>,
    },
    /// For what a streaming operation's response is, by its head alone.
    Stream {
        settings: Settings,
        response: Option<Shared<HttpResponse>>,
    },
    /// For the response's body, whole.
    Body {
        settings: Settings,
        response: Option<Shared<HttpResponse>>,
    },
    /// For the output or the error that the response is.
    Deserialize {
        settings: Settings,
        response: Option<Shared<HttpResponse>>,
    },
    /// Whether a further attempt is made.
    Decide {
        settings: Settings,
        request: Option<Shared<HttpRequest>>,
        response: Option<Shared<HttpResponse>>,
        outcome: Option<Shared<Outcome>>,
        /// The number of the attempt, from 1.
        attempt: u64,
    },
    /// What is pending is given up.
    Abandon {
        abandoned: Abandonable,
    },
    /// Everything is pending: the caller may wait.
    Park,
}

// Written out, so that a drop is one call wherever a question is dropped.
impl Drop for Question {
    fn drop(self) {
        match self {
            Question::Configure {
                stage: _,
                settings: _,
            } => {}
            Question::Hook { hook: _, view: _ } => {}
            Question::Serialize {
                input: _,
                settings: _,
            } => {}
            Question::Load { request: _ } => {}
            Question::Initial { settings: _ } => {}
            Question::Start { role: _, nanos: _ } => {}
            Question::Wait { role: _ } => {}
            Question::Choose { settings: _ } => {}
            Question::Endpoint {
                settings: _,
                identity: _,
            } => {}
            Question::Apply {
                settings: _,
                request: _,
                endpoint: _,
            } => {}
            Question::Sign {
                settings: _,
                request: _,
                scheme: _,
                identity: _,
                endpoint: _,
            } => {}
            Question::Transmit {
                settings: _,
                request: _,
            } => {}
            Question::Stream {
                settings: _,
                response: _,
            } => {}
            Question::Body {
                settings: _,
                response: _,
            } => {}
            Question::Deserialize {
                settings: _,
                response: _,
            } => {}
            Question::Decide {
                settings: _,
                request: _,
                response: _,
                outcome: _,
                attempt: _,
            } => {}
            Question::Abandon { abandoned: _ } => {}
            Question::Park => {}
        }
    }
}

impl Question {
    /// The question's kind.
    pub fn kind(&self) -> Kind
        ensures { result ≡ kind_of_question self.now }
    {
        match self {
            Question::Configure { stage, .. } => Kind::Configure(*stage),
            Question::Hook { hook, .. } => Kind::Hook(*hook),
            Question::Serialize { .. } => Kind::Serialize,
            Question::Load { .. } => Kind::Load,
            Question::Initial { .. } => Kind::Initial,
            Question::Start { role, .. } => Kind::Start(*role),
            Question::Wait { role } => Kind::Wait(*role),
            Question::Choose { .. } => Kind::Choose,
            Question::Endpoint { .. } => Kind::Endpoint,
            Question::Apply { .. } => Kind::Apply,
            Question::Sign { .. } => Kind::Sign,
            Question::Transmit { .. } => Kind::Transmit,
            Question::Stream { .. } => Kind::Stream,
            Question::Body { .. } => Kind::Body,
            Question::Deserialize { .. } => Kind::Deserialize,
            Question::Decide { .. } => Kind::Decide,
            Question::Abandon { abandoned } => Kind::Abandon(*abandoned),
            Question::Park => Kind::Park,
        }
    }

    /// How long a sleep is asked for, in nanoseconds. Only Start asks for one.
    pub fn nanos(&self) -> Option<u64>
        ensures { result ≡ nanos_of self.now }
    {
        match self {
            Question::Start { nanos, .. } => *nanos,
            _ => None,
        }
    }
}

//! What stands in a run after the entries so far.
ghost use Rattle.std.specs.Prelude.{◌≡◌, IfOk, true};
ghost use Rattle.run_grammar.specs.Change.{nanos_for, loads_body, needs_token, is_spec_2_1};
ghost use Rattle.run_grammar.specs.Change.{timeouts};
ghost use Rattle.run_grammar.specs.Standing.{starting, asks, on_request_way, on_settled_way};

use crate::Question;
use crate::kind::{Kind, Role};
use smithy_context::{InterceptorContext, Setting, SettingKey, Settings};
use smithy_types::{
    Endpoint, Identity, OutOfMemory, Payload, RetrySpec, RetrySpecVersion, Shared, Text,
    TimeoutConfig,
};
use std::alloc::Global;

/// What stands in a run: the context that interceptors see, and what only the engine reads.
pub struct Standing {
    /// What interceptors see, the phase and the checkpoint.
    pub context: InterceptorContext,
    /// The id of the auth scheme.
    pub scheme: Option<Text>,
    /// Whom the request is signed for.
    pub identity: Option<Shared<Identity>>,
    /// Where the request goes.
    pub endpoint: Option<Shared<Endpoint>>,
    /// The last delay or pause that a grant or a decision asked for, in nanoseconds.
    pub delay: Option<u64>,
    /// How long the started deadline of the operation is, in nanoseconds.
    pub operation_deadline: Option<u64>,
    /// How long the started deadline of the attempt is, in nanoseconds.
    pub attempt_deadline: Option<u64>,
}

// Written out, so that a drop is one call wherever what stands is dropped.
impl Drop for Standing {
    fn drop(self) {
        let Standing {
            context: _,
            scheme: _,
            identity: _,
            endpoint: _,
            delay: _,
            operation_deadline: _,
            attempt_deadline: _,
        } = self;
    }
}

impl Standing {
    /// What stands at a run's start: the input, and nothing else.
    pub fn new(alloc: Global, input: Payload) -> Result<Standing, OutOfMemory>
        ensures { IfOk result (λ s. s ≡ starting input) }
    {
        Ok(Standing {
            context: InterceptorContext::new(alloc, input)?,
            scheme: None,
            identity: None,
            endpoint: None,
            delay: None,
            operation_deadline: None,
            attempt_deadline: None,
        })
    }

    /// The context alone, which is moved and not copied.
    pub fn into_context(self) -> InterceptorContext
        ensures { result ≡ self.context }
    {
        let Standing {
            context,
            scheme: _,
            identity: _,
            endpoint: _,
            delay: _,
            operation_deadline: _,
            attempt_deadline: _,
        } = self;
        context
    }

    /// How long the sleep of this role is, in nanoseconds: the standing timeout of that name, or
    /// the standing delay.
    pub fn nanos_for(&self, role: Role) -> Option<u64>
        ensures { result ≡ nanos_for role self.now }
    {
        match role {
            Role::Operation => timeouts(&self.context.view.settings)?.operation,
            Role::Attempt => timeouts(&self.context.view.settings)?.attempt,
            Role::Send | Role::Retry | Role::LongPoll => self.delay,
        }
    }

    /// Whether the request's body is loaded into memory before the first attempt.
    pub fn loads_body(&self) -> bool
        ensures { result ≡ loads_body self.now.context.view.settings }
    {
        loads_body(&self.context.view.settings)
    }

    /// Whether each attempt but the first needs a token of its own: the standing retry
    /// configuration has a spec of version 2.1.
    pub fn needs_token(&self) -> bool
        ensures { result ≡ needs_token self.now.context.view.settings }
    {
        needs_token(&self.context.view.settings)
    }

    /// The question of this kind, with the parts that stand.
    pub fn question(&self, kind: Kind) -> Result<Question, OutOfMemory>
        ensures { IfOk result (λ q. q ≡ asks kind self.now) }
    {
        let view = &self.context.view;
        match kind {
            Kind::Configure(stage) => Ok(Question::Configure {
                stage,
                settings: view.settings.clone()?,
            }),
            Kind::Hook(hook) => Ok(Question::Hook {
                hook,
                view: view.clone()?,
            }),
            Kind::Serialize => Ok(Question::Serialize {
                input: view.input.clone()?,
                settings: view.settings.clone()?,
            }),
            Kind::Load => Ok(Question::Load {
                request: view.request.clone()?,
            }),
            Kind::Start(role) => Ok(Question::Start {
                role,
                nanos: self.nanos_for(role),
            }),
            Kind::Wait(role) => Ok(Question::Wait { role }),
            Kind::Abandon(abandoned) => Ok(Question::Abandon { abandoned }),
            Kind::Park => Ok(Question::Park),
            Kind::Endpoint | Kind::Apply | Kind::Sign | Kind::Transmit => self.request_question(
                kind,
            ),
            _ => self.settled_question(kind),
        }
    }

    // A question on the way of the request.
    fn request_question(&self, kind: Kind) -> Result<Question, OutOfMemory>
        requires { on_request_way kind ≡ true }
        ensures { IfOk result (λ q. q ≡ asks kind self.now) }
    {
        let view = &self.context.view;
        let settings = view.settings.clone()?;
        match kind {
            Kind::Endpoint => Ok(Question::Endpoint {
                settings,
                identity: self.identity.clone()?,
            }),
            Kind::Apply => Ok(Question::Apply {
                settings,
                request: view.request.clone()?,
                endpoint: self.endpoint.clone()?,
            }),
            Kind::Sign => Ok(Question::Sign {
                settings,
                request: view.request.clone()?,
                scheme: self.scheme.clone()?,
                identity: self.identity.clone()?,
                endpoint: self.endpoint.clone()?,
            }),
            _ => Ok(Question::Transmit {
                settings,
                request: view.request.clone()?,
            }),
        }
    }

    // A question that hands on the settings and what came of the request.
    fn settled_question(&self, kind: Kind) -> Result<Question, OutOfMemory>
        requires { on_settled_way kind ≡ true }
        ensures { IfOk result (λ q. q ≡ asks kind self.now) }
    {
        let view = &self.context.view;
        let settings = view.settings.clone()?;
        match kind {
            Kind::Initial => Ok(Question::Initial { settings }),
            Kind::Choose => Ok(Question::Choose { settings }),
            Kind::Stream => Ok(Question::Stream {
                settings,
                response: view.response.clone()?,
            }),
            Kind::Body => Ok(Question::Body {
                settings,
                response: view.response.clone()?,
            }),
            Kind::Deserialize => Ok(Question::Deserialize {
                settings,
                response: view.response.clone()?,
            }),
            _ => Ok(Question::Decide {
                settings,
                request: view.request.clone()?,
                response: view.response.clone()?,
                outcome: view.outcome.clone()?,
                attempt: view.attempt,
            }),
        }
    }
}

/// The standing timeouts, where they are set.
pub fn timeouts(settings: &Settings) -> Option<TimeoutConfig>
    ensures { result ≡ timeouts settings.now }
{
    match settings.load(&SettingKey::Timeouts) {
        Some(Setting::Timeouts(timeouts)) => Some(*timeouts),
        _ => None,
    }
}

fn loads_body(settings: &Settings) -> bool
    ensures { result ≡ loads_body settings.now }
{
    match settings.load(&SettingKey::LoadBody) {
        Some(Setting::LoadBody(loads)) => *loads,
        _ => false,
    }
}

fn needs_token(settings: &Settings) -> bool
    ensures { result ≡ needs_token settings.now }
{
    match settings.load(&SettingKey::Retry) {
        Some(Setting::Retry(retry)) => is_spec_2_1(&retry.spec),
        _ => false,
    }
}

fn is_spec_2_1(spec: &Option<RetrySpec>) -> bool
    ensures { result ≡ is_spec_2_1 spec.now }
{
    match spec {
        Some(spec) => matches!(spec.version, RetrySpecVersion::V2_1),
        None => false,
    }
}

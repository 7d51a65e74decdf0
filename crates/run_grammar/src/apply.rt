//! How an entry changes what stands.
ghost use Rattle.std.specs.Prelude.{◌≡◌, None, true, IfOk, OnOk, OnErr};
ghost use Rattle.run_grammar.specs.Change as change;
ghost use Rattle.run_grammar.specs.declared.answer.Answer.TheVariants as answers;

use crate::{Answer, Chosen, ConfigureStage, Kind, Role, Standing};
use smithy_context::writes::{writes_input, writes_outcome, writes_request, writes_response};
use smithy_context::{Change, HookAnswer, Layer};
use smithy_types::{
    Blob, Body, Choice, Fault, FaultKind, Hook, HttpRequest, HttpResponse, OutOfMemory, Outcome,
    Phase, Shared, Text,
};
use std::alloc::Global;

const ABSENT: &'static str = "absent";

const REFUSED: &'static str =
    "the retry strategy indicates that an initial request shouldn't be made, but it didn't specify why";

impl Standing {
    /// Takes in an answer to a question of this kind, which asked for a sleep of `nanos`
    /// nanoseconds where it is a Start.
    #[tactic(auto, unfolding(crate::specs::Change::changed))]
    pub fn take_in(
        &mut self,
        alloc: Global,
        kind: Kind,
        nanos: Option<u64>,
        answer: &Answer,
    ) -> Result<(), OutOfMemory>
        ensures ok { OnOk result (self.new ≡ change.changed kind nanos answer.now self.old) }
        ensures err { OnErr result (self.new ≡ self.old) }
    {
        match kind {
            Kind::Configure(stage) => self.configured(alloc, stage, answer),
            Kind::Hook(hook) => self.hooked(alloc, hook, answer),
            Kind::Serialize => self.serialized(alloc, answer),
            Kind::Load => self.loaded(alloc, answer),
            Kind::Initial => self.granted(alloc, answer),
            Kind::Start(role) => self.started(alloc, role, nanos, answer),
            Kind::Wait(role) => self.waited(alloc, role, answer),
            Kind::Choose => self.chosen(alloc, answer),
            Kind::Endpoint => self.resolved(alloc, answer),
            Kind::Apply | Kind::Sign => self.rewritten(alloc, answer),
            Kind::Transmit => self.transmitted(alloc, answer),
            Kind::Stream => self.streamed(alloc, answer),
            Kind::Body => self.body_read(alloc, answer),
            Kind::Deserialize => self.deserialized(alloc, answer),
            Kind::Decide => self.decided(alloc, answer),
            Kind::Abandon(_) | Kind::Park => Ok(()),
        }
    }

    fn fail(&mut self, alloc: Global, kind: FaultKind, text: Text) -> Result<(), OutOfMemory>
        ensures ok { OnOk result (self.new ≡ change.fails_with self.old kind text) }
        ensures err { OnErr result (self.new ≡ self.old) }
    {
        self.context.fail(alloc, Fault { kind, text })
    }

    fn be_absent(&mut self, alloc: Global) -> Result<(), OutOfMemory>
        ensures ok { OnOk result (self.new ≡ change.absent self.old) }
        ensures err { OnErr result (self.new ≡ self.old) }
    {
        self.fail(alloc, FaultKind::Other, Text::from_static(ABSENT))
    }

    // An untyped failure, or an absent part.
    fn fail_by(&mut self, alloc: Global, answer: &Answer) -> Result<(), OutOfMemory>
        ensures ok { OnOk result (self.new ≡ change.or_fails self.old answer.now) }
        ensures err { OnErr result (self.new ≡ self.old) }
    {
        match answer {
            Answer::Failed(text) => self.fail(alloc, FaultKind::Other, text.clone()?),
            Answer::Absent => self.be_absent(alloc),
            _ => Ok(()),
        }
    }

    fn configured(
        &mut self,
        alloc: Global,
        stage: ConfigureStage,
        answer: &Answer,
    ) -> Result<(), OutOfMemory>
        ensures ok { OnOk result (self.new ≡ change.on_configure stage self.old answer.now) }
        ensures err { OnErr result (self.new ≡ self.old) }
    {
        match answer {
            Answer::Layer(layer) => self.layered(alloc, stage, layer),
            _ => self.fail_by(alloc, answer),
        }
    }

    fn layered(
        &mut self,
        alloc: Global,
        stage: ConfigureStage,
        layer: &Layer,
    ) -> Result<(), OutOfMemory>
        ensures ok { OnOk result (self.new ≡ change.configured_by stage self.old layer.now) }
        ensures err { OnErr result (self.new ≡ self.old) }
    {
        match stage {
            ConfigureStage::Client | ConfigureStage::Operation => {
                let frozen = layer.clone()?.freeze();
                self.context.view.settings.push_layer(alloc, frozen)
            }
            ConfigureStage::Final => self.context.view.settings.merge(alloc, layer),
        }
    }

    fn hooked(&mut self, alloc: Global, hook: Hook, answer: &Answer) -> Result<(), OutOfMemory>
        ensures ok { OnOk result (self.new ≡ change.on_hook hook self.old answer.now) }
        ensures err { OnErr result (self.new ≡ self.old) }
    {
        match answer {
            Answer::Hooked(reply) => match reply.did() {
                Some(answer) => self.hook_answered(alloc, hook, answer),
                None => Ok(()),
            },
            _ => Ok(()),
        }
    }

    fn hook_answered(
        &mut self,
        alloc: Global,
        hook: Hook,
        answer: &HookAnswer,
    ) -> Result<(), OutOfMemory>
        ensures ok { OnOk result (self.new ≡ change.hooked_by hook self.old answer.now) }
        ensures err { OnErr result (self.new ≡ self.old) }
    {
        let failure = failure_of(alloc, hook, &answer.failure)?;
        let mut settings = self.context.view.settings.clone()?;
        settings.merge(alloc, &answer.settings)?;
        self.write_any(hook, &answer.change)?;
        self.context.view.settings = settings;
        if let Some(failure) = failure {
            self.context.view.outcome = Some(failure);
        }
        Ok(())
    }

    // Makes the change of a hook, where it has one that it may write.
    fn write_any(&mut self, hook: Hook, written: &Option<Change>) -> Result<(), OutOfMemory>
        ensures ok { OnOk result (self.new ≡ change.written_by hook self.old written.now) }
        ensures kept { OnOk result (self.new.context.view.settings ≡
            self.old.context.view.settings) }
        ensures err { OnErr result (self.new ≡ self.old) }
    {
        match written {
            Some(written) => self.write(hook, written),
            None => Ok(()),
        }
    }

    // Makes the change that this hook may write, and ignores any other.
    fn write(&mut self, hook: Hook, written: &Change) -> Result<(), OutOfMemory>
        ensures ok { OnOk result (self.new ≡ change.written hook self.old written.now) }
        ensures kept { OnOk result (self.new.context.view.settings ≡
            self.old.context.view.settings) }
        ensures err { OnErr result (self.new ≡ self.old) }
    {
        match written {
            Change::Input(changed) => {
                if writes_input(hook) {
                    self.context.view.input = Some(changed.clone()?);
                }
            }
            Change::Request(changed) => {
                if writes_request(hook) {
                    self.context.view.request = Some(changed.clone()?);
                }
            }
            Change::Response(changed) => {
                if writes_response(hook) {
                    self.context.view.response = Some(changed.clone()?);
                }
            }
            Change::Outcome(changed) => {
                if writes_outcome(hook) {
                    self.context.view.outcome = Some(changed.clone()?);
                }
            }
        }
        Ok(())
    }

    fn serialized(&mut self, alloc: Global, answer: &Answer) -> Result<(), OutOfMemory>
        ensures ok { OnOk result (self.new ≡ change.on_serialize self.old answer.now) }
        ensures err { OnErr result (self.new ≡ self.old) }
    {
        match answer {
            Answer::Request(request) => {
                let request = request.clone()?;
                self.begin_serialization();
                self.context.view.request = Some(request);
                if !self.loads_body() {
                    self.context.phase = Phase::BeforeTransmit;
                }
                Ok(())
            }
            Answer::Failed(text) => {
                self.fail(alloc, FaultKind::Other, text.clone()?)?;
                self.begin_serialization();
                Ok(())
            }
            Answer::Absent => {
                self.be_absent(alloc)?;
                self.begin_serialization();
                Ok(())
            }
            _ => {
                self.begin_serialization();
                Ok(())
            }
        }
    }

    fn begin_serialization(&mut self)
        ensures { self.new ≡ change.serializing self.old }
    {
        self.context.view.input = None;
        self.context.phase = Phase::Serialization;
    }

    fn loaded(&mut self, alloc: Global, answer: &Answer) -> Result<(), OutOfMemory>
        ensures ok { OnOk result (self.new ≡ change.on_load self.old answer.now) }
        ensures err { OnErr result (self.new ≡ self.old) }
    {
        match answer {
            Answer::Loaded(bytes) => {
                let request = request_with(alloc, &self.context.view.request, bytes.clone()?)?;
                self.context.view.request = request;
                self.context.phase = Phase::BeforeTransmit;
                Ok(())
            }
            _ => self.fail_by(alloc, answer),
        }
    }

    fn granted(&mut self, alloc: Global, answer: &Answer) -> Result<(), OutOfMemory>
        ensures ok { OnOk result (self.new ≡ change.on_initial self.old answer.now) }
        ensures err { OnErr result (self.new ≡ self.old) }
    {
        match answer {
            Answer::Go => self.begin_attempts(),
            Answer::No => {
                if self.context.view.attempt == 0 {
                    return self.fail(alloc, FaultKind::Other, Text::from_static(REFUSED));
                }
                Ok(())
            }
            Answer::Delay(nanos) => {
                self.delay = Some(*nanos);
                Ok(())
            }
            _ => self.fail_by(alloc, answer),
        }
    }

    // The first attempt begins. A later one stands already: nothing changes.
    fn begin_attempts(&mut self) -> Result<(), OutOfMemory>
        ensures ok { OnOk result (self.new ≡ change.on_initial self.old answers.Go) }
        ensures err { OnErr result (self.new ≡ self.old) }
    {
        if self.context.view.attempt != 0 {
            return Ok(());
        }
        self.context.save_checkpoint()?;
        self.context.view.attempt = 1;
        Ok(())
    }

    // Begins a further attempt, where a checkpoint stands.
    fn rewind(&mut self) -> Result<(), OutOfMemory>
        ensures ok { OnOk result (self.new ≡ change.rewound self.old) }
        ensures err { OnErr result (self.new ≡ self.old) }
    {
        if self.context.checkpoint.is_none() {
            return Ok(());
        }
        self.context.restore_checkpoint()?;
        self.context.view.attempt = self.context.view.attempt.saturating_add(1);
        self.scheme = None;
        self.identity = None;
        self.endpoint = None;
        Ok(())
    }

    fn started(
        &mut self,
        alloc: Global,
        role: Role,
        nanos: Option<u64>,
        answer: &Answer,
    ) -> Result<(), OutOfMemory>
        ensures ok { OnOk result (self.new ≡ change.on_start role nanos self.old answer.now) }
        ensures err { OnErr result (self.new ≡ self.old) }
    {
        match answer {
            Answer::Started => match role {
                Role::Operation => {
                    self.operation_deadline = nanos;
                    Ok(())
                }
                Role::Attempt => {
                    self.attempt_deadline = nanos;
                    Ok(())
                }
                Role::Retry => self.rewind(),
                Role::Send | Role::LongPoll => Ok(()),
            },
            Answer::Absent => {
                if matches!(role, Role::Send | Role::Retry) {
                    return self.be_absent(alloc);
                }
                Ok(())
            }
            _ => Ok(()),
        }
    }

    fn waited(&mut self, alloc: Global, role: Role, answer: &Answer) -> Result<(), OutOfMemory>
        ensures ok { OnOk result (self.new ≡ change.on_wait role self.old answer.now) }
        ensures err { OnErr result (self.new ≡ self.old) }
    {
        match answer {
            Answer::Ready => match role {
                Role::Operation => {
                    let nanos = self.operation_deadline.unwrap_or(0);
                    let text = operation_timeout_text(alloc, nanos)?;
                    self.fail(alloc, FaultKind::Timeout, text)
                }
                Role::Attempt => {
                    let nanos = self.attempt_deadline.unwrap_or(0);
                    let text = attempt_timeout_text(alloc, nanos)?;
                    self.fail(alloc, FaultKind::Timeout, text)
                }
                Role::Send | Role::Retry | Role::LongPoll => Ok(()),
            },
            _ => Ok(()),
        }
    }

    fn chosen(&mut self, alloc: Global, answer: &Answer) -> Result<(), OutOfMemory>
        ensures ok { OnOk result (self.new ≡ change.on_choose self.old answer.now) }
        ensures err { OnErr result (self.new ≡ self.old) }
    {
        match answer {
            Answer::Chosen(chosen) => self.choose(alloc, chosen.get()),
            _ => self.fail_by(alloc, answer),
        }
    }

    fn choose(&mut self, alloc: Global, chosen: &Chosen) -> Result<(), OutOfMemory>
        ensures ok { OnOk result (self.new ≡ change.chosen_by self.old chosen.now) }
        ensures err { OnErr result (self.new ≡ self.old) }
    {
        let scheme = chosen.scheme.clone()?;
        let identity = chosen.identity.clone()?;
        let endpoint = chosen.endpoint.clone()?;
        self.context.view.settings.merge(alloc, &chosen.settings)?;
        self.scheme = Some(scheme);
        self.identity = Some(identity);
        self.endpoint = endpoint;
        Ok(())
    }

    fn resolved(&mut self, alloc: Global, answer: &Answer) -> Result<(), OutOfMemory>
        ensures ok { OnOk result (self.new ≡ change.on_endpoint self.old answer.now) }
        ensures err { OnErr result (self.new ≡ self.old) }
    {
        match answer {
            Answer::Endpoint(endpoint) => {
                self.endpoint = Some(endpoint.clone()?);
                Ok(())
            }
            _ => self.fail_by(alloc, answer),
        }
    }

    fn rewritten(&mut self, alloc: Global, answer: &Answer) -> Result<(), OutOfMemory>
        ensures ok { OnOk result (self.new ≡ change.on_request self.old answer.now) }
        ensures err { OnErr result (self.new ≡ self.old) }
    {
        match answer {
            Answer::Request(request) => {
                self.context.view.request = Some(request.clone()?);
                Ok(())
            }
            _ => self.fail_by(alloc, answer),
        }
    }

    fn transmitted(&mut self, alloc: Global, answer: &Answer) -> Result<(), OutOfMemory>
        ensures ok { OnOk result (self.new ≡ change.on_transmit self.old answer.now) }
        ensures err { OnErr result (self.new ≡ self.old) }
    {
        match answer {
            Answer::Pending => Ok(()),
            Answer::Response(response) => {
                self.context.view.response = Some(response.clone()?);
                self.context.phase = Phase::BeforeDeserialization;
                Ok(())
            }
            Answer::ConnectorFailed(kind, text) => {
                self.fail(alloc, FaultKind::Connector(*kind), text.clone()?)?;
                self.context.phase = Phase::Transmit;
                Ok(())
            }
            _ => {
                self.fail_by(alloc, answer)?;
                self.context.phase = Phase::Transmit;
                Ok(())
            }
        }
    }

    fn streamed(&mut self, alloc: Global, answer: &Answer) -> Result<(), OutOfMemory>
        ensures ok { OnOk result (self.new ≡ change.on_stream self.old answer.now) }
        ensures err { OnErr result (self.new ≡ self.old) }
    {
        match answer {
            Answer::Outcome(outcome) => self.settle(outcome),
            Answer::Absent => self.settle_absent(alloc),
            _ => {
                self.context.phase = Phase::Deserialization;
                Ok(())
            }
        }
    }

    fn body_read(&mut self, alloc: Global, answer: &Answer) -> Result<(), OutOfMemory>
        ensures ok { OnOk result (self.new ≡ change.on_body self.old answer.now) }
        ensures err { OnErr result (self.new ≡ self.old) }
    {
        match answer {
            Answer::Read(bytes) => {
                let response = response_with(alloc, &self.context.view.response, bytes.clone()?)?;
                self.context.view.response = response;
                Ok(())
            }
            Answer::Failed(text) => {
                self.fail(alloc, FaultKind::Response, text.clone()?)?;
                self.context.phase = Phase::AfterDeserialization;
                Ok(())
            }
            Answer::Absent => self.settle_absent(alloc),
            _ => Ok(()),
        }
    }

    fn deserialized(&mut self, alloc: Global, answer: &Answer) -> Result<(), OutOfMemory>
        ensures ok { OnOk result (self.new ≡ change.on_deserialize self.old answer.now) }
        ensures err { OnErr result (self.new ≡ self.old) }
    {
        match answer {
            Answer::Outcome(outcome) => self.settle(outcome),
            Answer::Absent => self.settle_absent(alloc),
            _ => Ok(()),
        }
    }

    // The outcome of the response stands.
    fn settle(&mut self, outcome: &Shared<Outcome>) -> Result<(), OutOfMemory>
        ensures ok { OnOk result (self.new ≡ change.settled self.old outcome.now) }
        ensures err { OnErr result (self.new ≡ self.old) }
    {
        self.context.view.outcome = Some(outcome.clone()?);
        self.context.phase = Phase::AfterDeserialization;
        Ok(())
    }

    fn settle_absent(&mut self, alloc: Global) -> Result<(), OutOfMemory>
        ensures ok { OnOk result (self.new ≡ change.settled_absent self.old) }
        ensures err { OnErr result (self.new ≡ self.old) }
    {
        self.be_absent(alloc)?;
        self.context.phase = Phase::AfterDeserialization;
        Ok(())
    }

    fn decided(&mut self, alloc: Global, answer: &Answer) -> Result<(), OutOfMemory>
        ensures ok { OnOk result (self.new ≡ change.on_decide self.old answer.now) }
        ensures err { OnErr result (self.new ≡ self.old) }
    {
        match answer {
            Answer::Decided(choice, _) => match choice {
                Choice::Yes => self.rewind(),
                Choice::No => Ok(()),
                Choice::NoAfter(nanos) | Choice::Delay(nanos) => {
                    self.delay = Some(*nanos);
                    Ok(())
                }
            },
            _ => self.fail_by(alloc, answer),
        }
    }
}

// The failure of a hook, where it failed.
fn failure_of(
    alloc: Global,
    hook: Hook,
    text: &Option<Text>,
) -> Result<Option<Shared<Outcome>>, OutOfMemory>
    ensures { IfOk result (λ o. o ≡ change.hook_failure hook text.now) }
{
    let Some(text) = text else {
        return Ok(None);
    };
    let fault = Fault {
        kind: FaultKind::Interceptor(hook),
        text: text.clone()?,
    };
    Ok(Some(Shared::new(alloc, Outcome::Failed(fault))?))
}

// The request with these bytes as its body, where one stands.
fn request_with(
    alloc: Global,
    request: &Option<Shared<HttpRequest>>,
    bytes: Blob,
) -> Result<Option<Shared<HttpRequest>>, OutOfMemory>
    ensures { IfOk result (λ r. r ≡ change.with_body request.now bytes) }
{
    let Some(request) = request else {
        return Ok(None);
    };
    let request = request.get();
    let changed = HttpRequest {
        method: request.method.clone()?,
        uri: request.uri.clone()?,
        headers: request.headers.clone()?,
        body: Body::Bytes(bytes),
    };
    Ok(Some(Shared::new(alloc, changed)?))
}

// The response with these bytes as its body, where one stands.
fn response_with(
    alloc: Global,
    response: &Option<Shared<HttpResponse>>,
    bytes: Blob,
) -> Result<Option<Shared<HttpResponse>>, OutOfMemory>
    ensures { IfOk result (λ r. r ≡ change.with_response_body response.now bytes) }
{
    let Some(response) = response else {
        return Ok(None);
    };
    let response = response.get();
    let changed = HttpResponse {
        status: response.status,
        headers: response.headers.clone()?,
        body: Body::Bytes(bytes),
    };
    Ok(Some(Shared::new(alloc, changed)?))
}

fn operation_timeout_text(alloc: Global, nanos: u64) -> Result<Text, OutOfMemory>
    ensures { IfOk result (λ t. t ≡ change.operation_timeout_text nanos) }
{
    let text = format!(in alloc;
        "operation timeout (all attempts including retries) occurred after {nanos} ns"
    )?;
    Text::from_string(text)
}

fn attempt_timeout_text(alloc: Global, nanos: u64) -> Result<Text, OutOfMemory>
    ensures { IfOk result (λ t. t ≡ change.attempt_timeout_text nanos) }
{
    let text = format!(in alloc;
        "operation attempt timeout (single attempt) occurred after {nanos} ns"
    )?;
    Text::from_string(text)
}

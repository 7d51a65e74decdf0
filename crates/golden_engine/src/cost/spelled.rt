//! Answers as tables spell them.
ghost use Rattle.std.specs.Prelude.{◌≡◌, IfOk};

use run_grammar::{Answer, Chosen};
use smithy_context::Layer;
use smithy_types::{
    Blob, Body, Choice, ConnectorKind, Endpoint, Fault, FaultKind, Headers, HttpRequest,
    HttpResponse, Identity, List, OutOfMemory, Outcome, Payload, Shared, Text,
};
use std::alloc::Global;

/// The body of each request.
const QUESTION: &str = "what are you?";

/// An answer, made of numbers and of texts that stand in the program.
#[derive(Clone, Copy)]
pub enum Spelled {
    /// A layer without settings.
    NoSettings,
    /// A GET of this URI, with a body in memory.
    Request(&'static str),
    Go,
    /// No auth and no identity.
    Chosen,
    Endpoint(&'static str),
    /// The status and the body.
    Response(u16, &'static str),
    NotStreaming,
    Read(&'static str),
    /// The output's kind and bytes.
    Output(u32, &'static str),
    /// The outcome is a failure of the connector, with Io.
    OutcomeConnector(&'static str),
    Decided(Choice),
    Started,
    Ready,
}

impl Spelled {
    /// The answer that is spelled.
    pub fn answer(self, alloc: Global) -> Result<Answer, OutOfMemory> {
        Ok(match self {
            Spelled::NoSettings => Answer::Layer(Layer::new()),
            Spelled::Request(uri) => request(alloc, uri)?,
            Spelled::Go => Answer::Go,
            Spelled::Chosen => chosen(alloc)?,
            Spelled::Endpoint(url) => endpoint(alloc, url)?,
            Spelled::Response(status, body) => response(alloc, status, body)?,
            Spelled::NotStreaming => Answer::NotStreaming,
            Spelled::Read(body) => Answer::Read(blob(alloc, body)?),
            Spelled::Output(kind, bytes) => {
                outcome(alloc, Outcome::Output(payload(alloc, kind, bytes)?))?
            }
            Spelled::OutcomeConnector(text) => failed(alloc, text)?,
            Spelled::Decided(choice) => Answer::Decided(choice, None),
            Spelled::Started => Answer::Started,
            Spelled::Ready => Answer::Ready,
        })
    }
}

/// A payload of this kind with the text's bytes.
pub fn payload(alloc: Global, kind: u32, text: &str) -> Result<Payload, OutOfMemory>
    ensures kind { IfOk result (λ p. p.kind ≡ kind) }
    ensures bytes { IfOk result (λ p. p.bytes ≡ text.now) }
{
    Ok(Payload {
        kind,
        bytes: blob(alloc, text)?,
    })
}

fn blob(alloc: Global, text: &str) -> Result<Blob, OutOfMemory>
    ensures { IfOk result (λ b. b ≡ text.now) }
{
    Blob::from_slice(alloc, text.as_bytes())
}

fn request(alloc: Global, uri: &'static str) -> Result<Answer, OutOfMemory> {
    let request = HttpRequest {
        method: Text::from_static("GET"),
        uri: Text::from_static(uri),
        headers: Headers::new(),
        body: Body::Bytes(blob(alloc, QUESTION)?),
    };
    Ok(Answer::Request(Shared::new(alloc, request)?))
}

fn chosen(alloc: Global) -> Result<Answer, OutOfMemory> {
    let identity = Identity {
        content: Blob::new(),
        expiration: None,
    };
    let chosen = Chosen {
        scheme: Text::from_static("noAuth"),
        identity: Shared::new(alloc, identity)?,
        endpoint: None,
        settings: Layer::new(),
        note: None,
    };
    Ok(Answer::Chosen(Shared::new(alloc, chosen)?))
}

fn endpoint(alloc: Global, url: &'static str) -> Result<Answer, OutOfMemory> {
    let endpoint = Endpoint {
        url: Text::from_static(url),
        headers: List::new(),
        schemes: None,
    };
    Ok(Answer::Endpoint(Shared::new(alloc, endpoint)?))
}

fn response(alloc: Global, status: u16, body: &str) -> Result<Answer, OutOfMemory> {
    let response = HttpResponse {
        status,
        headers: Headers::new(),
        body: Body::Bytes(blob(alloc, body)?),
    };
    Ok(Answer::Response(Shared::new(alloc, response)?))
}

fn outcome(alloc: Global, outcome: Outcome) -> Result<Answer, OutOfMemory> {
    Ok(Answer::Outcome(Shared::new(alloc, outcome)?))
}

fn failed(alloc: Global, text: &'static str) -> Result<Answer, OutOfMemory> {
    let kind = FaultKind::Connector(ConnectorKind::Io);
    let text = Text::from_static(text);
    outcome(alloc, Outcome::Failed(Fault { kind, text }))
}

//! One answer of each form.
use run_grammar::{Answer, Chosen};
use smithy_context::{Change, HookAnswer, HookReply, Layer, Setting};
use smithy_types::{
    Blob, Body, Choice, ConnectorKind, Endpoint, Fault, FaultKind, Headers, HttpRequest,
    HttpResponse, Identity, List, OutOfMemory, Outcome, Payload, Shared, Text, TimeoutConfig,
};
use std::alloc::Global;

/// The form of an answer, with values that are the same in every row.
#[derive(Clone, Copy, Debug, PartialEq, Eq)]
pub enum Form {
    Pending,
    Absent,
    Failed,
    ConnectorFailed,
    /// A layer that sets the bucket 2.
    Layer,
    /// A layer with two timeouts, of 50 and 70 ns, and the bucket 1.
    Timeouts,
    /// A layer by which the request's body is loaded.
    LoadBody,
    /// A hook that does nothing, one that sets the bucket 3, and one that fails.
    Done,
    Sets,
    Fails,
    /// A hook that writes a part.
    WritesInput,
    WritesRequest,
    WritesResponse,
    WritesOutput,
    WritesFailure,
    /// A request whose body is in memory, and one that can be sent once.
    Request,
    RequestOnce,
    Loaded,
    Go,
    No,
    Delay,
    Started,
    Ready,
    /// Without an endpoint and settings, and with both.
    Chosen,
    ChosenWhole,
    Endpoint,
    Response,
    NotStreaming,
    Output,
    Failure,
    Read,
    DecidedYes,
    DecidedNo,
    DecidedNoAfter,
    DecidedDelay,
    Abandoned,
    Parked,
    NoMemory,
}

/// Every form, once.
pub const FORMS: [Form; 38] = [
    Form::Pending,
    Form::Absent,
    Form::Failed,
    Form::ConnectorFailed,
    Form::Layer,
    Form::Timeouts,
    Form::LoadBody,
    Form::Done,
    Form::Sets,
    Form::Fails,
    Form::WritesInput,
    Form::WritesRequest,
    Form::WritesResponse,
    Form::WritesOutput,
    Form::WritesFailure,
    Form::Request,
    Form::RequestOnce,
    Form::Loaded,
    Form::Go,
    Form::No,
    Form::Delay,
    Form::Started,
    Form::Ready,
    Form::Chosen,
    Form::ChosenWhole,
    Form::Endpoint,
    Form::Response,
    Form::NotStreaming,
    Form::Output,
    Form::Failure,
    Form::Read,
    Form::DecidedYes,
    Form::DecidedNo,
    Form::DecidedNoAfter,
    Form::DecidedDelay,
    Form::Abandoned,
    Form::Parked,
    Form::NoMemory,
];

/// The answer of this form.
pub fn answer(alloc: Global, form: Form) -> Result<Answer, OutOfMemory> {
    match form {
        Form::Pending => Ok(Answer::Pending),
        Form::Absent => Ok(Answer::Absent),
        Form::Failed => Ok(Answer::Failed(Text::from_static("x"))),
        Form::ConnectorFailed => {
            Ok(Answer::ConnectorFailed(ConnectorKind::Io, Text::from_static("x")))
        }
        Form::Go => Ok(Answer::Go),
        Form::No => Ok(Answer::No),
        Form::Delay => Ok(Answer::Delay(5)),
        Form::Started => Ok(Answer::Started),
        Form::Ready => Ok(Answer::Ready),
        Form::NotStreaming => Ok(Answer::NotStreaming),
        Form::DecidedYes => Ok(Answer::Decided(Choice::Yes, None)),
        Form::DecidedNo => Ok(Answer::Decided(Choice::No, None)),
        Form::DecidedNoAfter => Ok(Answer::Decided(Choice::NoAfter(7), None)),
        Form::DecidedDelay => Ok(Answer::Decided(Choice::Delay(6), None)),
        Form::Abandoned => Ok(Answer::Abandoned),
        Form::Parked => Ok(Answer::Parked),
        Form::NoMemory => Ok(Answer::NoMemory),
        _ => part(alloc, form),
    }
}

// An answer that hands on a part.
fn part(alloc: Global, form: Form) -> Result<Answer, OutOfMemory> {
    match form {
        Form::Request => Ok(Answer::Request(request(alloc, "/b", false)?)),
        Form::RequestOnce => Ok(Answer::Request(request(alloc, "/o", true)?)),
        Form::Loaded => Ok(Answer::Loaded(Blob::from_slice(alloc, b"abc")?)),
        Form::Endpoint => Ok(Answer::Endpoint(endpoint(alloc, "http://f")?)),
        Form::Response => Ok(Answer::Response(response(alloc)?)),
        Form::Read => Ok(Answer::Read(Blob::from_slice(alloc, b"abcd")?)),
        Form::Output => Ok(Answer::Outcome(Shared::new(alloc, output())?)),
        Form::Failure => Ok(Answer::Outcome(Shared::new(alloc, failure())?)),
        Form::Chosen => chosen(alloc, None, Layer::new()),
        Form::ChosenWhole => {
            let endpoint = endpoint(alloc, "http://e")?;
            chosen(alloc, Some(endpoint), bucket(alloc, 4)?)
        }
        Form::Layer => Ok(Answer::Layer(bucket(alloc, 2)?)),
        Form::Timeouts => Ok(Answer::Layer(timeouts(alloc)?)),
        Form::LoadBody => Ok(Answer::Layer(layer(alloc, Setting::LoadBody(true))?)),
        _ => hooked(alloc, form),
    }
}

// A hook's answer.
fn hooked(alloc: Global, form: Form) -> Result<Answer, OutOfMemory> {
    let mut answer = HookAnswer::done();
    match form {
        Form::Sets => answer.settings = bucket(alloc, 3)?,
        Form::Fails => answer.failure = Some(Text::from_static("x")),
        _ => answer.change = written(alloc, form)?,
    }
    Ok(Answer::Hooked(HookReply::of(alloc, answer)?))
}

// What a hook writes.
fn written(alloc: Global, form: Form) -> Result<Option<Change>, OutOfMemory> {
    match form {
        Form::WritesInput => Ok(Some(Change::Input(Shared::new(alloc, payload(8))?))),
        Form::WritesRequest => Ok(Some(Change::Request(request(alloc, "/h", true)?))),
        Form::WritesResponse => Ok(Some(Change::Response(response(alloc)?))),
        Form::WritesOutput => Ok(Some(Change::Outcome(Shared::new(alloc, output())?))),
        Form::WritesFailure => Ok(Some(Change::Outcome(Shared::new(alloc, failure())?))),
        _ => Ok(None),
    }
}

/// A payload of this kind without bytes.
pub fn payload(kind: u32) -> Payload {
    Payload {
        kind,
        bytes: Blob::new(),
    }
}

fn output() -> Outcome {
    Outcome::Output(payload(9))
}

fn failure() -> Outcome {
    Outcome::Failed(Fault {
        kind: FaultKind::Response,
        text: Text::from_static("y"),
    })
}

fn request(
    alloc: Global,
    uri: &'static str,
    is_once: bool,
) -> Result<Shared<HttpRequest>, OutOfMemory> {
    let bytes = Blob::from_slice(alloc, b"ab")?;
    let body = if is_once {
        Body::Once(bytes)
    } else {
        Body::Bytes(bytes)
    };
    Shared::new(
        alloc,
        HttpRequest {
            method: Text::from_static("GET"),
            uri: Text::from_static(uri),
            headers: Headers::new(),
            body,
        },
    )
}

fn response(alloc: Global) -> Result<Shared<HttpResponse>, OutOfMemory> {
    Shared::new(
        alloc,
        HttpResponse {
            status: 418,
            headers: Headers::new(),
            body: Body::Taken,
        },
    )
}

fn endpoint(alloc: Global, url: &'static str) -> Result<Shared<Endpoint>, OutOfMemory> {
    Shared::new(
        alloc,
        Endpoint {
            url: Text::from_static(url),
            headers: List::new(),
            schemes: None,
        },
    )
}

fn chosen(
    alloc: Global,
    endpoint: Option<Shared<Endpoint>>,
    settings: Layer,
) -> Result<Answer, OutOfMemory> {
    let identity = Identity {
        content: Blob::from_slice(alloc, b"id")?,
        expiration: None,
    };
    let chosen = Chosen {
        scheme: Text::from_static("noAuth"),
        identity: Shared::new(alloc, identity)?,
        endpoint,
        settings,
        note: None,
    };
    Ok(Answer::Chosen(Shared::new(alloc, chosen)?))
}

fn layer(alloc: Global, setting: Setting) -> Result<Layer, OutOfMemory> {
    let mut layer = Layer::new();
    layer.put(alloc, setting)?;
    Ok(layer)
}

fn bucket(alloc: Global, number: u32) -> Result<Layer, OutOfMemory> {
    layer(alloc, Setting::Bucket(number))
}

fn timeouts(alloc: Global) -> Result<Layer, OutOfMemory> {
    let mut layer = bucket(alloc, 1)?;
    let timeouts = TimeoutConfig {
        connect: None,
        read: None,
        operation: Some(50),
        attempt: Some(70),
    };
    layer.put(alloc, Setting::Timeouts(timeouts))?;
    Ok(layer)
}

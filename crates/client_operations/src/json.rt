//! The protocol of a service that speaks JSON: its requests and its responses.
ghost use Rattle.std.specs.Prelude.{◌≡◌, ◌++◌, IfOk, is_some};
ghost use Rattle.http_schemes.specs.Encoding.{encoded};
ghost use Rattle.client_operations.specs.JsonProtocol.{Posted, asked_for, read_outcome};

use auth_endpoint::Signed;
use client_auth::responses::{body_bytes, failed};
use client_auth::{DeserializeResponse, SerializeRequest, Serialized};
use client_builder::OperationBuilder;
use http_schemes::{BearerAuthScheme, HttpIdentityResolver, encode, sign_by_header};
use json_payloads::{ModeledError, ServiceError, read_json};
use smithy_context::Settings;
use smithy_types::{
    Blob, Body, FaultKind, Headers, HttpRequest, HttpResponse, OutOfMemory, Outcome, Payload, Text,
};
use std::alloc::Global;
use std::marker::PhantomData;

/// The builder of an operation that takes `In`, answers `Out` and refuses by `E`, whose requests are
/// signed by a bearer token.
pub type JsonBuilder<In, Out, E> = OperationBuilder<
    In,
    Out,
    ServiceError<E>,
    BearerAuthScheme,
    HttpIdentityResolver,
    JsonSerializer,
    JsonDeserializer<E>,
>;

/// How an operation's inputs become requests.
#[derive(Clone, Copy, Debug, PartialEq, Eq)]
pub enum JsonSerializer {
    /// The input's JSON is posted to this path, and the header `content-type` tells its type.
    Post {
        /// The path.
        path: &'static str,
    },
    /// The input is a text. It ends the path that is asked for, spelled as a path wants it.
    Get {
        /// What stands before the text.
        path: &'static str,
        /// The kind of the input's payloads.
        input: u32,
    },
}

impl SerializeRequest for JsonSerializer {
    ghost use Rattle.client_operations.specs.JsonProtocol.{Requested};

    ghost serializes = { λ serializer input _ serialized. Requested serializer input serialized };

    fn serialize(
        &self,
        alloc: Global,
        input: &Payload,
        _settings: &Settings,
    ) -> Result<Serialized, OutOfMemory> {
        match self {
            JsonSerializer::Post { path } => post(alloc, path, input),
            JsonSerializer::Get { path, input: kind } => get(alloc, path, *kind, input),
        }
    }
}

// The input's JSON as the body of a request.
fn post(alloc: Global, path: &'static str, input: &Payload) -> Result<Serialized, OutOfMemory>
    ensures { IfOk result (λ serialized. Posted path.now input.now serialized) }
{
    let request = HttpRequest {
        method: Text::from_static("POST"),
        uri: Text::from_static(path),
        headers: Headers::new(),
        body: Body::Bytes(input.bytes.clone()?),
    };
    match sign_by_header(alloc, request, b"content-type", b"application/json")? {
        Signed::Request(request) => Ok(Serialized::Request(request)),
        Signed::Failed(text) => Ok(Serialized::Failed(text)),
    }
}

// A request that the input's text ends the path of.
fn get(alloc: Global, path: &str, kind: u32, input: &Payload) -> Result<Serialized, OutOfMemory>
    ensures { IfOk result (λ serialized. serialized ≡ asked_for path.now kind input.now) }
{
    let label: Option<Text> = read_json(alloc, kind, input)?;
    match label {
        Some(label) => Ok(Serialized::Request(HttpRequest {
            method: Text::from_static("GET"),
            uri: labelled(alloc, path, label.as_str())?,
            headers: Headers::new(),
            body: Body::Bytes(Blob::new()),
        })),
        None => Ok(Serialized::Failed(Text::from_static("no text for the path"))),
    }
}

// The path with a label behind it.
fn labelled(alloc: Global, path: &str, label: &str) -> Result<Text, OutOfMemory>
    ensures { IfOk result (λ uri. uri ≡ path.now ++ encoded label.now) }
{
    let label = encode(alloc, label.as_bytes())?;
    let mut uri = String::from_str(alloc, path)?;
    uri.push_str(label.as_str())?;
    Text::from_string(uri)
}

/// Reads the responses of an operation: an output where the status is from 200 to 299, and the
/// model's error of another status.
#[derive(Debug, Drop)]
pub struct JsonDeserializer<E> {
    output: u32,
    errors: PhantomData<E>,
}

impl<E> JsonDeserializer<E> {
    /// Outputs are payloads of this kind.
    pub fn new(output: u32) -> JsonDeserializer<E>
        ensures { result.output ≡ output }
    {
        JsonDeserializer {
            output,
            errors: PhantomData,
        }
    }
}

impl<E: ModeledError + Drop> DeserializeResponse for JsonDeserializer<E> {
    ghost use Rattle.std.specs.Prelude.{◌≡◌, None};
    ghost use Rattle.client_operations.specs.JsonProtocol.{read_outcome};

    ghost streams = { λ _ _ _ outcome. outcome ≡ None };

    ghost deserializes = { λ deserializer response _ outcome.
        outcome ≡ read_outcome E.of_status deserializer.output response };

    fn deserialize_streaming(
        &self,
        _alloc: Global,
        _response: &HttpResponse,
        _settings: &Settings,
    ) -> Result<Option<Outcome>, OutOfMemory> {
        Ok(None)
    }

    fn deserialize_nonstreaming(
        &self,
        _alloc: Global,
        response: &HttpResponse,
        _settings: &Settings,
    ) -> Result<Outcome, OutOfMemory> {
        read_outcome::<E>(self.output, response)
    }
}

// What a response comes to: an output, an error by its status, or none that the model knows.
fn read_outcome<E: ModeledError + Drop>(
    output: u32,
    response: &HttpResponse,
) -> Result<Outcome, OutOfMemory>
    ensures { IfOk result (λ outcome. outcome ≡ read_outcome E.of_status output response.now) }
{
    let bytes = body_bytes(&response.body)?;
    let status = response.status as u32;
    if status >= 200 && status < 300 {
        Ok(Outcome::Output(Payload {
            kind: output,
            bytes,
        }))
    } else if is_modeled::<E>(status) {
        let error = Payload {
            kind: status,
            bytes,
        };
        Ok(failed(FaultKind::Operation(error), "an error of the service"))
    } else {
        Ok(failed(FaultKind::Response, "unknown status"))
    }
}

// Whether the model has an error of this status.
fn is_modeled<E: ModeledError + Drop>(status: u32) -> bool
    ensures { result ≡ is_some (E.of_status status) }
{
    E::of_status(status).is_some()
}

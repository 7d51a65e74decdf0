//! How a response becomes an output or an error.
ghost use Rattle.std.specs.Prelude.{◌≡◌, find, IfOk, option_copied};
ghost use Rattle.host_session.specs.Rules.{has_header, has_headers, holds, holds_optional, meets};
ghost use Rattle.host_session.specs.Rules.{occurs};
ghost use Rattle.host_session.specs.Service.{error_outcome, outcome_by, output_outcome};
ghost use Rattle.host_session.specs.Service.{plain_outcome, status_text};

use client_auth::DeserializeResponse;
use http_header::{HeaderName, HeaderValue};
use json_values::http::print_response;
use memchr::memmem;
use smithy_context::Settings;
use smithy_types::{
    Blob, Body, Fault, FaultKind, Headers, HttpResponse, List, OutOfMemory, Outcome, Payload, Text,
};
use std::alloc::Global;

/// The kind of an output's payload.
pub const OUTPUT_KIND: u32 = 1;

/// The kind of an error's payload.
pub const ERROR_KIND: u32 = 2;

/// Responses that are errors of a name: those of a status, with some headers, with a word in the
/// body.
#[derive(Drop)]
pub struct ErrorRule {
    /// The status.
    pub status: u16,
    /// Headers that the response has, each by its name and its value. An empty list asks for none.
    pub headers: Headers,
    /// Bytes that occur in the response's body, where some are asked for.
    pub word: Option<Blob>,
    /// The error's name. That of a kind of errors is `throttle`, `transient` or `server`.
    pub name: Blob,
}

impl ErrorRule {
    /// Whether the response is such an error.
    pub fn is_met_by(&self, response: &HttpResponse) -> bool
        ensures { result ≡ meets response.now self.now }
    {
        self.status == response.status
            && has_headers(&response.headers, &self.headers)
            && holds_optional(&response.body, &self.word)
    }
}

/// Makes an error of a response that meets a rule: its payload is the name in the first rule that
/// the response meets. Without such a rule a response from 400 on is an error whose payload is
/// empty, and any other is an output: its payload is the JSON of the whole response, an array of
/// the status, the headers and the body. It never streams.
#[derive(Drop)]
pub struct HostedDeserializer {
    /// The rules.
    pub rules: List<ErrorRule>,
}

impl HostedDeserializer {
    // The first rule that the response meets.
    fn rule_for(&self, response: &HttpResponse) -> Option<&ErrorRule>
        ensures { option_copied result ≡ find (meets response.now) self.now.rules }
    {
        self.rules
            .as_slice()
            .iter()
            .find(|rule| rule.is_met_by(response))
    }
}

impl DeserializeResponse for HostedDeserializer {
    ghost use Rattle.std.specs.Prelude.{◌≡◌, None};
    ghost use Rattle.host_session.specs.Service.{read_outcome};

    ghost streams = { λ _ response settings outcome. outcome ≡ None };

    ghost deserializes = { λ d response settings outcome. outcome ≡ read_outcome d.rules response };

    fn deserialize_streaming(
        &self,
        _alloc: Global,
        _response: &HttpResponse,
        _settings: &Settings,
    ) -> Result<Option<Outcome>, OutOfMemory> {
        Ok(None)
    }

    fn deserialize_nonstreaming(
        &self,
        alloc: Global,
        response: &HttpResponse,
        _settings: &Settings,
    ) -> Result<Outcome, OutOfMemory> {
        let outcome = outcome_by(alloc, self.rule_for(response), response)?;
        Ok(outcome)
    }
}

// What a response comes to by the rule that it meets, if there is one.
fn outcome_by(
    alloc: Global,
    rule: Option<&ErrorRule>,
    response: &HttpResponse,
) -> Result<Outcome, OutOfMemory>
    ensures { IfOk result (λ outcome. outcome ≡ outcome_by (option_copied rule.entry) response.now) }
{
    match rule {
        Some(rule) => {
            let outcome = error_of(alloc, response.status, &rule.name)?;
            Ok(outcome)
        }
        None => {
            let outcome = plain_outcome(alloc, response)?;
            Ok(outcome)
        }
    }
}

// What a response comes to that meets no rule.
fn plain_outcome(alloc: Global, response: &HttpResponse) -> Result<Outcome, OutOfMemory>
    ensures { IfOk result (λ outcome. outcome ≡ plain_outcome response.now) }
{
    if response.status >= 400 {
        let outcome = error_of(alloc, response.status, &Blob::new())?;
        return Ok(outcome);
    }
    let outcome = output_of(alloc, response)?;
    Ok(outcome)
}

// An error of this name, which a response of this status is.
fn error_of(alloc: Global, status: u16, name: &Blob) -> Result<Outcome, OutOfMemory>
    ensures { IfOk result (λ outcome. outcome ≡ error_outcome status name.now) }
{
    Ok(Outcome::Failed(Fault {
        kind: FaultKind::Operation(Payload {
            kind: ERROR_KIND,
            bytes: name.clone()?,
        }),
        text: status_text(alloc, status)?,
    }))
}

// The output that a response is.
fn output_of(alloc: Global, response: &HttpResponse) -> Result<Outcome, OutOfMemory>
    ensures { IfOk result (λ outcome. outcome ≡ output_outcome response.now) }
{
    let mut bytes = Vec::new(alloc);
    print_response(alloc, response)?.write(alloc, &mut bytes)?;
    Ok(Outcome::Output(Payload {
        kind: OUTPUT_KIND,
        bytes: Blob::from_vec(bytes)?,
    }))
}

// What is said of a response that is an error.
fn status_text(alloc: Global, status: u16) -> Result<Text, OutOfMemory>
    ensures { IfOk result (λ t. t ≡ status_text status) }
{
    let text = format!(in alloc; "status {status}")?;
    Text::from_string(text)
}

// Whether each of these headers is among the others.
fn has_headers(headers: &Headers, wanted: &Headers) -> bool
    ensures { result ≡ has_headers headers.now wanted.now }
{
    match wanted.as_map() {
        Some(map) => map
            .iter()
            .all(|(name, value)| has_header(headers, name, value)),
        None => true,
    }
}

// Whether a header has this value among its values.
fn has_header(headers: &Headers, name: &HeaderName, value: &HeaderValue) -> bool
    ensures { result ≡ has_header headers.now (name.now, value.now) }
{
    match headers.as_map() {
        Some(map) => map.get_all(name).iter().any(|held| held == value),
        None => false,
    }
}

// Whether the word, if there is one, occurs in the body.
fn holds_optional(body: &Body, word: &Option<Blob>) -> bool
    ensures { result ≡ holds_optional body.now word.now }
{
    match word {
        Some(word) => holds(body, word.as_slice()),
        None => true,
    }
}

// Whether the word occurs in the body.
fn holds(body: &Body, word: &[u8]) -> bool
    ensures { result ≡ holds body.now word.now }
{
    match body {
        Body::Bytes(bytes) | Body::Once(bytes) => occurs(bytes.as_slice(), word),
        Body::Taken => false,
    }
}

// Whether the word occurs in the bytes.
fn occurs(bytes: &[u8], word: &[u8]) -> bool
    ensures { result ≡ occurs bytes.now word.now }
{
    memmem::find(bytes, word).is_some()
}

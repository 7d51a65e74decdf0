//! What stands, as one line of text.
use anyhow::Result;
use run_grammar::Standing;
use smithy_context::{HookView, Setting, SettingKey, Settings};
use smithy_types::{Body, Endpoint, HttpRequest, HttpResponse, Identity, Outcome, Shared};
use std::alloc::Global;
use std::fmt::Display;

/// Adds a part to the text, where it stands.
pub fn tell<T: Display + Drop>(
    alloc: Global,
    text: &mut String,
    name: &'static str,
    part: Option<T>,
) -> Result<()> {
    if let Some(part) = part {
        let part = format!(in alloc; " {name} {part}")?;
        text.push_str(&part)?;
    }
    Ok(())
}

fn length_of(body: &Body) -> Option<usize> {
    match body {
        Body::Bytes(bytes) => Some(bytes.len()),
        _ => None,
    }
}

/// The number of the bucket that is set.
pub fn bucket_of(settings: &Settings) -> Option<u32> {
    match settings.load(&SettingKey::Bucket) {
        Some(Setting::Bucket(number)) => Some(*number),
        _ => None,
    }
}

/// A request by its URI, and by the length of a body that is in memory.
pub fn tell_request(
    alloc: Global,
    text: &mut String,
    request: &Option<Shared<HttpRequest>>,
) -> Result<()> {
    if let Some(request) = request {
        tell(alloc, text, "request", Some(&request.get().uri))?;
        tell(alloc, text, "body", length_of(&request.get().body))?;
    }
    Ok(())
}

/// A response by its status, and by the length of a body that is in memory.
pub fn tell_response(
    alloc: Global,
    text: &mut String,
    response: &Option<Shared<HttpResponse>>,
) -> Result<()> {
    if let Some(response) = response {
        tell(alloc, text, "response", Some(response.get().status))?;
        tell(alloc, text, "content", length_of(&response.get().body))?;
    }
    Ok(())
}

/// The outcome behind a handle.
pub fn outcome_in(outcome: &Option<Shared<Outcome>>) -> Option<&Outcome> {
    outcome.as_ref().map(|outcome| outcome.get())
}

/// An output by its kind, a failure by its kind and text.
pub fn tell_outcome(alloc: Global, text: &mut String, outcome: Option<&Outcome>) -> Result<()> {
    match outcome {
        Some(Outcome::Output(output)) => tell(alloc, text, "output", Some(output.kind)),
        Some(Outcome::Failed(fault)) => {
            let part = format!(in alloc; " {:?}: {}", fault.kind, fault.text)?;
            text.push_str(&part)?;
            Ok(())
        }
        None => Ok(()),
    }
}

/// An identity by the length of its content.
pub fn tell_identity(
    alloc: Global,
    text: &mut String,
    identity: &Option<Shared<Identity>>,
) -> Result<()> {
    if let Some(identity) = identity {
        tell(alloc, text, "identity", Some(identity.get().content.len()))?;
    }
    Ok(())
}

/// An endpoint by its URL.
pub fn tell_endpoint(
    alloc: Global,
    text: &mut String,
    endpoint: &Option<Shared<Endpoint>>,
) -> Result<()> {
    if let Some(endpoint) = endpoint {
        tell(alloc, text, "endpoint", Some(&endpoint.get().url))?;
    }
    Ok(())
}

/// The parts of the view: what its input, request, response and outcome are.
pub fn tell_view(alloc: Global, text: &mut String, view: &HookView) -> Result<()> {
    tell(
        alloc,
        text,
        "input",
        view.input.as_ref().map(|input| input.get().kind),
    )?;
    tell_request(alloc, text, &view.request)?;
    tell_response(alloc, text, &view.response)?;
    tell_outcome(alloc, text, outcome_in(&view.outcome))
}

// The parts that only the engine reads.
fn tell_engine(alloc: Global, text: &mut String, standing: &Standing) -> Result<()> {
    tell(alloc, text, "scheme", standing.scheme.as_ref())?;
    tell_identity(alloc, text, &standing.identity)?;
    tell_endpoint(alloc, text, &standing.endpoint)?;
    tell(alloc, text, "delay", standing.delay)?;
    tell(alloc, text, "operation", standing.operation_deadline)?;
    tell(alloc, text, "attempt", standing.attempt_deadline)
}

/// Everything that stands: the phase, the number of the attempt, and the parts.
pub fn standing(alloc: Global, standing: &Standing) -> Result<String> {
    let context = &standing.context;
    let mut text = format!(in alloc; "{:?} {}", context.phase, context.view.attempt)?;
    tell_view(alloc, &mut text, &context.view)?;
    let bucket = bucket_of(&context.view.settings);
    tell(alloc, &mut text, "bucket", bucket)?;
    if let Some(checkpoint) = &context.checkpoint {
        tell(alloc, &mut text, "checkpoint", Some(&checkpoint.get().uri))?;
    }
    tell_engine(alloc, &mut text, standing)?;
    Ok(text)
}

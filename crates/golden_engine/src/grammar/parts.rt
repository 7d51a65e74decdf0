//! What a question hands on, as one line of text.
use crate::grammar::told::{
    bucket_of, outcome_in, tell, tell_endpoint, tell_identity, tell_outcome, tell_request,
    tell_response, tell_view,
};
use anyhow::Result;
use run_grammar::Question;
use smithy_context::Settings;
use std::alloc::Global;

/// The parts that the question hands on.
pub fn told(alloc: Global, question: &Question) -> Result<String> {
    let mut text = String::new(alloc);
    tell(
        alloc,
        &mut text,
        "bucket",
        settings_of(question).and_then(bucket_of),
    )?;
    tell_parts(alloc, &mut text, question)?;
    Ok(text)
}

fn settings_of(question: &Question) -> Option<&Settings> {
    match question {
        Question::Configure { settings, .. } => Some(settings),
        Question::Hook { view, .. } => Some(&view.settings),
        Question::Serialize { settings, .. } => Some(settings),
        Question::Initial { settings } => Some(settings),
        Question::Choose { settings } => Some(settings),
        Question::Endpoint { settings, .. } => Some(settings),
        Question::Apply { settings, .. } => Some(settings),
        Question::Sign { settings, .. } => Some(settings),
        Question::Transmit { settings, .. } => Some(settings),
        Question::Stream { settings, .. } => Some(settings),
        Question::Body { settings, .. } => Some(settings),
        Question::Deserialize { settings, .. } => Some(settings),
        Question::Decide { settings, .. } => Some(settings),
        _ => None,
    }
}

fn tell_parts(alloc: Global, text: &mut String, question: &Question) -> Result<()> {
    match question {
        Question::Hook { view, .. } => {
            tell_view(alloc, text, view)?;
            tell(alloc, text, "attempt", Some(view.attempt))
        }
        Question::Serialize { input, .. } => {
            tell(
                alloc,
                text,
                "input",
                input.as_ref().map(|input| input.get().kind),
            )
        }
        Question::Load { request } => tell_request(alloc, text, request),
        Question::Start { nanos, .. } => tell(alloc, text, "nanos", *nanos),
        Question::Endpoint { identity, .. } => tell_identity(alloc, text, identity),
        Question::Transmit { request, .. } => tell_request(alloc, text, request),
        Question::Stream { response, .. } => tell_response(alloc, text, response),
        Question::Body { response, .. } => tell_response(alloc, text, response),
        Question::Deserialize { response, .. } => tell_response(alloc, text, response),
        _ => tell_many(alloc, text, question),
    }
}

// The parts of the kinds that hand on several.
fn tell_many(alloc: Global, text: &mut String, question: &Question) -> Result<()> {
    match question {
        Question::Apply {
            request,
            endpoint,
            ..
        } => {
            tell_request(alloc, text, request)?;
            tell_endpoint(alloc, text, endpoint)
        }
        Question::Sign {
            request,
            scheme,
            identity,
            endpoint,
            ..
        } => {
            tell_request(alloc, text, request)?;
            tell(alloc, text, "scheme", scheme.as_ref())?;
            tell_identity(alloc, text, identity)?;
            tell_endpoint(alloc, text, endpoint)
        }
        Question::Decide {
            request,
            response,
            outcome,
            attempt,
            ..
        } => {
            tell_request(alloc, text, request)?;
            tell_response(alloc, text, response)?;
            tell_outcome(alloc, text, outcome_in(outcome))?;
            tell(alloc, text, "attempt", Some(*attempt))
        }
        _ => Ok(()),
    }
}

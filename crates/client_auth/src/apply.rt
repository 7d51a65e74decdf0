//! Endpoint and Apply.
ghost use Rattle.std.specs.Prelude.{◌≡◌, IfOk, IsTrue};
ghost use Rattle.auth_endpoint.specs.Endpoint.{refusal_text};
ghost use Rattle.client_auth.specs.Applying.{Applies, AppliesTo, is_refusal};

use crate::reading::standing_prefix;
use auth_endpoint::{EndpointError, apply_endpoint_to_request};
use run_grammar::Answer;
use smithy_context::Settings;
use smithy_types::{Endpoint, HttpRequest, OutOfMemory, Shared, Text};
use std::alloc::Global;

/// The client's endpoint.
pub fn resolve_endpoint(endpoint: &Shared<Endpoint>) -> Result<Answer, OutOfMemory>
    ensures { IfOk result (λ a. a ≡ Answer.Endpoint endpoint.now) }
{
    Ok(Answer::Endpoint(endpoint.clone()?))
}

/// Sends the request to the endpoint, with the prefix that stands. It fails with the name of the
/// refusal. It is absent where no request or no endpoint is handed on, which no run does.
pub fn apply(
    alloc: Global,
    request: &Option<Shared<HttpRequest>>,
    endpoint: &Option<Shared<Endpoint>>,
    settings: &Settings,
) -> Result<Answer, OutOfMemory>
    ensures { IfOk result (λ a. Applies request.now endpoint.now settings.now a) }
{
    let Some(request) = request else {
        return Ok(Answer::Absent);
    };
    let Some(endpoint) = endpoint else {
        return Ok(Answer::Absent);
    };
    apply_to(alloc, request.get(), endpoint.get(), settings)
}

fn apply_to(
    alloc: Global,
    request: &HttpRequest,
    endpoint: &Endpoint,
    settings: &Settings,
) -> Result<Answer, OutOfMemory>
    ensures { IfOk result (λ a. AppliesTo request.now endpoint.now settings.now a) }
{
    let mut sent = request.clone()?;
    match apply_endpoint_to_request(alloc, &mut sent, endpoint, standing_prefix(settings)) {
        Ok(()) => Ok(Answer::Request(Shared::new(alloc, sent)?)),
        Err(refusal) => refused(refusal),
    }
}

// The failure that tells of a refusal.
fn refused(refusal: EndpointError) -> Result<Answer, OutOfMemory>
    ensures { IfOk result (λ a. (a ≡ Answer.Failed (refusal_text refusal))
        × IsTrue (is_refusal refusal)) }
{
    match refusal {
        EndpointError::BadUrl => Ok(Answer::Failed(Text::from_static("BadUrl"))),
        EndpointError::BadAuthority => Ok(Answer::Failed(Text::from_static("BadAuthority"))),
        EndpointError::NoScheme => Ok(Answer::Failed(Text::from_static("NoScheme"))),
        EndpointError::BadUri => Ok(Answer::Failed(Text::from_static("BadUri"))),
        EndpointError::BadHeader => Ok(Answer::Failed(Text::from_static("BadHeader"))),
        EndpointError::OutOfMemory => Err(OutOfMemory),
    }
}

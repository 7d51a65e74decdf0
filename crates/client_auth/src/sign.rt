//! Sign.
ghost use Rattle.std.specs.Prelude.{◌≡◌, IfOk, position};
ghost use Rattle.auth_endpoint.specs.Choice.{is_id};
ghost use Rattle.client_auth.specs.Signing.{Signs, SignsBy, SignedBy, answer_of};

use auth_endpoint::{AuthScheme, Signed};
use run_grammar::Answer;
use smithy_types::{Endpoint, HttpRequest, Identity, OutOfMemory, Shared, Text};
use std::alloc::Global;

/// Signs the request by the scheme of this id. It is absent where a part isn't handed on or no
/// scheme has the id, which no run does.
pub fn sign<A: AuthScheme>(
    alloc: Global,
    schemes: &[A],
    request: &Option<Shared<HttpRequest>>,
    id: &Option<Text>,
    identity: &Option<Shared<Identity>>,
    endpoint: &Option<Shared<Endpoint>>,
) -> Result<Answer, OutOfMemory>
    ensures { IfOk result (λ a. Signs A.names A.signs schemes.now request.now id.now identity.now
        endpoint.now a) }
{
    let Some(request) = request else {
        return Ok(Answer::Absent);
    };
    let Some(id) = id else {
        return Ok(Answer::Absent);
    };
    let Some(identity) = identity else {
        return Ok(Answer::Absent);
    };
    let Some(endpoint) = endpoint else {
        return Ok(Answer::Absent);
    };
    sign_by(
        alloc,
        schemes,
        id,
        request.get(),
        identity.get(),
        endpoint.get(),
    )
}

fn sign_by<A: AuthScheme>(
    alloc: Global,
    schemes: &[A],
    id: &Text,
    request: &HttpRequest,
    identity: &Identity,
    endpoint: &Endpoint,
) -> Result<Answer, OutOfMemory>
    ensures { IfOk result (λ a. SignsBy A.names A.signs schemes.now id.now request.now identity.now
        endpoint.now a) }
{
    match place_of(schemes, id) {
        Some(place) => signed(alloc, &schemes[place], request, identity, endpoint),
        None => Ok(Answer::Absent),
    }
}

// What the scheme makes of a copy of the request.
fn signed<A: AuthScheme>(
    alloc: Global,
    scheme: &A,
    request: &HttpRequest,
    identity: &Identity,
    endpoint: &Endpoint,
) -> Result<Answer, OutOfMemory>
    ensures { IfOk result (λ a. SignedBy A.signs scheme.now request.now identity.now endpoint.now a) }
{
    let signed = scheme.sign(alloc, request.clone()?, identity, endpoint)?;
    answer_of(alloc, signed)
}

// Where the scheme of this id stands.
fn place_of<A: AuthScheme>(schemes: &[A], id: &Text) -> Option<usize>
    ensures { result ≡ position (λ s. is_id id.now (A.names s)) schemes.now }
{
    schemes.iter().position(|scheme| scheme.id() == id.as_str())
}

fn answer_of(alloc: Global, signed: Signed) -> Result<Answer, OutOfMemory>
    ensures { IfOk result (λ a. a ≡ answer_of signed) }
{
    match signed {
        Signed::Request(request) => Ok(Answer::Request(Shared::new(alloc, request)?)),
        Signed::Failed(text) => Ok(Answer::Failed(text)),
    }
}

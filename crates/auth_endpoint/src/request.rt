//! A request at an endpoint.
ghost use Rattle.std.specs.Prelude.{◌≡◌, OnOk, OnErr, IfOk, IfErr, option_copied};
ghost use Rattle.http_uri.specs.Uri.{Spells, SpellsNone, uri_text};
ghost use Rattle.auth_endpoint.specs.Endpoint.{HasCause, CantApply, Reading, IsAppliedText};
ghost use Rattle.auth_endpoint.specs.Endpoint.{CantRead, IsSent, CantSend};

use crate::EndpointError;
use crate::apply::apply_endpoint;
use crate::headers::set_headers;
use http_uri::{Uri, UriError};
use smithy_types::{Endpoint, HttpRequest, OutOfMemory, Text};
use std::alloc::Global;

fn read_url(alloc: Global, text: &Text) -> Result<Uri, EndpointError>
    ensures ok { IfOk result (Spells text.now) }
    ensures err { IfErr result (HasCause (SpellsNone text.now) ⊥ ⊥ ⊥ ⊥) }
{
    match Uri::from_str(alloc, text.as_str()) {
        Ok(uri) => Ok(uri),
        Err(UriError::Invalid(_)) => Err(EndpointError::BadUrl),
        Err(UriError::OutOfMemory) => Err(EndpointError::OutOfMemory),
    }
}

fn printed_uri(alloc: Global, uri: &Uri) -> Result<Text, OutOfMemory>
    ensures { IfOk result (λ text. text ≡ uri_text uri.now) }
{
    let text = uri.to_string(alloc)?;
    Text::from_string(text)
}

// The text of the URI at the endpoint.
fn applied_text(
    alloc: Global,
    uri: &Uri,
    url: &Uri,
    prefix: Option<&str>,
) -> Result<Text, EndpointError>
    ensures ok { IfOk result (IsAppliedText uri.now url.now (option_copied prefix.entry)) }
    ensures err { IfErr result (CantApply uri.now url.now (option_copied prefix.entry)) }
{
    let applied = apply_endpoint(alloc, uri, url, prefix)?;
    let text = printed_uri(alloc, &applied)?;
    Ok(text)
}

// Where a request to this target goes at the endpoint.
fn applied_target(
    alloc: Global,
    target: &Text,
    front: &Text,
    prefix: Option<&str>,
) -> Result<Text, EndpointError>
    ensures ok { IfOk result (λ text. Reading target.now front.now
        (λ uri url. IsAppliedText uri url (option_copied prefix.entry) text)) }
    ensures err { IfErr result (CantRead target.now front.now (option_copied prefix.entry)) }
{
    let uri = read_url(alloc, target)?;
    let url = read_url(alloc, front)?;
    applied_text(alloc, &uri, &url, prefix)
}

/// Sends the request to the endpoint: its URI is applied, and each of the endpoint's headers is
/// set in place of all those of its name.
///
/// It is refused, by the first of these that is so: the request's URI or the endpoint's URL is no
/// URI, the URI can't be applied, a header of the endpoint is none or finds the map full. The
/// request is then as it was.
pub fn apply_endpoint_to_request(
    alloc: Global,
    request: &mut HttpRequest,
    endpoint: &Endpoint,
    prefix: Option<&str>,
) -> Result<(), EndpointError>
    ensures sent { OnOk result
        (IsSent request.old endpoint.now (option_copied prefix.entry) request.new) }
    ensures refused { IfErr result
        (CantSend request.old endpoint.now (option_copied prefix.entry)) }
    ensures unchanged { OnErr result (request.new ≡ request.old) }
{
    let target = applied_target(alloc, &request.uri, &endpoint.url, prefix)?;
    let headers = set_headers(alloc, &request.headers, endpoint.headers.as_slice())?;
    request.uri = target;
    request.headers = headers;
    Ok(())
}

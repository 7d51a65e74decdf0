//! What the interceptors on requests answer.
ghost use Rattle.std.specs.Prelude.{◌≡◌, IfOk};
ghost use Rattle.smithy_base.specs.Requests.{is_before_signing, writes_request, taken_request};
ghost use Rattle.smithy_base.specs.Requests.{mapped};

use smithy_context::{Change, HookAnswer, Layer};
use smithy_types::{Body, Headers, Hook, HttpRequest, OutOfMemory, Shared, Text};
use std::alloc::Global;

/// Whether the hook is the one right before a request is signed.
pub(crate) fn is_before_signing(hook: Hook) -> bool
    ensures { result ≡ is_before_signing hook }
{
    matches!(hook, Hook::ModifyBeforeSigning)
}

/// The answer that writes this request.
pub(crate) fn writes_request(alloc: Global, request: HttpRequest) -> Result<HookAnswer, OutOfMemory>
    ensures { IfOk result (λ answer. answer ≡ writes_request request) }
{
    Ok(HookAnswer {
        change: Some(Change::Request(Shared::new(alloc, request)?)),
        settings: Layer::new(),
        failure: None,
    })
}

/// The answer for what a map of a request gave.
pub(crate) fn mapped(
    alloc: Global,
    given: Result<HttpRequest, Text>,
) -> Result<HookAnswer, OutOfMemory>
    ensures { IfOk result (λ answer. answer ≡ mapped given) }
{
    match given {
        Ok(request) => writes_request(alloc, request),
        Err(text) => {
            let mut answer = writes_request(alloc, taken_request())?;
            answer.failure = Some(text);
            Ok(answer)
        }
    }
}

// What stands where a request was taken and not given back.
fn taken_request() -> HttpRequest
    ensures { result ≡ taken_request }
{
    HttpRequest {
        method: Text::from_static("GET"),
        uri: Text::from_static("/"),
        headers: Headers::new(),
        body: Body::Taken,
    }
}

//! What the client adds to the engine: a header, and a reason to try again.
ghost use Rattle.std.specs.Prelude.{◌≡◌, true, IfOk, option_copied};
ghost use Rattle.example_bakery_service.specs.Sending.{Names, answer_of, early_says, is_naming};
ghost use Rattle.smithy_base.specs.Requests.{no_answer};

use auth_endpoint::Signed;
use http_schemes::sign_by_header;
use retry_policy::ClassifyRetry;
use smithy_base::Intercept;
use smithy_context::{Change, HookAnswer, HookView, InterceptorContext, Layer};
use smithy_types::{
    ErrorKind, Hook, HttpRequest, HttpResponse, OutOfMemory, RetryAction, Shared, Text,
};
use std::alloc::Global;

/// Tells the service which client calls, by the header `x-client`.
#[derive(Clone, Copy, Debug, PartialEq, Eq)]
pub struct ClientNameInterceptor;

impl Intercept for ClientNameInterceptor {
    ghost use Rattle.std.specs.Prelude.{◌≡◌, codes};
    ghost use Rattle.example_bakery_service.specs.Sending.{Names, is_naming};

    ghost names = { λ _. codes "ClientName" };

    ghost hooks = { λ _ hook. is_naming hook };

    ghost runs = { λ old hook view answer new.
        (new ≡ old) × Names (is_naming hook) view.request answer };

    fn name(&self) -> &str {
        "ClientName"
    }

    fn overrides(&self, hook: Hook) -> bool {
        is_naming(hook)
    }

    fn run(
        &mut self,
        alloc: Global,
        hook: Hook,
        view: &HookView,
    ) -> Result<HookAnswer, OutOfMemory> {
        if !is_naming(hook) {
            return Ok(HookAnswer::done());
        }
        match &view.request {
            Some(request) => named(alloc, request.get()),
            None => Ok(HookAnswer::done()),
        }
    }
}

// Whether the name is set at this hook.
fn is_naming(hook: Hook) -> bool
    ensures { result ≡ is_naming hook }
{
    matches!(hook, Hook::ModifyBeforeRetryLoop)
}

// The request with the client's name.
fn named(alloc: Global, request: &HttpRequest) -> Result<HookAnswer, OutOfMemory>
    ensures { IfOk result (λ answer. Names true (Some request.now) answer) }
{
    let named = sign_by_header(alloc, request.clone()?, b"x-client", b"bakery-shop")?;
    let answer = answer_of(alloc, named)?;
    Ok(answer)
}

// The answer that writes a request, or fails.
fn answer_of(alloc: Global, named: Signed) -> Result<HookAnswer, OutOfMemory>
    ensures { IfOk result (λ answer. answer ≡ answer_of named) }
{
    match named {
        Signed::Request(request) => Ok(HookAnswer {
            change: Some(Change::Request(Shared::new(alloc, request)?)),
            settings: Layer::new(),
            failure: None,
        }),
        Signed::Failed(text) => Ok(failing(text)),
    }
}

// The answer of a hook that fails with this text.
fn failing(text: Text) -> HookAnswer
    ensures { result ≡ record no_answer { failure = Some text } }
{
    HookAnswer {
        change: None,
        settings: Layer::new(),
        failure: Some(text),
    }
}

/// A response of status 425, Too Early, is worth another attempt (RFC 8470, section 5.2).
#[derive(Clone, Copy, Debug, PartialEq, Eq)]
pub struct TooEarlyClassifier;

impl ClassifyRetry for TooEarlyClassifier {
    ghost use Rattle.std.specs.Prelude.{codes, pos};
    ghost use Rattle.example_bakery_service.specs.Sending.{early_says};

    ghost called = { λ _. codes "Too Early" };

    ghost ranked = { λ _. pos 5 };

    ghost says = { λ _ context _. early_says context.view.response };

    fn name(&self) -> &str {
        "Too Early"
    }

    fn priority(&self) -> i8 {
        5
    }

    fn classify_retry_v2(&self, ctx: &InterceptorContext, _previous: &RetryAction) -> RetryAction {
        early_says(ctx.response())
    }
}

// What a response says of a retry.
fn early_says(response: Option<&HttpResponse>) -> RetryAction
    ensures { result ≡ early_says (option_copied response.entry) }
{
    match response {
        Some(response) if response.status == 425 => RetryAction::RetryIndicated {
            kind: ErrorKind::TransientError,
            retry_after: None,
        },
        _ => RetryAction::NoActionIndicated,
    }
}

//! The classifier that goes by a response's status.
ghost use Rattle.std.specs.List.{list_any};
ghost use Rattle.std.specs.Prelude.{◌≡◌, ◌==◌, [], ◌∷◌, IfOk, codes, pos};
ghost use Rattle.retry_policy.specs.Classifying.{kind_of_status, status_says};

use crate::classify::retry_for;
use smithy_context::InterceptorContext;
use smithy_types::{ErrorKind, HttpResponse, List, OutOfMemory, RetryAction};
use std::alloc::Global;

/// A response with one of these statuses is a transient failure.
#[derive(Drop)]
pub struct HttpStatusCodeClassifier {
    /// The statuses that count as transient.
    pub codes: List<u16>,
}

impl HttpStatusCodeClassifier {
    /// The classifier for the statuses 500, 502, 503 and 504.
    pub fn default(alloc: Global) -> Result<HttpStatusCodeClassifier, OutOfMemory>
        ensures { IfOk result (λ x. x.codes ≡ 500 ∷ 502 ∷ 503 ∷ 504 ∷ []) }
    {
        let mut codes = List::new();
        codes.push(alloc, 500)?;
        codes.push(alloc, 502)?;
        codes.push(alloc, 503)?;
        codes.push(alloc, 504)?;
        Ok(HttpStatusCodeClassifier { codes })
    }

    /// The classifier for these statuses.
    pub fn new_from_codes(codes: List<u16>) -> HttpStatusCodeClassifier
        ensures { result.codes ≡ codes }
    {
        HttpStatusCodeClassifier { codes }
    }

    /// What it is called.
    pub fn name(&self) -> &'static str
        ensures { result.now ≡ codes "HTTP Status Code" }
    {
        "HTTP Status Code"
    }

    /// The lowest of the crate's own.
    pub fn priority(&self) -> i8
        ensures { result ≡ pos 0 }
    {
        0
    }

    /// A transient retry exactly where a response with one of the statuses stands.
    pub fn classify_retry(&self, ctx: &InterceptorContext) -> RetryAction
        ensures { result ≡ status_says self.now.codes ctx.now }
    {
        match ctx.response() {
            Some(response) => retry_for(self.kind_of(response)),
            None => RetryAction::NoActionIndicated,
        }
    }

    // Transient where the response has one of the statuses.
    fn kind_of(&self, response: &HttpResponse) -> Option<ErrorKind>
        ensures { result ≡ kind_of_status self.now.codes (Some response.now) }
    {
        if self.has(response.status) {
            Some(ErrorKind::TransientError)
        } else {
            None
        }
    }

    // Whether the status is one of those.
    fn has(&self, status: u16) -> bool
        ensures { result ≡ list_any (λ code. code == status) self.now.codes }
    {
        self.codes.as_slice().iter().any(|code| *code == status)
    }
}

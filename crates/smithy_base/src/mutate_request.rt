//! An interceptor that changes the request by a function.
ghost use Rattle.std.specs.Prelude.{◌≡◌};

use crate::intercept::Intercept;
use crate::request_function::MutateRequest;
use crate::request_hooks::{is_before_signing, writes_request};
use smithy_context::{HookAnswer, HookView};
use smithy_types::{Hook, OutOfMemory};
use std::alloc::Global;
use std::fmt;

/// Changes the request by a function, right before it is signed.
#[derive(Drop)]
pub struct MutateRequestInterceptor<F: MutateRequest> {
    f: F,
}

impl<F: MutateRequest> MutateRequestInterceptor<F> {
    /// The interceptor of this function.
    pub fn new(f: F) -> MutateRequestInterceptor<F>
        ensures { result.f ≡ f }
    {
        MutateRequestInterceptor { f }
    }
}

impl<F: MutateRequest> fmt::Debug for MutateRequestInterceptor<F> {
    fn fmt<W: fmt::Write>(&self, f: &mut fmt::Formatter<W>) -> fmt::Result {
        write!(f, "MutateRequestInterceptor")
    }
}

impl<F: MutateRequest> Intercept for MutateRequestInterceptor<F> {
    ghost use Rattle.std.specs.Prelude.{◌≡◌, codes};
    ghost use Rattle.smithy_types.specs.declared.http.HttpRequest.{HttpRequest};
    ghost use Rattle.smithy_base.specs.Requests.{is_before_signing, writes_request};
    ghost use Rattle.smithy_base.specs.Requests.{AnswersBeforeSigning};

    ghost names = { λ _. codes "MutateRequestInterceptor" };

    ghost hooks = { λ _ hook. is_before_signing hook };

    ghost runs = { λ old hook view answer new. (new ≡ old)
        × AnswersBeforeSigning (λ request a. (left : HttpRequest) × F.mutates old.f request left
        × (a ≡ writes_request left)) (is_before_signing hook) view.request answer };

    fn name(&self) -> &str {
        "MutateRequestInterceptor"
    }

    fn overrides(&self, hook: Hook) -> bool {
        is_before_signing(hook)
    }

    fn run(
        &mut self,
        alloc: Global,
        hook: Hook,
        view: &HookView,
    ) -> Result<HookAnswer, OutOfMemory> {
        if !is_before_signing(hook) {
            return Ok(HookAnswer::done());
        }
        let Some(request) = &view.request else {
            return Ok(HookAnswer::done());
        };
        let mut request = request.get().clone()?;
        self.f.mutate_request(&mut request);
        writes_request(alloc, request)
    }
}

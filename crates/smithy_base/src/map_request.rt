//! An interceptor that maps the request by a function.
ghost use Rattle.std.specs.Prelude.{◌≡◌};

use crate::intercept::Intercept;
use crate::request_function::MapRequest;
use crate::request_hooks::{is_before_signing, mapped};
use smithy_context::{HookAnswer, HookView};
use smithy_types::{Hook, OutOfMemory};
use std::alloc::Global;
use std::fmt;

/// Maps the request by a function, right before it is signed.
///
/// Where the function fails, the request is gone: `GET /` stands, without headers and with a taken
/// body, and the hook fails with the function's text.
#[derive(Drop)]
pub struct MapRequestInterceptor<F: MapRequest> {
    f: F,
}

impl<F: MapRequest> MapRequestInterceptor<F> {
    /// The interceptor of this function.
    pub fn new(f: F) -> MapRequestInterceptor<F>
        ensures { result.f ≡ f }
    {
        MapRequestInterceptor { f }
    }
}

impl<F: MapRequest> fmt::Debug for MapRequestInterceptor<F> {
    fn fmt<W: fmt::Write>(&self, f: &mut fmt::Formatter<W>) -> fmt::Result {
        write!(f, "MapRequestInterceptor")
    }
}

impl<F: MapRequest> Intercept for MapRequestInterceptor<F> {
    ghost use Rattle.std.specs.Prelude.{◌≡◌, codes, Result, List, ℕ};
    ghost use Rattle.smithy_types.specs.declared.http.HttpRequest.{HttpRequest};
    ghost use Rattle.smithy_base.specs.Requests.{is_before_signing, mapped, AnswersBeforeSigning};

    ghost names = { λ _. codes "MapRequestInterceptor" };

    ghost hooks = { λ _ hook. is_before_signing hook };

    ghost runs = { λ old hook view answer new. (new ≡ old)
        × AnswersBeforeSigning (λ request a. (given : Result HttpRequest (List ℕ))
        × F.maps old.f request given × (a ≡ mapped given)) (is_before_signing hook) view.request
        answer };

    fn name(&self) -> &str {
        "MapRequestInterceptor"
    }

    fn overrides(&self, hook: Hook) -> bool {
        is_before_signing(hook)
    }

    fn run(
        &mut self,
        alloc: Global,
        hook: Hook,
        view: &HookView,
    ) -> Result<HookAnswer, OutOfMemory> {
        if !is_before_signing(hook) {
            return Ok(HookAnswer::done());
        }
        let Some(request) = &view.request else {
            return Ok(HookAnswer::done());
        };
        let given = self.f.map_request(request.get().clone()?);
        mapped(alloc, given)
    }
}

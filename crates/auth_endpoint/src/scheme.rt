//! Auth schemes: how a request is signed.
use smithy_types::{Endpoint, HttpRequest, Identity, OutOfMemory, Text};
use std::alloc::Global;

/// What signing comes to.
#[derive(Debug, Drop)]
pub enum Signed {
    /// The signed request.
    Request(HttpRequest),
    /// Why the request can't be signed.
    Failed(Text),
}

/// Signs requests under one id.
pub trait AuthScheme: Drop {
    ghost use Rattle.std.specs.Prelude.{◌≡◌, ℕ, List, IfOk};
    ghost use Rattle.smithy_types.specs.declared.http.HttpRequest.{HttpRequest};
    ghost use Rattle.smithy_types.specs.declared.identity.Identity.{Identity};
    ghost use Rattle.smithy_types.specs.declared.identity.Endpoint.{Endpoint};
    ghost use Rattle.auth_endpoint.specs.declared.scheme.Signed.{Signed};

    /// Its id.
    ghost names: { Self → List ℕ };

    /// What it may make of a request, with an identity, for an endpoint.
    ghost signs: { Self → HttpRequest → Identity → Endpoint → Signed → Type 0 };

    /// The id by which it is chosen.
    fn id(&self) -> &str
        ensures { result.now ≡ names self.now };

    /// Signs the request.
    fn sign(
        &self,
        alloc: Global,
        request: HttpRequest,
        identity: &Identity,
        endpoint: &Endpoint,
    ) -> Result<Signed, OutOfMemory>
        ensures { IfOk result (λ signed. signs self.now request identity.now endpoint.now signed) };
}

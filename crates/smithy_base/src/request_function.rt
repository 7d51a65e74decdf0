//! Functions of requests, as interceptors keep them.
//!
//! Whether a closure may be called is no fact of its type, so an interceptor, which is run at any
//! time, keeps a value of one of these traits, which can always be called.
ghost use Rattle.std.specs.Prelude.{◌≡◌};

use smithy_types::{HttpRequest, Text};

/// What makes another request of a request, or fails with a text.
pub trait MapRequest: Drop {
    ghost use Rattle.std.specs.Prelude.{Result, List, ℕ};
    ghost use Rattle.smithy_types.specs.declared.http.HttpRequest.{HttpRequest};

    /// What it may give for a request.
    ghost maps: { Self → HttpRequest → Result HttpRequest (List ℕ) → Type 0 };

    /// What it gives for this request.
    fn map_request(&self, request: HttpRequest) -> Result<HttpRequest, Text>
        ensures { maps self.now request result };
}

/// What changes a request in its place.
pub trait MutateRequest: Drop {
    ghost use Rattle.smithy_types.specs.declared.http.HttpRequest.{HttpRequest};

    /// What it may make of a request.
    ghost mutates: { Self → HttpRequest → HttpRequest → Type 0 };

    /// Changes this request.
    fn mutate_request(&self, request: &mut HttpRequest)
        ensures { mutates self.now request.old request.new };
}

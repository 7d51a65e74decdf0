//! Schemes and identity resolvers that a caller brings in boxes.
ghost use Rattle.std.specs.Prelude.{◌≡◌, IfOk, OnErr};

use crate::scheme::{AuthScheme, Signed};
use identity_cell::{IdentityPoll, ResolveIdentity};
use smithy_types::{Endpoint, HttpRequest, Identity, OutOfMemory};
use std::alloc::Global;

/// A scheme of any type, in a box.
#[derive(Drop)]
pub struct SharedAuthScheme {
    /// The scheme.
    pub boxed: Box<dyn AuthScheme>,
}

impl AuthScheme for SharedAuthScheme {
    ghost names = { λ s. (AuthScheme-box s.boxed).names s.boxed.value };

    ghost signs = { λ s. (AuthScheme-box s.boxed).signs s.boxed.value };

    fn id(&self) -> &str {
        self.boxed.id()
    }

    fn sign(
        &self,
        alloc: Global,
        request: HttpRequest,
        identity: &Identity,
        endpoint: &Endpoint,
    ) -> Result<Signed, OutOfMemory> {
        self.boxed.sign(alloc, request, identity, endpoint)
    }
}

/// A resolver of any type, in a box.
#[derive(Drop)]
pub struct SharedIdentityResolver {
    /// The resolver.
    pub boxed: Box<dyn ResolveIdentity>,
}

// One ask through a box.
fn poll_box(
    boxed: &mut Box<dyn ResolveIdentity>,
    alloc: Global,
) -> Result<IdentityPoll, OutOfMemory>
    ensures ok { IfOk result (λ answer. (v : _)
        × (boxed.new ≡ record boxed.old { value = v })
        × (ResolveIdentity-box boxed.old).polls boxed.old.value answer v) }
    ensures err { OnErr result (boxed.new ≡ boxed.old) }
{
    let inner = boxed.as_mut();
    inner.poll(alloc)
}

impl ResolveIdentity for SharedIdentityResolver {
    ghost use Rattle.std.specs.Prelude.{◌≡◌};

    ghost polls = { λ old answer new. (v : _)
        × (new ≡ record old { boxed = record old.boxed { value = v } })
        × (ResolveIdentity-box old.boxed).polls old.boxed.value answer v };

    fn poll(&mut self, alloc: Global) -> Result<IdentityPoll, OutOfMemory> {
        poll_box(&mut self.boxed, alloc)
    }
}

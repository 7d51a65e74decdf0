//! The crate's own interceptors that a builder registers, and what of the outside is used.
ghost use Rattle.std.specs.Prelude.{◌≡◌, ◌+◌, ◌≤◌, IfOk, is_some, length, vec_capacity, vec_len};
ghost use Rattle.client_builder.specs.Built.{enforcing, front_of, has_no_auth, has_sleep};
ghost use Rattle.client_builder.specs.Built.{has_time, is_enforced, poisoning, provider};
ghost use Rattle.client_builder.specs.Built.{stalled_stream, wanted};

use crate::plugin::{any_enforcing, any_no_auth, gives_sleep, gives_time};
use crate::room::{push_if, room_for};
use crate::{OperationBuilder, OwnInterceptor};
use auth_endpoint::AuthScheme;
use body_guard::enforce_length::EnforceContentLengthRuntimePlugin;
use body_guard::stalled_stream::StalledStreamProtectionInterceptor;
use identity_cell::ResolveIdentity;
use retry_policy::{ConnectionPoisoningInterceptor, TokenBucketProvider};
use smithy_base::Slot;
use smithy_types::OutOfMemory;
use std::alloc::Global;

/// How many interceptors the crate registers at most.
const OWN_INTERCEPTORS: usize = 4;

impl<I, O, E, A: AuthScheme, R: ResolveIdentity, Z, D> OperationBuilder<I, O, E, A, R, Z, D> {
    /// Whether the outside's sleeps are used.
    pub(crate) fn has_sleep(&self) -> bool
        ensures { result ≡ has_sleep self.now }
    {
        self.components.sleep || gives_sleep(self.plugins.as_slice())
    }

    /// Whether the outside's clock is used.
    pub(crate) fn has_time(&self) -> bool
        ensures { result ≡ has_time self.now }
    {
        self.components.time || gives_time(self.plugins.as_slice())
    }

    /// Whether the scheme that signs nothing is registered.
    pub(crate) fn has_no_auth(&self) -> bool
        ensures { result ≡ has_no_auth self.now }
    {
        self.no_auth || any_no_auth(self.plugins.as_slice())
    }

    /// The crate's own interceptors that come before the program's, with room for these and one
    /// more.
    pub(crate) fn front(&self, alloc: Global) -> Result<Vec<Slot<OwnInterceptor>>, OutOfMemory>
        ensures items { IfOk result (λ front. front.items ≡ front_of self.now) }
        ensures room { IfOk result (λ front. vec_len front + length self.now.interceptors + 1 ≤
            vec_capacity front) }
    {
        let mut front = room_for(alloc, &self.interceptors, OWN_INTERCEPTORS)?;
        front.push_reserved(provider());
        push_if(&mut front, self.stalled_stream_interceptor());
        push_if(&mut front, self.poisoning_interceptor());
        Ok(front)
    }

    // The one that protects streams from stalls, where they are to be protected.
    fn stalled_stream_interceptor(&self) -> Option<Slot<OwnInterceptor>>
        ensures { result ≡ wanted (is_some self.now.stall)
            (stalled_stream (has_sleep self.now) (has_time self.now)) }
    {
        if self.stall.is_none() {
            return None;
        }
        let mut interceptor = StalledStreamProtectionInterceptor::default();
        interceptor.offer(self.has_sleep(), self.has_time());
        Some(Slot::Own(OwnInterceptor::StalledStream(interceptor)))
    }

    // The one that gives connections up, where they are to be given up.
    fn poisoning_interceptor(&self) -> Option<Slot<OwnInterceptor>>
        ensures { result ≡ wanted self.now.poisoning poisoning }
    {
        if !self.poisoning {
            return None;
        }
        let interceptor = ConnectionPoisoningInterceptor::new();
        Some(Slot::Own(OwnInterceptor::ConnectionPoisoning(interceptor)))
    }

    /// The interceptor that stands last, where a plugin brings it.
    pub(crate) fn last_interceptor(&self) -> Option<Slot<OwnInterceptor>>
        ensures { result ≡ wanted (is_enforced self.now) enforcing }
    {
        if !any_enforcing(self.plugins.as_slice()) {
            return None;
        }
        let interceptor = EnforceContentLengthRuntimePlugin::new().interceptor();
        Some(Slot::Own(OwnInterceptor::EnforceContentLength(interceptor)))
    }
}

// The one that sets the bucket, which every client has.
fn provider() -> Slot<OwnInterceptor>
    ensures { result ≡ provider }
{
    Slot::Own(OwnInterceptor::TokenBucket(TokenBucketProvider::new()))
}

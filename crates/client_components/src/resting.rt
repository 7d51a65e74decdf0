//! What is open is ended.
ghost use Rattle.std.specs.Prelude.{◌≡◌};
ghost use Rattle.client_components.specs.Resting.{Ends, Exchanges};

use crate::{ClientTypes, Parts};
use client_call::ending::end_all;
use std::mem;

impl<T: ClientTypes> Parts<T> {
    /// Ends what an earlier run left open: the load of an identity, the call and the sleeps.
    pub fn end_open(&mut self)
        ensures { Ends T.Outside.makes self.old self.new }
    {
        self.identities.end_choice(&mut self.outside);
        end_all(&mut self.sleeps, &mut self.call, &mut self.outside);
    }

    /// Ends what is open, and exchanges the outside and the quota for these.
    pub fn exchange(&mut self, outside: &mut T::Outside, quota: &mut T::Quota)
        ensures { Exchanges T.Outside.makes self.old outside.old quota.old
            self.new outside.new quota.new }
    {
        self.end_open();
        mem::swap(&mut self.outside, outside);
        mem::swap(&mut self.quota, quota);
    }
}

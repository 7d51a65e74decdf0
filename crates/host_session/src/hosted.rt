//! A client whose outside is a host's.

use crate::handing::feed;
use crate::world::{HostQuota, HostedWorld};
use client_components::{ClientMeans, ClientTypes, RuntimeComponents};
use orchestrate::World;
use outside_hosted::{HostEvent, HostedOutside, Told};
use run_driver::Parking;
use run_grammar::{Answer, Entry, Question};
use smithy_types::{List, OutOfMemory};
use std::alloc::Global;
use std::mem;

/// A client whose outside is a host's.
#[derive(Drop)]
pub struct HostedClient<T: ClientTypes> {
    /// The client.
    pub components: RuntimeComponents<T>,
}

impl<T: ClientTypes> World for HostedClient<T> {
    ghost use Rattle.std.specs.Prelude.{refl};
    ghost use Rattle.client_components.specs.Serving.{Served};

    ghost calls = { λ c. c.components.log };

    ghost relates = { λ old log new. Served ⟦<T as ClientMeans>⟧.means old.components.parts log
        new.components.parts };

    fn ask(&mut self, alloc: Global, question: Question) -> Result<Answer, OutOfMemory> {
        self.components.ask(alloc, question)
    }

    ghost relates_nothing = { λ c. refl };
}

impl<T: ClientTypes<Outside = HostedOutside>> Parking for HostedClient<T> {
    ghost parks = { λ c. c.components.parts.outside.is_parked };

    fn is_parked(&self) -> bool {
        self.components.parts.outside.is_parked
    }
}

impl<T: ClientTypes<Outside = HostedOutside, Quota = HostQuota>> HostedWorld for HostedClient<T> {
    ghost use Rattle.std.specs.Prelude.{◌≡◌, [], refl};
    ghost use Rattle.client_components.specs.Resting.{Ends};
    ghost use Rattle.outside_hosted.specs.Makes.{Makes};

    ghost outside = { λ c. c.components.parts.outside };

    ghost with_outside = { λ outside c. record c {
      components = record c.components {
        parts =
            record c.components.parts { outside = outside };
      };
    } };

    ghost paid_from = { λ c. c.components.parts.quota };

    ghost with_quota = { λ quota c. record c {
      components = record c.components {
        parts =
            record c.components.parts { quota = quota };
      };
    } };

    ghost emptied = { λ c. record c { components = record c.components { log = [] } } };

    ghost rests = { λ old new. Ends Makes old.components.parts new.components.parts
        × (new.components.log ≡ old.components.log) };

    fn entries(&self) -> &List<Entry> {
        &self.components.log
    }

    fn feed(
        &mut self,
        alloc: Global,
        moment: u64,
        events: List<HostEvent>,
    ) -> Result<(), OutOfMemory> {
        feed(alloc, &mut self.components.parts.outside, moment, events)?;
        Ok(())
    }

    fn tell(&mut self) -> Result<Told, OutOfMemory> {
        let told = self.components.parts.outside.tell()?;
        Ok(told)
    }

    fn exchange_quota(&mut self, quota: &mut HostQuota) {
        mem::swap(&mut self.components.parts.quota, quota);
    }

    fn empty_log(&mut self) {
        self.components.log = List::new();
    }

    fn end_open(&mut self) {
        self.components.parts.end_open();
    }

    ghost outside_is = { λ outside c. refl };

    ghost calls_stay = { λ outside c. refl };

    ghost quota_is = { λ quota c. refl };

    ghost quota_keeps_calls = { λ quota c. refl };

    ghost calls_go = { λ c. refl };

    ghost rests_quietly = { λ old new rested. rested.1 };
}

//! The outside of a caller as its client sees it: that of the script.
ghost use Rattle.std.specs.Prelude.{◌≡◌, [], None, Some};
ghost use Rattle.cli_client.specs.Opening.{outside_at};

use crate::gate::Gate;
use crate::gated::GatedOutside;
use outside::{IdentityPoll, Outside, Sent};
use outside_scripted::{IdentityRecord, ResponseRecord};
use smithy_context::Settings;
use smithy_types::{HttpRequest, List, OutOfMemory, Polled, Shared, Timers};
use std::alloc::Global;
use std::marker::Model;

/// An outside that follows a script, behind a gate that each call passes before it begins.
#[derive(Drop)]
pub struct CallerOutside<'g, G: Gate> {
    gated: GatedOutside<'g, G>,
}

/// It is seen as the outside behind the gate, whatever the gate is.
impl<'g, G: Gate> Model for CallerOutside<'g, G> {
    ghost use Rattle.outside_scripted.specs.declared.scripted_outside.ScriptedOutside.{ScriptedOutside};

    ghost Value = { ScriptedOutside };

    ghost view = { λ caller. caller.gated.outside };
}

impl<'g, G: Gate> CallerOutside<'g, G> {
    ghost use Rattle.cli_client_runs.specs.Invoking.{begun};

    /// The outside of this caller at its first moment, with these words. No call was made.
    pub fn new(
        alloc: Global,
        start: u64,
        words: List<u64>,
        gate: &'g G,
        caller: u32,
    ) -> CallerOutside<'g, G>
        ensures { result ≡ outside_at start words }
    {
        CallerOutside {
            gated: GatedOutside::new(alloc, start, words, gate, caller),
        }
    }

    /// Hands over the records of an invocation and the identities of its client. The clock, the
    /// words, the count of failures and the number of calls go on; nothing stays open.
    pub fn begin_invocation(
        &mut self,
        alloc: Global,
        records: List<ResponseRecord>,
        identities: Shared<List<IdentityRecord>>,
    )
        ensures { self.new ≡ begun records identities self.old }
    {
        self.gated.begin_invocation(alloc, records, identities);
    }
}

impl<'g, G: Gate> Timers for CallerOutside<'g, G> {
    ghost use Rattle.std.specs.Prelude.{Some, refl, true};
    ghost use Rattle.smithy_types.specs.Starting.{is_started};
    ghost use Rattle.outside_scripted.specs.Time.{later};
    ghost use Rattle.outside_scripted.specs.Makes.{Ticks};

    ghost moment = { λ s. Some s.moment };

    ghost sleeps = { λ _. true };

    ghost relates = { Ticks };

    fn has_sleep(&self) -> bool {
        true
    }

    fn now(&mut self) -> u64 {
        self.gated.now()
    }

    fn start(&mut self, alloc: Global, nanos: u64) -> Result<Option<u64>, OutOfMemory> {
        self.gated.start(alloc, nanos)
    }

    fn ready(&mut self, sleep: u64) -> bool {
        self.gated.ready(sleep)
    }

    fn give_up(&mut self, sleep: u64) {
        self.gated.give_up(sleep);
    }

    ghost keeps_sleeps = { λ old call new made. refl };

    ghost starts_where_sleeps = { λ old nanos sleep new made. is_started (later old.moment nanos) sleep
        made.0 };
}

impl<'g, G: Gate> Outside for CallerOutside<'g, G> {
    ghost use Rattle.std.specs.Prelude.{refl};
    ghost use Rattle.smithy_types.specs.Starting.{is_started};
    ghost use Rattle.outside_scripted.specs.Time.{later};
    ghost use Rattle.outside_scripted.specs.Makes.{Makes};
    ghost use Rattle.outside_scripted.specs.Counting.{each_failure_is_counted};

    ghost makes = { Makes };

    ghost faults = { λ s. s.faults };

    fn begin(
        &mut self,
        alloc: Global,
        request: &HttpRequest,
        settings: &Settings,
    ) -> Result<(), OutOfMemory> {
        self.gated.begin(alloc, request, settings)
    }

    fn poll(&mut self, alloc: Global) -> Result<Sent, OutOfMemory> {
        self.gated.poll(alloc)
    }

    fn frame(&mut self, alloc: Global) -> Result<Polled, OutOfMemory> {
        self.gated.frame(alloc)
    }

    fn drop_call(&mut self) {
        self.gated.drop_call();
    }

    fn resolve(&mut self, alloc: Global, id: &str) -> Result<IdentityPoll, OutOfMemory> {
        self.gated.resolve(alloc, id)
    }

    fn drop_resolve(&mut self) {
        self.gated.drop_resolve();
    }

    fn word(&mut self) -> u64 {
        self.gated.word()
    }

    fn poison(&mut self, number: u64) {
        self.gated.poison(number);
    }

    fn park(&mut self) {
        self.gated.park();
    }

    ghost timers_make = { λ old call new made. made };

    ghost sleeps_stay = { λ old call new made. refl };

    ghost sleep_is_started = { λ old nanos sleep new made. is_started (later old.moment nanos) sleep
        made.0 };

    ghost counts = { each_failure_is_counted };
}

//! An outside that follows a script, and the gate that is asked before each of its calls.
ghost use Rattle.std.specs.Prelude.{◌≡◌, [], None, Some};
ghost use Rattle.cli_client.specs.Opening.{outside_at};

use crate::gate::Gate;
use outside::{IdentityPoll, Outside, Sent};
use outside_scripted::{IdentityRecord, ResponseRecord, ScriptedOutside};
use smithy_context::Settings;
use smithy_types::{HttpRequest, List, OutOfMemory, Polled, Shared, Timers};
use std::alloc::Global;
use std::marker::Model;

/// An outside that follows a script, behind a gate that each call passes before it begins.
#[derive(Drop)]
pub struct GatedOutside<'g, G: Gate> {
    outside: ScriptedOutside,
    gate: &'g G,
    caller: u32,
    calls: u64,
}

/// It is seen as the outside with its gate, its caller, and how many calls were begun.
impl<'g, G: Gate> Model for GatedOutside<'g, G> {
    ghost use Rattle.cli_fleet.specs.Gated.{Gated};

    ghost Value = { Gated G };

    ghost view = { λ gated. record {
      outside = gated.outside;
      gate = gated.gate.now;
      caller = gated.caller;
      calls = gated.calls;
    } };
}

impl<'g, G: Gate> GatedOutside<'g, G> {
    ghost use Rattle.cli_client_runs.specs.Invoking.{begun};

    /// The outside of this caller at its first moment, with these words. No call was made.
    pub fn new(
        alloc: Global,
        start: u64,
        words: List<u64>,
        gate: &'g G,
        caller: u32,
    ) -> GatedOutside<'g, G>
        ensures { result ≡ record {
          outside = outside_at start words;
          gate = gate.now;
          caller = caller;
          calls = 0;
        } }
    {
        GatedOutside {
            outside: ScriptedOutside::new(alloc, start, words),
            gate,
            caller,
            calls: 0,
        }
    }

    /// Hands over the records of an invocation and the identities of its client. The clock, the
    /// words, the count of failures and the number of calls go on; nothing stays open.
    pub fn begin_invocation(
        &mut self,
        alloc: Global,
        records: List<ResponseRecord>,
        identities: Shared<List<IdentityRecord>>,
    )
        ensures { self.new ≡ record self.old {
          outside = begun records identities self.old.outside;
        } }
    {
        self.outside.begin_invocation(alloc, records, identities);
    }
}

impl<'g, G: Gate> Timers for GatedOutside<'g, G> {
    ghost use Rattle.std.specs.Prelude.{Some, refl, true};
    ghost use Rattle.smithy_types.specs.Starting.{is_started};
    ghost use Rattle.outside_scripted.specs.Time.{later};
    ghost use Rattle.outside.specs.Calls.{OfTimers};
    ghost use Rattle.cli_fleet.specs.Gated.{Passes};

    ghost moment = { λ s. Some s.outside.moment };

    ghost sleeps = { λ _. true };

    ghost relates = { λ old call new. Passes G.passed old (OfTimers call) new };

    fn has_sleep(&self) -> bool {
        true
    }

    fn now(&mut self) -> u64 {
        self.outside.now()
    }

    fn start(&mut self, alloc: Global, nanos: u64) -> Result<Option<u64>, OutOfMemory> {
        self.outside.start(alloc, nanos)
    }

    fn ready(&mut self, sleep: u64) -> bool {
        self.outside.ready(sleep)
    }

    fn give_up(&mut self, sleep: u64) {
        self.outside.give_up(sleep);
    }

    ghost keeps_sleeps = { λ old call new made. refl };

    ghost starts_where_sleeps = { λ old nanos sleep new passes.
        is_started (later old.outside.moment nanos) sleep passes.made.0 };
}

impl<'g, G: Gate> Outside for GatedOutside<'g, G> {
    ghost use Rattle.std.specs.Prelude.{refl};
    ghost use Rattle.smithy_types.specs.Starting.{is_started};
    ghost use Rattle.outside_scripted.specs.Time.{later};
    ghost use Rattle.cli_fleet.specs.Gated.{Passes, passed_is_counted};

    ghost makes = { Passes G.passed };

    ghost faults = { λ s. s.outside.faults };

    fn begin(
        &mut self,
        alloc: Global,
        request: &HttpRequest,
        settings: &Settings,
    ) -> Result<(), OutOfMemory> {
        self.gate.pass(self.caller, self.calls);
        self.calls = self.calls.saturating_add(1);
        self.outside.begin(alloc, request, settings)
    }

    fn poll(&mut self, alloc: Global) -> Result<Sent, OutOfMemory> {
        self.outside.poll(alloc)
    }

    fn frame(&mut self, alloc: Global) -> Result<Polled, OutOfMemory> {
        self.outside.frame(alloc)
    }

    fn drop_call(&mut self) {
        self.outside.drop_call();
    }

    fn resolve(&mut self, alloc: Global, id: &str) -> Result<IdentityPoll, OutOfMemory> {
        self.outside.resolve(alloc, id)
    }

    fn drop_resolve(&mut self) {
        self.outside.drop_resolve();
    }

    fn word(&mut self) -> u64 {
        self.outside.word()
    }

    fn poison(&mut self, number: u64) {
        self.outside.poison(number);
    }

    fn park(&mut self) {
        self.outside.park();
    }

    ghost timers_make = { λ old call new made. made };

    ghost sleeps_stay = { λ old call new made. refl };

    ghost sleep_is_started = { λ old nanos sleep new passes.
        is_started (later old.outside.moment nanos) sleep passes.made.0 };

    ghost counts = { passed_is_counted G.passed };
}

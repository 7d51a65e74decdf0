//! The clients of a script, and what they share.
ghost use Rattle.std.specs.Prelude.{◌≡◌, ◌<◌, ◌+◌, ◌-◌, ◌^◌, All, length, min, IfOk};
ghost use Rattle.json_scripts.specs.Client.Placed.{HasClient};
ghost use Rattle.cli_client_runs.specs.Means.{ServedBy};
ghost use Rattle.cli_client_runs.specs.Running.{InvokedIn, Plays, RunsAll, RunsOne, loads_in};

use crate::invocation::{NotedInvocation, invoke, invoke_noting};
use crate::noting::Notes;
use crate::print::{print_buckets, print_invocation, print_loads};
use cli_shell::status::PrintStatus;
use client_retries::{InterceptorMeaning, TakeOffer};
use client_scripted::{ClientQuota, ScriptedClient};
use json_print::Ending;
use json_print::print::next_number;
use json_print::world::outcome_of;
use json_scripts::client::InvocationRecord;
use outside_scripted::ScriptedOutside;
use retry_policy::ClassifyRetry;
use run_grammar::Entry;
use smithy_types::{List, OutOfMemory};
use std::alloc::Global;
use std::mem;

/// Clients over one outside and one quota.
#[derive(Drop)]
pub struct ClientSet<C: ClassifyRetry, I: TakeOffer> {
    /// What lies outside of them.
    pub outside: ScriptedOutside,
    /// Their buckets and limiters.
    pub quota: ClientQuota,
    /// The clients, in the script's order.
    pub clients: Vec<ScriptedClient<C, I>>,
    /// The moments of the entries of all invocations so far, where they are asked for.
    pub notes: Notes,
}

impl<C: ClassifyRetry, I: TakeOffer> ClientSet<C, I> {
    /// Invokes the operation of one of the clients, and notes the moments of the entries where they
    /// are asked for. Answers the run's entries and how it ended.
    pub fn invoke(
        &mut self,
        alloc: Global,
        invocation: InvocationRecord,
    ) -> Result<(List<Entry>, Ending), OutOfMemory>
        requires { invocation.client < length self.old.clients.items }
        ensures { IfOk result (λ ran. InvokedIn
            (ServedBy C.says ⟦<I as InterceptorMeaning>⟧.means) self.old invocation ran.0
            ran.1 self.new) }
    {
        if self.notes.asked {
            self.invoke_noting(alloc, invocation)
        } else {
            self.invoke_plain(alloc, invocation)
        }
    }

    // Invokes the operation of one of the clients.
    fn invoke_plain(
        &mut self,
        alloc: Global,
        invocation: InvocationRecord,
    ) -> Result<(List<Entry>, Ending), OutOfMemory>
        requires { invocation.client < length self.old.clients.items }
        ensures { IfOk result (λ ran. InvokedIn
            (ServedBy C.says ⟦<I as InterceptorMeaning>⟧.means) self.old invocation ran.0
            ran.1 self.new) }
    {
        let client = &mut self.clients[invocation.client];
        invoke(
            alloc,
            client,
            &mut self.outside,
            &mut self.quota,
            invocation,
        )
    }

    // Invokes the operation of one of the clients, and notes the moments of the entries. The client
    // is taken out meanwhile.
    fn invoke_noting(
        &mut self,
        alloc: Global,
        invocation: InvocationRecord,
    ) -> Result<(List<Entry>, Ending), OutOfMemory>
        requires { invocation.client < length self.old.clients.items }
        ensures { IfOk result (λ ran. InvokedIn
            (ServedBy C.says ⟦<I as InterceptorMeaning>⟧.means) self.old invocation ran.0
            ran.1 self.new) }
    {
        let place = invocation.client;
        let client = self.clients.remove(place);
        let moments = mem::replace(&mut self.notes.moments, List::new());
        let noted = invoke_noting(
            alloc,
            client,
            &mut self.outside,
            &mut self.quota,
            invocation,
            moments,
        )?;
        let NotedInvocation {
            client,
            log,
            ending,
            moments,
        } = noted;
        self.clients.insert(place, client)?;
        self.notes.moments = moments;
        Ok((log, ending))
    }

    // Makes these invocations in their order, and prints each behind what is there. Answers what
    // the last one came to.
    fn run_all(
        &mut self,
        alloc: Global,
        invocations: List<InvocationRecord>,
        out: &mut Vec<u8>,
    ) -> Result<PrintStatus, OutOfMemory>
        requires { All (HasClient (length self.old.clients.items)) invocations }
        ensures { IfOk result (λ outcome. RunsAll
            (ServedBy C.says ⟦<I as InterceptorMeaning>⟧.means) self.old invocations
            out.old.items self.new out.new.items outcome) }
    {
        let mut number = 0;
        let mut outcome = PrintStatus::Ok;
        for invocation in invocations.into_vec(alloc) {
            outcome = self.run_one(alloc, number, invocation, out)?;
            number = next_number(number)?;
        }
        Ok(outcome)
    }

    /// Makes these invocations, and prints them, the sums of all buckets and the number of loads
    /// behind what is there. Answers what the last one came to.
    pub fn play(
        &mut self,
        alloc: Global,
        invocations: List<InvocationRecord>,
        out: &mut Vec<u8>,
    ) -> Result<PrintStatus, OutOfMemory>
        requires { All (HasClient (length self.old.clients.items)) invocations }
        ensures { IfOk result (λ outcome. Plays
            (ServedBy C.says ⟦<I as InterceptorMeaning>⟧.means) self.old invocations
            out.old.items self.new out.new.items outcome) }
    {
        let outcome = self.run_all(alloc, invocations, out)?;
        print_buckets(alloc, &self.quota, out)?;
        print_loads(alloc, self.loads())?.write_line(alloc, out)?;
        Ok(outcome)
    }

    // Makes an invocation, and prints it.
    fn run_one(
        &mut self,
        alloc: Global,
        number: u64,
        invocation: InvocationRecord,
        out: &mut Vec<u8>,
    ) -> Result<PrintStatus, OutOfMemory>
        requires { invocation.client < length self.old.clients.items }
        ensures { IfOk result (λ outcome. RunsOne
            (ServedBy C.says ⟦<I as InterceptorMeaning>⟧.means) number self.old
            invocation out.old.items self.new out.new.items outcome) }
    {
        let client = invocation.client;
        let (log, ending) = self.invoke(alloc, invocation)?;
        print_invocation(alloc, number, client, log.as_slice(), &ending, out)?;
        Ok(outcome_of(&ending))
    }

    /// How many loads of identities were begun into the clients' caches. It stops at `u64::MAX`.
    pub fn loads(&self) -> u64
        ensures { result ≡ min (loads_in self.now.clients.items) (2 ^ 64 - 1) }
    {
        let mut loads: u64 = 0;
        for client in self.clients.as_slice() {
            loads = loads.saturating_add(client.world.loads());
        }
        loads
    }
}

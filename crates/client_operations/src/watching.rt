//! A waiter over an operation: what is polled is an invocation, and the waiter waits by the clock and
//! the sleeps of the operation's client.
ghost use Rattle.std.specs.Prelude.{◌≡◌, ◌<◌, ◌≤◌, ◌+◌, ◌^◌, IfOk, true};
ghost use Rattle.client_operations.specs.Watching.{Asks, IsAccepted, WaitsBy};

use crate::{SleepingTypes, polled};
use client_components::RuntimeComponents;
use orchestrate::Operation;
use outside::Outside;
use smithy_types::{AcceptorState, OutOfMemory, SdkError, Timers, Wire};
use std::alloc::Global;
use waiters::{FinalPoll, WaiterError, WaiterOrchestrator, WaiterTimers};

/// What a poll of an operation answers.
pub type Polled<Out, Err> = Result<Out, SdkError<Err>>;

/// A resource that is watched: the operation that asks for it, its client, by whose clock and sleeps
/// the waiter waits, and the input of each poll.
#[derive(Drop)]
pub struct Watch<T: SleepingTypes, In: Wire + Clone + Drop, Out: Wire + Drop, Err: Wire + Drop> {
    /// Where polls allocate.
    pub alloc: Global,
    /// The operation that is polled.
    pub operation: Operation<In, Out, Err>,
    /// Its client.
    pub client: RuntimeComponents<T>,
    /// What each poll is handed.
    pub input: In,
    /// The most questions that one poll asks.
    pub fuel: u64,
    /// How many polls were made.
    pub polls: u32,
    /// How many `ready` calls answered no. The count stands still at the greatest u64.
    pub unready: u64,
}

impl<T: SleepingTypes, In: Wire + Clone + Drop, Out: Wire + Drop, Err: Wire + Drop> Watch<
    T,
    In,
    Out,
    Err,
> {
    /// A resource that wasn't asked for yet, of which each poll asks at most `fuel` questions.
    pub fn new(
        alloc: Global,
        operation: Operation<In, Out, Err>,
        client: RuntimeComponents<T>,
        input: In,
        fuel: u64,
    ) -> Watch<T, In, Out, Err>
        ensures operation { result.operation ≡ operation }
        ensures client { result.client ≡ client }
        ensures input { result.input ≡ input }
        ensures fuel { result.fuel ≡ fuel }
        ensures polls { result.polls ≡ 0 }
        ensures unready { result.unready ≡ 0 }
    {
        Watch {
            alloc,
            operation,
            client,
            input,
            fuel,
            polls: 0,
            unready: 0,
        }
    }

    /// Asks once for the resource, by one invocation.
    pub fn poll(&mut self, number: u32) -> Result<Option<Polled<Out, Err>>, OutOfMemory>
        ensures { Asks In.is_clone In.accepts In.reads_as Out.accepts Out.reads_as Err.accepts
            Err.reads_as self.old number result self.new }
    {
        self.polls = number;
        let input = self.input.clone()?;
        polled(
            self.operation
                .invoke(self.alloc, &mut self.client, input, self.fuel),
        )
    }

    /// Polls until the acceptor has an end, with delays from `min` to `max` and at most `max_wait`
    /// in all, in nanoseconds. `fuel` bounds the polls and the asks of sleeps. A wait that succeeds
    /// ends with what the acceptor accepts.
    pub fn wait<F: Fn(Result<&Out, &Err>) -> AcceptorState>(
        &mut self,
        acceptor: F,
        min: u64,
        max: u64,
        max_wait: u64,
        fuel: u64,
    ) -> Result<FinalPoll<Out, Err>, WaiterError<Out, Err>>
    where
        F: Drop,
        requires acceptor { F.IsAlwaysCallable acceptor }
        requires a_second { 1000000000 ≤ min }
        requires in_order { min ≤ max }
        requires room { self.old.unready + fuel < 2 ^ 64 }
        ensures accepted { IfOk result (λ last. IsAccepted (F.post acceptor) last.result) }
        ensures waits { WaitsBy In.is_clone In.accepts In.reads_as Out.accepts Out.reads_as
            Err.accepts Err.reads_as T.Outside.makes (F.post acceptor) min max max_wait self.old
            fuel result self.new }
    {
        let alloc = self.alloc;
        let built = WaiterOrchestrator::builder()
            .min_delay(min)
            .max_delay(max)
            .max_wait(max_wait)
            .time_source()
            .sleep_impl()
            .acceptor(acceptor)
            .operation(
                |watch: &mut Watch<T, In, Out, Err>, number: u32| -> Result<
                    Option<Polled<Out, Err>>,
                    OutOfMemory,
                >
                    ensures { Asks In.is_clone In.accepts In.reads_as Out.accepts Out.reads_as
                        Err.accepts Err.reads_as watch.old number result watch.new }
                { watch.poll(number) },
            )
            .build();
        match built {
            Ok(waiter) => waiter.orchestrate(alloc, self, fuel),
            Err(_) => unreachable!(),
        }
    }
}

impl<T: SleepingTypes, In: Wire + Clone + Drop, Out: Wire + Drop, Err: Wire + Drop> Timers
    for Watch<T, In, Out, Err> {
    ghost use Rattle.std.specs.Prelude.{None, true, refl};
    ghost use Rattle.client_operations.specs.Watching.{Passes, sleeps_are_started};
    ghost use Rattle.waiters.specs.declared.timers.WaiterCall.TheVariants as calls;

    ghost moment = { λ _. None };

    ghost sleeps = { λ _. true };

    ghost relates = { λ old call new. Passes T.Outside.makes old (calls.Timers call) new };

    fn has_sleep(&self) -> bool {
        true
    }

    fn now(&mut self) -> u64 {
        self.client.parts.outside.now()
    }

    fn start(&mut self, alloc: Global, nanos: u64) -> Result<Option<u64>, OutOfMemory> {
        self.client.parts.outside.start(alloc, nanos)
    }

    fn ready(&mut self, sleep: u64) -> bool {
        if self.client.parts.outside.ready(sleep) {
            self.client.parts.outside.give_up(sleep);
            return true;
        }
        self.unready = self.unready.saturating_add(1);
        false
    }

    fn give_up(&mut self, sleep: u64) {
        self.client.parts.outside.give_up(sleep);
    }

    ghost keeps_sleeps = { λ old call new made. refl };

    ghost starts_where_sleeps = { sleeps_are_started T.Outside.makes T.Outside.sleeps T.Outside.sleep_is_started
        T.always };
}

impl<T: SleepingTypes, In: Wire + Clone + Drop, Out: Wire + Drop, Err: Wire + Drop> WaiterTimers
    for Watch<T, In, Out, Err> {
    ghost use Rattle.std.specs.Prelude.{refl};
    ghost use Rattle.client_operations.specs.Watching.{Passes, sleeps_are_counted};

    ghost makes = { Passes T.Outside.makes };

    ghost unready = { λ watch. watch.unready };

    fn word(&mut self) -> u64 {
        self.client.parts.outside.word()
    }

    fn park(&mut self) {
        self.client.parts.outside.park();
    }

    ghost timers_make = { λ old call new made. made };

    ghost sleeps_stay = { λ old call new made. refl };

    ghost counts = { sleeps_are_counted T.Outside.makes };
}

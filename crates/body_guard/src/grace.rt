//! How long a stream may be too slow.
ghost use Rattle.std.specs.Prelude.{◌≡◌, None, Some, Ok};
ghost use Rattle.smithy_types.specs.Chain.{ByCalls, Chained};
ghost use Rattle.body_guard.specs.Grace.{
  AsksSleep,
  Grants,
  Opens,
  Violates,
  give_up_calls,
  opening,
};
ghost use Rattle.body_guard.specs.Rates.{violation};

use crate::ThroughputBelowMinimum;
use crate::rates::violation;
use smithy_types::{OutOfMemory, Text, Timers};
use std::alloc::Global;
use stream_guard::{MinimumThroughputBodyOptions, Throughput};

/// What a stream may be, and the sleep of a violation that goes on.
#[derive(Drop)]
pub struct Grace {
    options: MinimumThroughputBodyOptions,
    /// The sleep's number, while one is open.
    sleep: Option<u64>,
}

/// What a look at a stream comes to.
#[derive(Drop)]
pub enum GraceAnswer {
    /// The stream is fast enough, or may still be slow.
    InTime,
    /// A sleep is needed and there is none.
    NoSleep,
    /// The stream was too slow for too long.
    Over(Text),
}

impl Grace {
    /// No violation.
    pub(crate) fn new(options: MinimumThroughputBodyOptions) -> Grace
        ensures { result ≡ record { options = options; sleep = None } }
    {
        Grace {
            options,
            sleep: None,
        }
    }

    /// Gives the sleep up, where one is open.
    pub(crate) fn stop<T: Timers>(&mut self, timers: &mut T)
        ensures stopped { self.new ≡ record self.old { sleep = None } }
        ensures calls { Chained T.relates timers.old (give_up_calls self.old.sleep) timers.new }
    {
        if let Some(sleep) = self.sleep.take() {
            timers.give_up(sleep);
        }
    }

    /// Takes the rate that a look saw, where it saw one that the stream is judged by.
    pub(crate) fn look<T: Timers>(
        &mut self,
        alloc: Global,
        timers: &mut T,
        rate: Option<Throughput>,
    ) -> Result<GraceAnswer, OutOfMemory>
        ensures { ByCalls T.relates timers.old (Grants (T.sleeps timers.old)
            (violation self.old.options.minimum_throughput rate)
            self.old result self.new) timers.new }
    {
        match violation(self.options.minimum_throughput(), rate) {
            None => {
                self.stop(timers);
                Ok(GraceAnswer::InTime)
            }
            Some(actual) => self.violated(alloc, timers, actual),
        }
    }

    // The stream is too slow.
    fn violated<T: Timers>(
        &mut self,
        alloc: Global,
        timers: &mut T,
        actual: Throughput,
    ) -> Result<GraceAnswer, OutOfMemory>
        ensures { ByCalls T.relates timers.old
            (Violates (T.sleeps timers.old) actual self.old result self.new) timers.new }
    {
        match self.open_sleep(alloc, timers) {
            Ok(Some(sleep)) => self.ask(alloc, timers, sleep, actual),
            Ok(None) => Ok(GraceAnswer::NoSleep),
            Err(refusal) => Err(refusal),
        }
    }

    // The sleep of this violation, which is started where none is open.
    fn open_sleep<T: Timers>(
        &self,
        alloc: Global,
        timers: &mut T,
    ) -> Result<Option<u64>, OutOfMemory>
        ensures opens { Opens (T.sleeps timers.old) self.now.sleep result }
        ensures calls { Chained T.relates timers.old
            (opening self.now.options.grace_period self.now.sleep result) timers.new }
    {
        match self.sleep {
            Some(sleep) => Ok(Some(sleep)),
            None => timers.start(alloc, self.options.grace_period()),
        }
    }

    // Asks the sleep of this violation.
    fn ask<T: Timers>(
        &mut self,
        alloc: Global,
        timers: &mut T,
        sleep: u64,
        actual: Throughput,
    ) -> Result<GraceAnswer, OutOfMemory>
        ensures { ByCalls T.relates timers.old
            (AsksSleep (Ok (Some sleep)) actual self.old result self.new) timers.new }
    {
        self.sleep = Some(sleep);
        if !timers.ready(sleep) {
            return Ok(GraceAnswer::InTime);
        }
        let error = ThroughputBelowMinimum {
            expected: self.options.minimum_throughput(),
            actual,
        };
        match error.text(alloc) {
            Ok(text) => {
                self.stop(timers);
                Ok(GraceAnswer::Over(text))
            }
            Err(refusal) => Err(refusal),
        }
    }
}

//! Building a waiter.
ghost use Rattle.std.specs.Prelude.{◌≡◌, Some, None, true, false, IfErr, IfOk, OnOk};
ghost use Rattle.waiters.specs.Builder.{IsBuiltFrom, refusal};

use crate::backoff::SECOND;
use crate::{Backoff, BuildError, Part, WaiterOrchestrator};

/// The parts of a waiter, as far as they are given.
#[derive(Drop)]
pub struct WaiterOrchestratorBuilder<F = (), G = ()> {
    /// The least delay between two polls, in nanoseconds, at least a second.
    pub min_delay: Option<u64>,
    /// The greatest delay between two polls, in nanoseconds, at least the least.
    pub max_delay: Option<u64>,
    /// The longest wait in all, in nanoseconds.
    pub max_wait: Option<u64>,
    /// Whether the timers' clock is used.
    pub time_source: bool,
    /// Whether the timers' sleeps are used.
    pub sleep_impl: bool,
    /// What says what a poll means.
    pub acceptor: Option<F>,
    /// What is polled.
    pub operation: Option<G>,
}

impl WaiterOrchestrator<(), ()> {
    /// A builder without any part. It takes no memory.
    pub fn builder() -> WaiterOrchestratorBuilder<(), ()>
        ensures { result ≡ record {
          min_delay = None;
          max_delay = None;
          max_wait = None;
          time_source = false;
          sleep_impl = false;
          acceptor = None;
          operation = None;
        } }
    {
        WaiterOrchestratorBuilder {
            min_delay: None,
            max_delay: None,
            max_wait: None,
            time_source: false,
            sleep_impl: false,
            acceptor: None,
            operation: None,
        }
    }
}

impl Default for WaiterOrchestratorBuilder<(), ()> {
    ghost use Rattle.std.specs.Prelude.{◌≡◌, None, false};

    ghost is_default = { λ b. b ≡
        record {
          min_delay = None;
          max_delay = None;
          max_wait = None;
          time_source = false;
          sleep_impl = false;
          acceptor = None;
          operation = None;
        } };

    /// A builder without any part.
    fn default() -> Self {
        WaiterOrchestrator::builder()
    }
}

impl<F, G> WaiterOrchestratorBuilder<F, G> {
    /// The least delay between two polls, in nanoseconds.
    pub fn min_delay(self, nanos: u64) -> Self
        ensures { result ≡ record self { min_delay = Some nanos } }
    {
        WaiterOrchestratorBuilder {
            min_delay: Some(nanos),
            ..self
        }
    }

    /// The greatest delay between two polls, in nanoseconds.
    pub fn max_delay(self, nanos: u64) -> Self
        ensures { result ≡ record self { max_delay = Some nanos } }
    {
        WaiterOrchestratorBuilder {
            max_delay: Some(nanos),
            ..self
        }
    }

    /// The longest wait in all, in nanoseconds.
    pub fn max_wait(self, nanos: u64) -> Self
        ensures { result ≡ record self { max_wait = Some nanos } }
    {
        WaiterOrchestratorBuilder {
            max_wait: Some(nanos),
            ..self
        }
    }

    /// The timers' clock is used.
    pub fn time_source(self) -> Self
        ensures { result ≡ record self { time_source = true } }
    {
        WaiterOrchestratorBuilder {
            time_source: true,
            ..self
        }
    }

    /// The timers' sleeps are used.
    pub fn sleep_impl(self) -> Self
        ensures { result ≡ record self { sleep_impl = true } }
    {
        WaiterOrchestratorBuilder {
            sleep_impl: true,
            ..self
        }
    }

    /// Why these parts make no waiter, if they don't.
    fn refusal(&self) -> Option<BuildError>
        ensures { result ≡ refusal self.now }
    {
        let Some(min_delay) = self.min_delay else {
            return Some(BuildError::Missing(Part::MinDelay));
        };
        let Some(max_delay) = self.max_delay else {
            return Some(BuildError::Missing(Part::MaxDelay));
        };
        let part = if self.max_wait.is_none() {
            Part::MaxWait
        } else if !self.time_source {
            Part::TimeSource
        } else if !self.sleep_impl {
            Part::SleepImpl
        } else if self.acceptor.is_none() {
            Part::Acceptor
        } else if self.operation.is_none() {
            Part::Operation
        } else if min_delay < SECOND {
            return Some(BuildError::DelayBelowSecond);
        } else if max_delay < min_delay {
            return Some(BuildError::DelaysOutOfOrder);
        } else {
            return None;
        };
        Some(BuildError::Missing(part))
    }

    /// The waiter of these parts. A builder that is refused comes back, with the first part that is
    /// absent, or else the first number that is out of its range.
    pub fn build(
        self,
    ) -> Result<WaiterOrchestrator<F, G>, (WaiterOrchestratorBuilder<F, G>, BuildError)>
        ensures refused { IfErr result (λ refused. refusal self ≡ Some refused.1) }
        ensures handed_back { IfErr result (λ refused. refused.0 ≡ self) }
        ensures accepted { OnOk result (refusal self ≡ None) }
        ensures built { IfOk result (IsBuiltFrom self) }
    {
        if let Some(error) = self.refusal() {
            return Err((self, error));
        }
        let WaiterOrchestratorBuilder {
            min_delay,
            max_delay,
            max_wait,
            time_source: _,
            sleep_impl: _,
            acceptor,
            operation,
        } = self;
        Ok(WaiterOrchestrator {
            backoff: Backoff {
                min_delay: min_delay.unwrap(),
                max_delay: max_delay.unwrap(),
                max_wait: max_wait.unwrap(),
            },
            acceptor: acceptor.unwrap(),
            operation: operation.unwrap(),
        })
    }
}

impl<G> WaiterOrchestratorBuilder<(), G> {
    /// What says how a poll's output, or its error of the operation's model, is to be taken.
    pub fn acceptor<F>(self, acceptor: F) -> WaiterOrchestratorBuilder<F, G>
        ensures { result ≡ record {
          min_delay = self.min_delay;
          max_delay = self.max_delay;
          max_wait = self.max_wait;
          time_source = self.time_source;
          sleep_impl = self.sleep_impl;
          acceptor = Some acceptor;
          operation = self.operation;
        } }
    {
        WaiterOrchestratorBuilder {
            min_delay: self.min_delay,
            max_delay: self.max_delay,
            max_wait: self.max_wait,
            time_source: self.time_source,
            sleep_impl: self.sleep_impl,
            acceptor: Some(acceptor),
            operation: self.operation,
        }
    }
}

impl<F> WaiterOrchestratorBuilder<F, ()> {
    /// What is polled, with the timers and the number of the poll, from 1 on. It answers none while
    /// it has no answer yet.
    pub fn operation<G>(self, operation: G) -> WaiterOrchestratorBuilder<F, G>
        ensures { result ≡ record {
          min_delay = self.min_delay;
          max_delay = self.max_delay;
          max_wait = self.max_wait;
          time_source = self.time_source;
          sleep_impl = self.sleep_impl;
          acceptor = self.acceptor;
          operation = Some operation;
        } }
    {
        WaiterOrchestratorBuilder {
            min_delay: self.min_delay,
            max_delay: self.max_delay,
            max_wait: self.max_wait,
            time_source: self.time_source,
            sleep_impl: self.sleep_impl,
            acceptor: self.acceptor,
            operation: Some(operation),
        }
    }
}

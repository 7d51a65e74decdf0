//! Downloads that fail where they stall.
ghost use Rattle.std.specs.Prelude.{◌≡◌, None};
ghost use Rattle.smithy_types.specs.Chain.{ByCalls, Chained};
ghost use Rattle.body_guard.specs.Download.{Judges, PollsGuarded, Starts, passed};
ghost use Rattle.body_guard.specs.Grace.{give_up_calls};

use crate::events::see;
use crate::faults::{no_sleep, response_fault};
use crate::rates::download_rate;
use crate::{Grace, GraceAnswer, PolledBody};
use smithy_types::{OutOfMemory, Polled, Timers};
use std::alloc::Global;
use stream_guard::{MinimumThroughputBodyOptions, ThroughputLogs};

/// A body that fails where its data comes too slowly for too long.
#[derive(Drop)]
pub struct MinimumThroughputDownloadBody<B> {
    logs: ThroughputLogs,
    grace: Grace,
    body: B,
}

/// The former name of `MinimumThroughputDownloadBody`.
pub type MinimumThroughputBody<B> = MinimumThroughputDownloadBody<B>;

impl<B: PolledBody> MinimumThroughputDownloadBody<B> {
    /// A body that is watched from now on.
    pub fn new<T: Timers>(
        timers: &mut T,
        body: B,
        options: MinimumThroughputBodyOptions,
    ) -> MinimumThroughputDownloadBody<B>
        ensures { ByCalls T.relates timers.old (Starts body options result) timers.new }
    {
        let now = timers.now();
        MinimumThroughputDownloadBody {
            logs: options.start_log(now),
            grace: Grace::new(options),
            body,
        }
    }

    /// The next frame, or that there is none or that the body stalls. After want of memory the
    /// event and the look that were made stand.
    pub fn poll_frame<T: Timers>(
        &mut self,
        alloc: Global,
        timers: &mut T,
    ) -> Result<Polled, OutOfMemory>
        ensures { ByCalls T.relates timers.old
            (PollsGuarded B.polls (T.sleeps timers.old) self.old result self.new) timers.new }
    {
        match self.body.poll_frame(alloc) {
            Ok(inner) => self.judge(alloc, timers, inner),
            Err(refusal) => Err(refusal),
        }
    }

    /// What becomes of an answer of the inner body, which isn't asked.
    pub fn judge<T: Timers>(
        &mut self,
        alloc: Global,
        timers: &mut T,
        inner: Polled,
    ) -> Result<Polled, OutOfMemory>
        ensures { ByCalls T.relates timers.old
            (Judges (T.sleeps timers.old) self.old inner result self.new) timers.new }
    {
        if inner.ends() {
            return Ok(inner);
        }
        let now = timers.now();
        let report = see(&mut self.logs, now, &inner);
        let said = self.grace.look(alloc, timers, download_rate(report));
        passed(inner, said)
    }

    /// Gives the sleep of a violation up, where one is open.
    pub fn stop<T: Timers>(&mut self, timers: &mut T)
        ensures stopped { self.new ≡ record self.old {
          grace = record self.old.grace { sleep = None };
        } }
        ensures calls { Chained T.relates timers.old
            (give_up_calls self.old.grace.sleep) timers.new }
    {
        self.grace.stop(timers);
    }

    /// Whether the inner body says that it is at its end.
    pub fn is_end_stream(&self) -> bool
        ensures { result ≡ B.at_end self.now.body }
    {
        self.body.is_end_stream()
    }

    /// How many bytes the inner body says that it still has, where it says so.
    pub fn size_hint(&self) -> Option<u64>
        ensures { result ≡ B.hint self.now.body }
    {
        self.body.size_hint()
    }
}

// What is answered in place of the inner body's answer, or that answer.
fn passed(inner: Polled, said: Result<GraceAnswer, OutOfMemory>) -> Result<Polled, OutOfMemory>
    ensures { result ≡ passed inner said }
{
    match said {
        Ok(GraceAnswer::InTime) => Ok(inner),
        Ok(GraceAnswer::NoSleep) => Ok(Polled::Failed(no_sleep())),
        Ok(GraceAnswer::Over(text)) => Ok(Polled::Failed(response_fault(text))),
        Err(refusal) => Err(refusal),
    }
}

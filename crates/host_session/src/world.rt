//! A client whose outside is a host's.

use outside_hosted::{HostEvent, Told};
use rate_limit::ClientRateLimiter;
use retry_quota::Registry;
use run_driver::Parking;
use run_grammar::Entry;
use smithy_types::{List, OutOfMemory};
use std::alloc::Global;

/// What the retries of a host's clients are paid from: buckets and limiters.
pub type HostQuota = Registry<ClientRateLimiter>;

/// A client whose outside is a host's. Between two stretches of a run the host changes the outside
/// alone, and what the retries are paid from is exchanged.
pub trait HostedWorld: Parking {
    ghost use Rattle.std.specs.Prelude.{◌≡◌, List, [], IfOk, OnOk};
    ghost use Rattle.outside_scripted.specs.Wake.{IsNext};
    ghost use Rattle.outside_hosted.specs.declared.hosted_outside.HostedOutside.{HostedOutside};
    ghost use Rattle.outside_hosted.specs.Telling.{after_told, told_of};
    ghost use Rattle.rate_limit.specs.Pace.{Pace};
    ghost use Rattle.retry_quota.specs.Registers.{Registers};
    ghost use Rattle.host_session.specs.Handing.{fed};

    /// What lies outside.
    ghost outside: { Self → HostedOutside };

    /// The client with another outside.
    ghost with_outside: { HostedOutside → Self → Self };

    /// What its retries are paid from.
    ghost paid_from: { Self → Registers Pace };

    /// The client whose retries are paid from this.
    ghost with_quota: { Registers Pace → Self → Self };

    /// The client with an empty log.
    ghost emptied: { Self → Self };

    /// What ending all that is open makes of the client.
    ghost rests: { Self → Self → Type 0 };

    /// What it was asked and answered, in order.
    fn entries(&self) -> &List<Entry>
        ensures { result.now ≡ Self.calls self.now };

    /// From here on it is this moment, and these came since, in order. What isn't of an open call
    /// or load is let go.
    fn feed(
        &mut self,
        alloc: Global,
        moment: u64,
        events: List<HostEvent>,
    ) -> Result<(), OutOfMemory>
        ensures { OnOk result
            (self.new ≡ with_outside (fed moment events (outside self.old)) self.old) };

    /// Tells what is open outside, and of what is new only once.
    fn tell(&mut self) -> Result<Told, OutOfMemory>
        ensures told { IfOk result (λ told. told ≡ told_of told.wake (outside self.old)) }
        ensures wake { IfOk result (λ told.
            IsNext (outside self.old).moment (outside self.old).sleeps told.wake) }
        ensures after { OnOk result
            (self.new ≡ with_outside (after_told (outside self.old)) self.old) };

    /// Exchanges what the retries are paid from for this quota.
    fn exchange_quota(&mut self, quota: &mut HostQuota)
        ensures given { self.new ≡ with_quota quota.old self.old }
        ensures taken { quota.new ≡ paid_from self.old };

    /// Nothing was asked.
    fn empty_log(&mut self)
        ensures { self.new ≡ emptied self.old };

    /// Ends what is open: the load, the call and the sleeps.
    fn end_open(&mut self)
        ensures { rests self.old self.new };

    /// The outside is that which was put in.
    ghost outside_is: { (o : HostedOutside) (w : Self) → outside (with_outside o w) ≡ o };

    /// Another outside leaves the log.
    ghost calls_stay: { (o : HostedOutside) (w : Self) →
        Self.calls (with_outside o w) ≡ Self.calls w };

    /// What the retries are paid from is that which was put in.
    ghost quota_is: { (q : Registers Pace) (w : Self) → paid_from (with_quota q w) ≡ q };

    /// Another quota leaves the log.
    ghost quota_keeps_calls: { (q : Registers Pace) (w : Self) →
        Self.calls (with_quota q w) ≡ Self.calls w };

    /// The log is empty.
    ghost calls_go: { (w : Self) → Self.calls (emptied w) ≡ [] };

    /// What is open is ended without an entry.
    ghost rests_quietly: { (old new : Self) → rests old new → Self.calls new ≡ Self.calls old };
}

/// What a client of a host means, as one record. Every such client has it, and brings nothing for
/// it.
pub trait HostedMeans: HostedWorld {
    ghost use Rattle.host_session.specs.Meaning.{HostedMeaning};

    /// What it means.
    ghost means: { HostedMeaning Self };
}

impl<W: HostedWorld> HostedMeans for W {
    ghost means = { record {
      calls = W.calls;
      relates = W.relates;
      parks = W.parks;
      outside = W.outside;
      with_outside = W.with_outside;
      quota = W.paid_from;
      with_quota = W.with_quota;
      emptied = W.emptied;
      rests = W.rests;
    } };
}

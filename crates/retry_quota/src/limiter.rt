//! What limits a client's rate of sending.
ghost use Rattle.std.specs.Prelude.{◌≡◌, ℕ, Bool, Result};

/// What a request asks a limiter for.
#[derive(Clone, Copy, Debug, PartialEq, Eq)]
pub enum RequestReason {
    /// A further attempt.
    Retry,
    /// A further attempt after throttling.
    RetryTimeout,
    /// The first attempt.
    InitialRequest,
}

/// A limiter of a client's sending rate. A moment is in nanoseconds.
pub trait Limiter: Drop {
    ghost use Rattle.retry_quota.specs.declared.limiter.RequestReason.{RequestReason};

    /// A limiter that begins at this moment.
    ghost at: { ℕ → Self };

    /// A limiter whose numbers are all zero.
    ghost zero: { Self };

    /// What an acquire leaves.
    ghost after_acquire: { Self → ℕ → RequestReason → Self };

    /// What an acquire answers.
    ghost reply_to: { Self → ℕ → RequestReason → Result (Unit {0}) ℕ };

    /// What an update leaves.
    ghost after_update: { Self → ℕ → Bool → Self };

    /// A limiter that begins at this moment.
    fn at(now: u64) -> Self
        ensures { result ≡ at now };

    /// A limiter whose numbers are all zero.
    fn zero() -> Self
        ensures { result ≡ zero };

    /// Asks for a request at this moment. A refusal says in how many nanoseconds to ask again.
    fn acquire(&mut self, now: u64, reason: RequestReason) -> Result<(), u64>
        ensures limiter { self.new ≡ after_acquire self.old now reason }
        ensures reply { result ≡ reply_to self.old now reason };

    /// Tells the limiter of a response at this moment, and whether it was throttled.
    fn update(&mut self, now: u64, throttled: bool)
        ensures { self.new ≡ after_update self.old now throttled };
}

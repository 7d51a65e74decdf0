//! What a client may be configured with.
ghost use Rattle.std.specs.Prelude.{◌≡◌, None};
ghost use Rattle.smithy_types.specs.Config.{standard_retry};

/// Deadlines in nanoseconds. An absent one never passes.
#[derive(Clone, Copy, Debug, PartialEq, Eq)]
pub struct TimeoutConfig {
    /// How long connecting may take.
    pub connect: Option<u64>,
    /// How long reading a response may take.
    pub read: Option<u64>,
    /// How long the operation may take, all attempts together.
    pub operation: Option<u64>,
    /// How long one attempt may take.
    pub attempt: Option<u64>,
}

impl TimeoutConfig {
    /// No deadline at all.
    pub fn disabled() -> TimeoutConfig
        ensures { result ≡ record {
          connect = None;
          read = None;
          operation = None;
          attempt = None;
        } }
    {
        TimeoutConfig {
            connect: None,
            read: None,
            operation: None,
            attempt: None,
        }
    }
}

/// How retries are paced.
#[derive(Clone, Copy, Debug, PartialEq, Eq)]
pub enum RetryMode {
    /// By the quota alone.
    Standard,
    /// By the quota and a limiter of the client's sending rate.
    Adaptive,
}

/// Whether a connection on which a transient failure came is used again.
#[derive(Clone, Copy, Debug, PartialEq, Eq)]
pub enum ReconnectMode {
    /// It isn't used again.
    ReconnectOnTransientError,
    /// It is used again.
    ReuseAllConnections,
}

/// A version of the retry behaviour's specification.
#[derive(Clone, Copy, Debug, PartialEq, Eq)]
pub enum RetrySpecVersion {
    /// A further attempt is made as soon as its delay is over.
    V2_0,
    /// Each attempt but the first asks for a token of its own, and a refused retry may still pause.
    V2_1,
}

/// Which specification of retries holds, and what it adds.
#[derive(Clone, Copy, Debug, PartialEq, Eq)]
pub struct RetrySpec {
    /// Its version.
    pub version: RetrySpecVersion,
    /// Whether the operation polls for long.
    pub long_polling: bool,
    /// The first backoff after a failure that isn't throttling, in nanoseconds.
    pub non_throttling_initial_backoff: u64,
}

/// How an operation is retried.
#[derive(Clone, Copy, Debug, PartialEq, Eq)]
pub struct RetryConfig {
    /// Whether the client's rate of sending is limited too.
    pub mode: RetryMode,
    /// The most attempts, the first included.
    pub max_attempts: u32,
    /// The first backoff, in nanoseconds.
    pub initial_backoff: u64,
    /// The longest backoff, in nanoseconds.
    pub max_backoff: u64,
    /// What becomes of a connection on which a transient failure came.
    pub reconnect: ReconnectMode,
    /// Whether the backoff is used whole, and not a random part of it.
    pub static_base: bool,
    /// Which specification of retries holds, where one was chosen.
    pub spec: Option<RetrySpec>,
}

impl RetryConfig {
    /// Standard retries: three attempts, backoffs of 1 s to 20 s of which a random part is used,
    /// and connections that failed are left.
    pub fn standard() -> RetryConfig
        ensures { result ≡ standard_retry }
    {
        RetryConfig {
            mode: RetryMode::Standard,
            max_attempts: 3,
            initial_backoff: 1_000_000_000,
            max_backoff: 20_000_000_000,
            reconnect: ReconnectMode::ReconnectOnTransientError,
            static_base: false,
            spec: None,
        }
    }
}

/// Whether streams that stall are given up.
#[derive(Clone, Copy, Debug, PartialEq, Eq)]
pub struct StalledStreamProtectionConfig {
    /// Whether the request's body is watched.
    pub upload: bool,
    /// Whether the response's body is watched.
    pub download: bool,
    /// How long a stream may stall, in nanoseconds.
    pub grace_period: u64,
}

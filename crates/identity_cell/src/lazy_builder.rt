//! Building an identity cache.
ghost use Rattle.std.specs.Prelude.{◌≡◌, Some, None, true, false, IfErr, IfOk, OnOk};
ghost use Rattle.identity_cell.specs.Builder.{no_parts, refusal, built};

use crate::{LazyCacheTerms, SharedIdentityCache};
use smithy_types::BuildError;

const SECOND: u64 = 1_000_000_000;

// The default expiration, which is the shortest too, in nanoseconds.
const DEFAULT_EXPIRATION: u64 = 15 * 60 * SECOND;

const DEFAULT_BUFFER: u64 = 10 * SECOND;

const DEFAULT_PARTITIONS: u64 = 64;

/// The parts of a cache that loads identities when they are asked for, as far as they are given.
#[derive(Clone, Copy, Debug, PartialEq, Eq)]
pub struct LazyCacheBuilder {
    /// Whether a clock was given. Nothing reads it: the clock that counts is an operation's.
    pub time_source: bool,
    /// Whether sleeps were given. Nothing reads it: the sleeps that count are an operation's.
    pub sleep_impl: bool,
    /// How long a load may take, in nanoseconds. Where it is absent, the settings say it.
    pub load_timeout: Option<u64>,
    /// How long before its expiry an identity counts as expired, in nanoseconds; 10 s where it is
    /// absent.
    pub buffer_time: Option<u64>,
    /// How long an identity without an expiration is kept, in nanoseconds, at least 15 minutes;
    /// 15 minutes where it is absent.
    pub default_expiration: Option<u64>,
    /// How many schemes' identities are kept at most, at least one; 64 where it is absent.
    pub max_partitions: Option<u64>,
}

impl LazyCacheBuilder {
    /// A builder without any part.
    pub fn new() -> LazyCacheBuilder
        ensures { result ≡ no_parts }
    {
        LazyCacheBuilder {
            time_source: false,
            sleep_impl: false,
            load_timeout: None,
            buffer_time: None,
            default_expiration: None,
            max_partitions: None,
        }
    }

    /// A clock is given.
    pub fn time_source(mut self) -> LazyCacheBuilder
        ensures { result ≡ record self { time_source = true } }
    {
        self.time_source = true;
        self
    }

    /// A clock is given.
    pub fn set_time_source(&mut self) -> &mut LazyCacheBuilder
        ensures lent { result.ghost_name ≡ self.entry.ghost_name }
        ensures set { result.now ≡ record self.old { time_source = true } }
    {
        self.time_source = true;
        self
    }

    /// Sleeps are given.
    pub fn sleep_impl(mut self) -> LazyCacheBuilder
        ensures { result ≡ record self { sleep_impl = true } }
    {
        self.sleep_impl = true;
        self
    }

    /// Sleeps are given.
    pub fn set_sleep_impl(&mut self) -> &mut LazyCacheBuilder
        ensures lent { result.ghost_name ≡ self.entry.ghost_name }
        ensures set { result.now ≡ record self.old { sleep_impl = true } }
    {
        self.sleep_impl = true;
        self
    }

    /// Sets how long a load may take, in nanoseconds.
    pub fn load_timeout(mut self, nanos: u64) -> LazyCacheBuilder
        ensures { result ≡ record self { load_timeout = Some nanos } }
    {
        self.load_timeout = Some(nanos);
        self
    }

    /// Sets or clears how long a load may take, in nanoseconds.
    pub fn set_load_timeout(&mut self, nanos: Option<u64>) -> &mut LazyCacheBuilder
        ensures lent { result.ghost_name ≡ self.entry.ghost_name }
        ensures set { result.now ≡ record self.old { load_timeout = nanos } }
    {
        self.load_timeout = nanos;
        self
    }

    /// Sets how long before its expiry an identity counts as expired, in nanoseconds.
    pub fn buffer_time(mut self, nanos: u64) -> LazyCacheBuilder
        ensures { result ≡ record self { buffer_time = Some nanos } }
    {
        self.buffer_time = Some(nanos);
        self
    }

    /// Sets or clears how long before its expiry an identity counts as expired, in nanoseconds.
    pub fn set_buffer_time(&mut self, nanos: Option<u64>) -> &mut LazyCacheBuilder
        ensures lent { result.ghost_name ≡ self.entry.ghost_name }
        ensures set { result.now ≡ record self.old { buffer_time = nanos } }
    {
        self.buffer_time = nanos;
        self
    }

    /// Sets how long an identity without an expiration is kept, in nanoseconds.
    pub fn default_expiration(mut self, nanos: u64) -> LazyCacheBuilder
        ensures { result ≡ record self { default_expiration = Some nanos } }
    {
        self.default_expiration = Some(nanos);
        self
    }

    /// Sets or clears how long an identity without an expiration is kept, in nanoseconds.
    pub fn set_default_expiration(&mut self, nanos: Option<u64>) -> &mut LazyCacheBuilder
        ensures lent { result.ghost_name ≡ self.entry.ghost_name }
        ensures set { result.now ≡ record self.old { default_expiration = nanos } }
    {
        self.default_expiration = nanos;
        self
    }

    /// Sets how many schemes' identities are kept at most.
    pub fn max_partitions(mut self, most: u64) -> LazyCacheBuilder
        ensures { result ≡ record self { max_partitions = Some most } }
    {
        self.max_partitions = Some(most);
        self
    }

    /// Sets or clears how many schemes' identities are kept at most.
    pub fn set_max_partitions(&mut self, most: Option<u64>) -> &mut LazyCacheBuilder
        ensures lent { result.ghost_name ≡ self.entry.ghost_name }
        ensures set { result.now ≡ record self.old { max_partitions = most } }
    {
        self.max_partitions = most;
        self
    }

    // Why these parts make no cache, if they don't.
    fn refusal(&self) -> Option<BuildError>
        ensures { result ≡ refusal self.now }
    {
        if self.max_partitions.unwrap_or(DEFAULT_PARTITIONS) == 0 {
            Some(BuildError::ZeroPartitions)
        } else if self.default_expiration.unwrap_or(DEFAULT_EXPIRATION) < DEFAULT_EXPIRATION {
            Some(BuildError::ShortExpiration)
        } else {
            None
        }
    }

    /// The cache of these parts, without any identity. It takes no memory. A builder that is
    /// refused comes back, with ZeroPartitions where no identity may be kept, or else with
    /// ShortExpiration where the default expiration is below 15 minutes.
    pub fn build(self) -> Result<SharedIdentityCache, (LazyCacheBuilder, BuildError)>
        ensures refused { IfErr result (λ refused. refusal self ≡ Some refused.1) }
        ensures handed_back { IfErr result (λ refused. refused.0 ≡ self) }
        ensures accepted { OnOk result (refusal self ≡ None) }
        ensures built { IfOk result (λ cache. cache ≡ built self) }
    {
        if let Some(error) = self.refusal() {
            return Err((self, error));
        }
        let terms = LazyCacheTerms::new(
            self.load_timeout,
            self.buffer_time.unwrap_or(DEFAULT_BUFFER),
            self.default_expiration.unwrap_or(DEFAULT_EXPIRATION),
            self.max_partitions.unwrap_or(DEFAULT_PARTITIONS),
        );
        Ok(SharedIdentityCache::Lazy(terms))
    }
}

impl Default for LazyCacheBuilder {
    ghost use Rattle.std.specs.Prelude.{◌≡◌};
    ghost use Rattle.identity_cell.specs.Builder.{no_parts};

    ghost is_default = { λ builder. builder ≡ no_parts };

    /// A builder without any part.
    fn default() -> LazyCacheBuilder {
        LazyCacheBuilder::new()
    }
}

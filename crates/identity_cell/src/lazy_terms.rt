//! How long a lazy cache keeps identities, and how long it waits for them.
ghost use Rattle.std.specs.Prelude.{◌≡◌, ◌<◌, ◌≤◌, unwrap_or};
ghost use Rattle.identity_cell.specs.Timeout.{load_timeout};
ghost use Rattle.identity_cell.specs.Expiry.{stored_expiry};
ghost use Rattle.identity_cell.specs.Terms.{AreTerms};

use crate::{load_timeout, stored_expiry};
use smithy_context::Settings;
use std::marker::Model;

/// The numbers that a lazy cache goes by. Times are in nanoseconds. Whatever value there is keeps
/// identities for at least 15 minutes, and those of one scheme at least: `LazyCacheBuilder::build`
/// makes it.
#[derive(Clone, Copy, Debug, PartialEq, Eq)]
pub struct LazyCacheTerms {
    load_timeout: Option<u64>,
    buffer: u64,
    default_expiration: u64,
    max_partitions: u64,
}

impl Model for LazyCacheTerms {
    ghost use Rattle.identity_cell.specs.Terms.{AreTerms, Terms};

    ghost Value = { Terms };

    ghost view = { λ t. record {
      load_timeout = t.load_timeout;
      buffer = t.buffer;
      default_expiration = t.default_expiration;
      max_partitions = t.max_partitions;
    } };

    ghost invariant = { λ t. AreTerms t.default_expiration t.max_partitions };

    ghost inverse = { λ v. record {
      load_timeout = v.load_timeout;
      buffer = v.buffer;
      default_expiration = v.default_expiration;
      max_partitions = v.max_partitions;
    } };
}

impl LazyCacheTerms {
    /// The numbers of a cache.
    pub(crate) fn new(
        load_timeout: Option<u64>,
        buffer: u64,
        default_expiration: u64,
        max_partitions: u64,
    ) -> LazyCacheTerms
        requires { AreTerms default_expiration max_partitions }
        ensures { result ≡ record {
          load_timeout = load_timeout;
          buffer = buffer;
          default_expiration = default_expiration;
          max_partitions = max_partitions;
        } }
    {
        LazyCacheTerms {
            load_timeout,
            buffer,
            default_expiration,
            max_partitions,
        }
    }

    /// How long before its expiry an identity counts as expired.
    pub fn buffer(&self) -> u64
        ensures { result ≡ self.now.buffer }
    {
        self.buffer
    }

    /// How long an identity without an expiration is kept: at least 15 minutes.
    pub fn default_expiration(&self) -> u64
        ensures value { result ≡ self.now.default_expiration }
        ensures kept { 900000000000 ≤ result }
    {
        self.default_expiration
    }

    /// How many schemes' identities are kept at most: at least one.
    pub fn max_partitions(&self) -> u64
        ensures value { result ≡ self.now.max_partitions }
        ensures some { 0 < result }
    {
        self.max_partitions
    }

    /// How long a load may take with these settings.
    pub fn timeout_in(&self, settings: &Settings) -> u64
        ensures { result ≡ unwrap_or self.now.load_timeout (load_timeout settings.now) }
    {
        match self.load_timeout {
            Some(nanos) => nanos,
            None => load_timeout(settings),
        }
    }

    /// The moment at which an identity expires that was first asked for at this moment, by its own
    /// expiration and a random word.
    pub fn expiry_of(&self, expiration: Option<u64>, asked_at: u64, word: u64) -> u64
        ensures { result ≡ stored_expiry expiration asked_at self.now.default_expiration
            self.now.buffer word }
    {
        stored_expiry(
            expiration,
            asked_at,
            self.default_expiration,
            self.buffer,
            word,
        )
    }
}

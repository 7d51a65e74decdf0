//! Which clients share a retry quota.
ghost use Rattle.std.specs.Prelude.{
  ◌≡◌,
  ◌++◌,
  ◌↔◌,
  IsTrue,
  IsSomeAnd,
  ℕ,
  Option,
  IfOk,
  IfErr,
  OnErr,
  Some,
  None,
  is_some,
};
ghost use Rattle.std.specs.Cmp.Rules.{comparing, hashing};
ghost use Rattle.std.specs.Hash as fed;
ghost use Rattle.std.proofs.Common.{rules};

use crate::{OutOfMemory, Text};
use std::alloc::{AllocError, Global};
use std::fmt;
use std::hash::{Hash, Hasher};

/// The bucket and the limiter of a custom partition, by their numbers in a registry.
#[derive(Clone, Copy, Debug)]
pub struct CustomPartition {
    /// The number of the token bucket.
    pub bucket: u32,
    /// The number of the rate limiter.
    pub limiter: u32,
}

/// A name under which clients share a bucket and a limiter. A default partition's are those that a
/// registry keeps under the name, a custom one brings its own.
#[derive(Debug, Drop)]
pub struct RetryPartition {
    /// The name.
    pub name: Text,
    /// The numbers of a custom partition. A default one has none.
    pub custom: Option<CustomPartition>,
}

impl RetryPartition {
    /// The default partition of this name.
    pub fn new(name: Text) -> RetryPartition
        ensures name { result.name ≡ name }
        ensures default { result.custom ≡ None }
    {
        RetryPartition { name, custom: None }
    }

    /// A builder of a custom partition of this name, with nothing set.
    pub fn custom(name: Text) -> RetryPartitionBuilder
        ensures name { result.name ≡ name }
        ensures no_bucket { result.bucket ≡ None }
        ensures no_limiter { result.limiter ≡ None }
    {
        RetryPartitionBuilder {
            name,
            bucket: None,
            limiter: None,
        }
    }
}

impl Clone for RetryPartition {
    ghost is_clone = { λ partition copy. copy ≡ partition };

    fn clone(&self) -> Result<RetryPartition, AllocError> {
        Ok(RetryPartition {
            name: self.name.clone()?,
            custom: self.custom,
        })
    }
}

/// Two partitions are equal where both are default or both custom, and the names are equal. The
/// numbers of custom ones aren't compared.
impl PartialEq for RetryPartition {
    ghost use Rattle.smithy_types.specs.Partition.{same_partition};

    ghost eq = { same_partition };

    ghost laws = { Prim.search (comparing, rules) };

    fn eq(&self, other: &RetryPartition) -> bool
        ensures value { result ≡ same_partition self.now other.now }
        ensures equal { IsTrue result
            ↔ ((is_some self.now.custom ≡ is_some other.now.custom)
            × (self.now.name ≡ other.now.name)) }
    {
        self.custom.is_some() == other.custom.is_some() && self.name == other.name
    }
}

impl Eq for RetryPartition {
    ghost laws = { Prim.search (comparing, rules) };
}

impl Hash for RetryPartition {
    ghost hash_input = { λ p. fed.bool (is_some p.custom) ++ fed.str p.name };

    ghost respects_eq = { Prim.search (hashing, rules) };

    fn hash<H: Hasher>(&self, state: &mut H) {
        self.custom.is_some().hash(state);
        self.name.as_str().hash(state);
    }
}

impl fmt::Display for RetryPartition {
    ghost output = { λ p. Some p.name };

    fn fmt<W: fmt::Write>(&self, f: &mut fmt::Formatter<W>) -> fmt::Result {
        fmt::Display::fmt(&self.name, f)
    }
}

/// What custom partitions are registered with.
pub trait PartitionRegistry {
    ghost use Rattle.smithy_types.specs.declared.partition.CustomPartition.{CustomPartition};

    /// What a registration leaves: the registry before, the bucket and the limiter that were asked
    /// for, the numbers that were given, and the registry after.
    ghost registers: { Self → Option ℕ → Option ℕ → CustomPartition → Self → Type 0 };

    /// The two numbers of a custom partition. What is None is registered new. Where there is no
    /// memory, nothing is registered.
    fn register(
        &mut self,
        alloc: Global,
        bucket: Option<u32>,
        limiter: Option<u32>,
    ) -> Result<CustomPartition, OutOfMemory>
        ensures ok { IfOk result (λ numbers. registers self.old bucket limiter numbers self.new) }
        ensures err { OnErr result (self.new ≡ self.old) };
}

/// Builds a custom partition.
#[derive(Debug, Drop)]
pub struct RetryPartitionBuilder {
    /// The partition's name.
    pub name: Text,
    /// The number of its bucket, where one was given.
    pub bucket: Option<u32>,
    /// The number of its limiter, where one was given.
    pub limiter: Option<u32>,
}

impl RetryPartitionBuilder {
    /// Sets the number of the token bucket.
    pub fn token_bucket(self, bucket: u32) -> RetryPartitionBuilder
        ensures { result ≡ record self { bucket = Some bucket } }
    {
        RetryPartitionBuilder {
            name: self.name,
            bucket: Some(bucket),
            limiter: self.limiter,
        }
    }

    /// Sets the number of the rate limiter.
    pub fn client_rate_limiter(self, limiter: u32) -> RetryPartitionBuilder
        ensures { result ≡ record self { limiter = Some limiter } }
    {
        RetryPartitionBuilder {
            name: self.name,
            bucket: self.bucket,
            limiter: Some(limiter),
        }
    }

    /// Builds the partition. A bucket or a limiter that isn't set is registered new. Where there is
    /// no memory, the builder comes back and nothing is registered.
    pub fn build<R: PartitionRegistry>(
        self,
        alloc: Global,
        registry: &mut R,
    ) -> Result<RetryPartition, (RetryPartitionBuilder, OutOfMemory)>
        ensures name { IfOk result (λ p. p.name ≡ self.name) }
        ensures numbers { IfOk result (λ p. IsSomeAnd p.custom (λ numbers.
            R.registers registry.old self.bucket self.limiter numbers registry.new)) }
        ensures given_back { IfErr result (λ e. e.0 ≡ self) }
        ensures err { OnErr result (registry.new ≡ registry.old) }
    {
        match registry.register(alloc, self.bucket, self.limiter) {
            Ok(numbers) => Ok(RetryPartition {
                name: self.name,
                custom: Some(numbers),
            }),
            Err(error) => Err((self, error)),
        }
    }
}

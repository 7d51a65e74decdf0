//! Buckets and limiters of one thread, by their numbers and their partitions.
ghost use Rattle.std.specs.Prelude.{◌≡◌, ◌++◌, ◌∷◌, [], length, IfOk, IsOkAnd, OnOk, OnErr, None};
ghost use Rattle.std.specs.Prelude.{option_copied};
ghost use Rattle.retry_quota.specs.Book.{default_book, version_book};
ghost use Rattle.std.specs.Map.{lookup};
ghost use Rattle.smithy_types.specs.Partition.{same_partition};

use crate::{Limiter, PartitionTable, Permit, Quota, RequestReason, Sums, TokenBucket};
use smithy_types::{
    CustomPartition, ErrorKind, OutOfMemory, PartitionRegistry, RetryPartition, RetrySpec,
    RetrySpecVersion,
};
use std::alloc::Global;
use std::marker::Model;

/// What a retry costs under version 2.1 of the specification, but after throttling.
const V2_1_RETRY_COST: u32 = 14;

/// The buckets and the limiters of one thread, by their numbers.
pub struct Registry<L: Limiter> {
    buckets: Vec<TokenBucket>,
    limiters: Vec<L>,
    bucket_names: PartitionTable<RetryPartition, u32>,
    limiter_names: PartitionTable<RetryPartition, u32>,
}

// Written out, so that a drop is one call wherever a registry is dropped.
impl<L: Limiter> Drop for Registry<L> {
    fn drop(self) {
        let Registry {
            buckets: _,
            limiters: _,
            bucket_names: _,
            limiter_names: _,
        } = self;
    }
}

impl<L: Limiter> Model for Registry<L> {
    ghost use Rattle.std.specs.Prelude.{length};
    ghost use Rattle.retry_quota.specs.Registers.{Registers, AreBelow};

    ghost Value = { Registers L };

    ghost view = { λ r. record {
      books = r.buckets.items;
      limiters = r.limiters.items;
      bucket_names = r.bucket_names;
      limiter_names = r.limiter_names;
    } };

    ghost invariant = { λ r. AreBelow (length r.buckets.items) r.bucket_names
        × AreBelow (length r.limiters.items) r.limiter_names };
}

impl<L: Limiter> Registry<L> {
    ghost use Rattle.retry_quota.specs.Registers.{AreBelow};

    /// The registry without buckets and limiters, which takes no memory yet.
    pub fn new(alloc: Global) -> Result<Registry<L>, OutOfMemory>
        ensures no_buckets { IsOkAnd result (λ r. r.books ≡ []) }
        ensures no_names { IsOkAnd result (λ r. (r.bucket_names ≡ []) × (r.limiter_names ≡ [])) }
        ensures no_limiters { IsOkAnd result (λ r. r.limiters ≡ []) }
    {
        Ok(Registry {
            buckets: Vec::new(alloc),
            limiters: Vec::new(alloc),
            bucket_names: PartitionTable::new(),
            limiter_names: PartitionTable::new(),
        })
    }

    /// Adds a bucket, and answers its number, which is kept under no name. Where there is no memory
    /// or no number left, the bucket is dropped.
    pub fn add_bucket(&mut self, _alloc: Global, bucket: TokenBucket) -> Result<u32, OutOfMemory>
        ensures number { IfOk result (λ number. number ≡ length self.old.books) }
        ensures unnamed { AreBelow (length self.old.books) self.old.bucket_names }
        ensures ok { IfOk result (λ _. self.new ≡
            record self.old { books = self.old.books ++ bucket ∷ [] }) }
        ensures err { OnErr result (self.new ≡ self.old) }
    {
        let number = next_number(self.buckets.len())?;
        self.buckets.push(bucket)?;
        Ok(number)
    }

    /// Adds a limiter, and answers its number, which is kept under no name. Where there is no
    /// memory or no number left, the limiter is dropped.
    pub fn add_limiter(&mut self, _alloc: Global, limiter: L) -> Result<u32, OutOfMemory>
        ensures number { IfOk result (λ number. number ≡ length self.old.limiters) }
        ensures unnamed { AreBelow (length self.old.limiters) self.old.limiter_names }
        ensures ok { IfOk result (λ _. self.new ≡
            record self.old { limiters = self.old.limiters ++ limiter ∷ [] }) }
        ensures err { OnErr result (self.new ≡ self.old) }
    {
        let number = next_number(self.limiters.len())?;
        self.limiters.push(limiter)?;
        Ok(number)
    }
}

impl<L: Limiter> Registry<L> {
    ghost use Rattle.std.specs.Prelude.{false, nat_le, slice_get};
    ghost use Rattle.std.specs.Option.{option_map_or};

    // Whether the permit's bucket is there and holds as much.
    fn holds(&self, permit: &Permit) -> bool
        ensures { result ≡ option_map_or (λ b. nat_le permit.now.amount b.held)
            (slice_get self.now.books permit.now.bucket) false }
    {
        match self.buckets.get(permit.bucket as usize) {
            Some(book) => permit.amount as u64 <= book.sums().held,
            None => false,
        }
    }
}

// The bucket of a default partition that comes first under this specification.
fn default_bucket(spec: Option<&RetrySpec>) -> TokenBucket
    ensures { result ≡ default_book (option_copied spec.entry) }
{
    match spec {
        Some(spec) => version_bucket(spec.version),
        None => TokenBucket::default(),
    }
}

// The bucket that this version of the specification asks for.
fn version_bucket(version: RetrySpecVersion) -> TokenBucket
    ensures { result ≡ version_book version }
{
    match version {
        RetrySpecVersion::V2_0 => TokenBucket::default(),
        RetrySpecVersion::V2_1 => TokenBucket::builder()
            .retry_cost(V2_1_RETRY_COST)
            .timeout_retry_cost(V2_1_RETRY_COST)
            .build(),
    }
}

// The number of what is added behind so many.
fn next_number(len: usize) -> Result<u32, OutOfMemory>
    ensures { IfOk result (λ number. number ≡ len) }
{
    u32::try_from(len).map_err(|_| OutOfMemory)
}

// Adds an item behind the others, and its number under the partition, which is new.
fn add_named<T: Drop>(
    items: &mut Vec<T>,
    names: &mut PartitionTable<RetryPartition, u32>,
    alloc: Global,
    partition: &RetryPartition,
    item: T,
) -> Result<u32, OutOfMemory>
    requires { lookup (same_partition partition.now) names.old ≡ None }
    ensures number { IfOk result (λ number. number ≡ length items.old.items) }
    ensures items { OnOk result (items.new.items ≡ items.old.items ++ item ∷ []) }
    ensures names { IfOk result (λ number. names.new ≡ names.old ++ (partition.now, number) ∷ []) }
    ensures items_kept { OnErr result (items.new.items ≡ items.old.items) }
    ensures names_kept { OnErr result (names.new ≡ names.old) }
{
    let number = next_number(items.len())?;
    let key = partition.clone()?;
    items.push(item)?;
    let added = names.add(alloc, key, number);
    if added.is_err() {
        items.pop();
    }
    added
}

impl<L: Limiter> Registry<L> {
    ghost use Rattle.std.specs.Prelude.{MatchOption};
    ghost use Rattle.std.specs.Option.{IfNone};
    ghost use Rattle.retry_quota.specs.Book.{plain_book};
    ghost use Rattle.retry_quota.specs.Registers.{AreBelow};

    // The bucket that is asked for, or a new default one, whose number is kept under no name.
    fn bucket_or_new(&mut self, alloc: Global, asked: Option<u32>) -> Result<u32, OutOfMemory>
        ensures number { IfOk result
            (λ number. MatchOption asked (number ≡ length self.old.books)
            (λ known. number ≡ known)) }
        ensures unnamed { IfNone asked (AreBelow (length self.old.books) self.old.bucket_names) }
        ensures ok { OnOk result (MatchOption asked
            (self.new ≡ record self.old { books = self.old.books ++ plain_book 500 ∷ [] })
            (λ known. self.new ≡ self.old)) }
        ensures err { OnErr result (self.new ≡ self.old) }
    {
        match asked {
            Some(number) => Ok(number),
            None => self.add_bucket(alloc, TokenBucket::default()),
        }
    }

    // The limiter that is asked for, or a new one whose numbers are zero.
    fn limiter_or_new(&mut self, alloc: Global, asked: Option<u32>) -> Result<u32, OutOfMemory>
        ensures number { IfOk result
            (λ number. MatchOption asked (number ≡ length self.old.limiters)
            (λ known. number ≡ known)) }
        ensures ok { OnOk result (MatchOption asked
            (self.new ≡ record self.old { limiters = self.old.limiters ++ L.zero ∷ [] })
            (λ known. self.new ≡ self.old)) }
        ensures err { OnErr result (self.new ≡ self.old) }
    {
        match asked {
            Some(number) => Ok(number),
            None => self.add_limiter(alloc, L::zero()),
        }
    }
}

impl<L: Limiter> PartitionRegistry for Registry<L> {
    ghost use Rattle.retry_quota.specs.Registers.{GivesNumbers};

    ghost registers = { GivesNumbers L.zero };

    fn register(
        &mut self,
        alloc: Global,
        bucket: Option<u32>,
        limiter: Option<u32>,
    ) -> Result<CustomPartition, OutOfMemory> {
        let bucket_number = self.bucket_or_new(alloc, bucket)?;
        match self.limiter_or_new(alloc, limiter) {
            Ok(limiter_number) => Ok(CustomPartition {
                bucket: bucket_number,
                limiter: limiter_number,
            }),
            Err(error) => {
                if bucket.is_none() {
                    self.buckets.pop();
                }
                Err(error)
            }
        }
    }
}

impl<L: Limiter> Quota for Registry<L> {
    ghost use Rattle.retry_quota.specs.Registers.{meaning_of, told_books};

    type Permit = Permit;

    type Limiter = L;

    ghost meaning = { meaning_of };

    ghost permit_bucket = { λ p. p.bucket };

    ghost permit_amount = { λ p. p.amount };

    fn has(&self, bucket: u32) -> bool {
        (bucket as usize) < self.buckets.len()
    }

    fn acquire(&mut self, bucket: u32, kind: ErrorKind, now_secs: u64) -> Option<Permit> {
        let book = &mut self.buckets[bucket as usize];
        let Some(permit) = book.acquire(kind, now_secs) else {
            return None;
        };
        Some(Permit {
            bucket,
            amount: permit.amount,
        })
    }

    fn release(&mut self, permit: Permit) {
        if self.holds(&permit) {
            let book = &mut self.buckets[permit.bucket as usize];
            book.release(permit);
        }
    }

    fn forget(&mut self, permit: Permit) {
        if self.holds(&permit) {
            let book = &mut self.buckets[permit.bucket as usize];
            book.forget(permit);
        }
    }

    fn reward_success(&mut self, bucket: u32) {
        let book = &mut self.buckets[bucket as usize];
        book.reward_success();
    }

    fn regenerate_a_token(&mut self, bucket: u32) {
        let book = &mut self.buckets[bucket as usize];
        book.regenerate_a_token();
    }

    fn success_reward(&self, bucket: u32) -> u64 {
        self.buckets[bucket as usize].success_reward()
    }

    fn cost(&self, bucket: u32, kind: ErrorKind) -> u32 {
        self.buckets[bucket as usize].cost(kind)
    }

    fn sums(&self, bucket: u32) -> Option<Sums> {
        Some(self.buckets[bucket as usize].sums())
    }

    fn bucket_for(
        &mut self,
        alloc: Global,
        partition: &RetryPartition,
        spec: Option<&RetrySpec>,
    ) -> Result<u32, OutOfMemory> {
        if let Some(numbers) = partition.custom {
            return Ok(numbers.bucket);
        }
        if let Some(number) = self.bucket_names.get(alloc, partition)? {
            return Ok(number);
        }
        let bucket = default_bucket(spec);
        let number = add_named(
            &mut self.buckets,
            &mut self.bucket_names,
            alloc,
            partition,
            bucket,
        )?;
        Ok(number)
    }

    fn limiter_for(
        &mut self,
        alloc: Global,
        partition: &RetryPartition,
        now: u64,
    ) -> Result<u32, OutOfMemory> {
        if let Some(numbers) = partition.custom {
            return Ok(numbers.limiter);
        }
        if let Some(number) = self.limiter_names.get(alloc, partition)? {
            return Ok(number);
        }
        let limiter = L::at(now);
        let number = add_named(
            &mut self.limiters,
            &mut self.limiter_names,
            alloc,
            partition,
            limiter,
        )?;
        Ok(number)
    }

    fn limiter_acquire(
        &mut self,
        limiter: u32,
        now: u64,
        reason: RequestReason,
    ) -> Result<(), u64> {
        if limiter as usize >= self.limiters.len() {
            return Ok(());
        }
        let limiter = &mut self.limiters[limiter as usize];
        limiter.acquire(now, reason)
    }

    fn limiter_update(&mut self, limiter: u32, now: u64, throttled: bool) {
        if (limiter as usize) < self.limiters.len() {
            let limiter = &mut self.limiters[limiter as usize];
            limiter.update(now, throttled);
        }
    }

    ghost told = { told_books };
}

//! What lies under the lock, and what a caller that has the lock makes of it.
ghost use Rattle.std.specs.Prelude.{◌≡◌, ◌+◌, ◌-◌, ◌^◌, ◌<◌, ◌≤◌, IfSome, min, option_map};
ghost use Rattle.std.specs.Option.{IfNone};
ghost use Rattle.retry_quota.specs.History.{
  after,
  acquire_reply,
  reply_to,
  Acquire,
  Release,
  Forget,
  Reward,
  Regenerate,
  Convert,
};
ghost use Rattle.retry_quota.specs.Book.{cost_under, is_empty, is_full, sums_of, terms_in};
ghost use Rattle.retry_quota_locked.specs.Stake.{locked_book, with_capacity, AreSound, AreWhole};

use crate::steps;
use retry_quota::{BucketState, BucketTerms, Permit, Sums, TokenBucket};
use smithy_types::ErrorKind;
use std::sync::ledger::{Book, Ledger, Share};

/// A bucket's capacity and changing numbers. What is held is the total of a ledger, and the numbers
/// balance whenever nobody has the lock.
#[derive(Drop)]
pub(crate) struct Locked<L: Ledger> {
    pub(crate) capacity: u64,
    pub(crate) state: BucketState,
    pub(crate) tokens: Book<L>,
    pub(crate) steps: u64,
    pub(crate) ghost held_is_total: { state.held ≡ tokens.total },
    pub(crate) ghost sound: { AreSound capacity state },
}

// The terms, with the capacity that the bucket opened with.
fn capped(terms: &BucketTerms, capacity: u64) -> BucketTerms
    ensures { result ≡ with_capacity terms.now capacity }
{
    let mut capped = *terms;
    capped.capacity = capacity;
    capped
}

// The bucket that lies under the lock, under a caller's terms.
fn taken(terms: &BucketTerms, capacity: u64, state: &BucketState) -> TokenBucket
    requires { AreSound capacity state.now }
    ensures book { result ≡ locked_book terms.now capacity state.now }
    ensures terms { terms_in result ≡ with_capacity terms.now capacity }
    ensures held { result.held ≡ state.now.held }
{
    let bucket = TokenBucket::of(capped(terms, capacity), *state);
    bucket
}

// What of a bucket goes back under the lock.
fn left(bucket: &TokenBucket, terms: &BucketTerms, capacity: u64) -> BucketState
    requires { terms_in bucket.now ≡ with_capacity terms.now capacity }
    ensures book { locked_book terms.now capacity result ≡ bucket.now }
    ensures held { result.held ≡ bucket.now.held }
    ensures sound { AreSound capacity result }
{
    // The clauses alone speak of these two.
    let _terms = terms;
    let _capacity = capacity;
    bucket.state()
}

impl<L: Ledger> Locked<L> {
    /// Pays for a retry after a failure of this kind, at this second. Where it is granted, the
    /// share's amount rises by the permit.
    pub fn acquire(
        &mut self,
        share: &mut Share<L>,
        terms: &BucketTerms,
        kind: ErrorKind,
        now_secs: u64,
    ) -> Option<Permit>
        requires { 0 < share.old.parts }
        ensures book { locked_book terms.now self.new.capacity self.new.state ≡
            after (Acquire kind now_secs) (locked_book terms.now self.old.capacity self.old.state) }
        ensures reply { acquire_reply (option_map (λ p. p.amount) result) ≡
            reply_to (Acquire kind now_secs)
            (locked_book terms.now self.old.capacity self.old.state) }
        ensures permit { IfSome result
            (λ p. p ≡ record { bucket = 0; amount = cost_under kind terms.now }) }
        ensures granted { IfSome result (λ p. share.new.amount ≡ share.old.amount + p.amount) }
        ensures refused { IfNone result (share.new.amount ≡ share.old.amount) }
        ensures parts { share.new.parts ≡ share.old.parts }
        ensures fits { share.new.amount < 2 ^ 64 }
        ensures counted { self.new.steps ≡ min (self.old.steps + 1) (2 ^ 64 - 1) }
    {
        let Locked {
            capacity,
            state,
            tokens,
            steps,
        } = self;
        let mut bucket = taken(terms, *capacity, state);
        let permit = steps::acquire(&mut bucket, kind, now_secs);
        *state = left(&bucket, terms, *capacity);
        if let Some(permit) = &permit {
            tokens.add(share, permit.amount as u64);
        }
        tokens.audit(share);
        *steps = steps.saturating_add(1);
        permit
    }

    /// Gives a permit's tokens back. The share's amount falls by the permit.
    pub fn release(&mut self, share: &mut Share<L>, terms: &BucketTerms, permit: Permit)
        requires { permit.amount ≤ share.old.amount }
        ensures book { locked_book terms.now self.new.capacity self.new.state ≡
            after (Release permit.amount) (locked_book terms.now self.old.capacity self.old.state) }
        ensures amount { share.new.amount + permit.amount ≡ share.old.amount }
        ensures parts { share.new.parts ≡ share.old.parts }
        ensures counted { self.new.steps ≡ min (self.old.steps + 1) (2 ^ 64 - 1) }
    {
        let Locked {
            capacity,
            state,
            tokens,
            steps,
        } = self;
        tokens.audit(share);
        let mut bucket = taken(terms, *capacity, state);
        let amount = permit.amount;
        steps::release(&mut bucket, permit);
        *state = left(&bucket, terms, *capacity);
        tokens.sub(share, amount as u64);
        *steps = steps.saturating_add(1);
    }

    /// Gives a permit's tokens up. The share's amount falls by the permit.
    pub fn forget(&mut self, share: &mut Share<L>, terms: &BucketTerms, permit: Permit)
        requires { permit.amount ≤ share.old.amount }
        ensures book { locked_book terms.now self.new.capacity self.new.state ≡
            after (Forget permit.amount) (locked_book terms.now self.old.capacity self.old.state) }
        ensures amount { share.new.amount + permit.amount ≡ share.old.amount }
        ensures parts { share.new.parts ≡ share.old.parts }
        ensures counted { self.new.steps ≡ min (self.old.steps + 1) (2 ^ 64 - 1) }
    {
        let Locked {
            capacity,
            state,
            tokens,
            steps,
        } = self;
        tokens.audit(share);
        let mut bucket = taken(terms, *capacity, state);
        let amount = permit.amount;
        steps::forget(&mut bucket, permit);
        *state = left(&bucket, terms, *capacity);
        tokens.sub(share, amount as u64);
        *steps = steps.saturating_add(1);
    }

    /// Adds the reward of a success to the fraction, up to the thousandths of the capacity.
    pub fn reward_success(&mut self, terms: &BucketTerms)
        ensures book { locked_book terms.now self.new.capacity self.new.state ≡
            after Reward (locked_book terms.now self.old.capacity self.old.state) }
        ensures counted { self.new.steps ≡ min (self.old.steps + 1) (2 ^ 64 - 1) }
    {
        let mut bucket = taken(terms, self.capacity, &self.state);
        bucket.reward_success();
        self.state = left(&bucket, terms, self.capacity);
        self.steps = self.steps.saturating_add(1);
    }

    /// Adds a token, where there is room for it.
    pub fn regenerate_a_token(&mut self, terms: &BucketTerms)
        ensures book { locked_book terms.now self.new.capacity self.new.state ≡
            after Regenerate (locked_book terms.now self.old.capacity self.old.state) }
        ensures counted { self.new.steps ≡ min (self.old.steps + 1) (2 ^ 64 - 1) }
    {
        let mut bucket = taken(terms, self.capacity, &self.state);
        steps::regenerate_a_token(&mut bucket);
        self.state = left(&bucket, terms, self.capacity);
        self.steps = self.steps.saturating_add(1);
    }

    /// Whether nothing can be added, once whole tokens have left the fraction. It is no step that
    /// counts.
    pub fn is_full(&mut self, terms: &BucketTerms) -> bool
        ensures book { locked_book terms.now self.new.capacity self.new.state ≡
            after Convert (locked_book terms.now self.old.capacity self.old.state) }
        ensures full { result ≡ is_full (locked_book terms.now self.new.capacity self.new.state) }
        ensures uncounted { self.new.steps ≡ self.old.steps }
    {
        let mut bucket = taken(terms, self.capacity, &self.state);
        let full = steps::is_full(&mut bucket);
        self.state = left(&bucket, terms, self.capacity);
        full
    }

    /// Whether no token is available, once whole tokens have left the fraction. It is no step that
    /// counts.
    pub fn is_empty(&mut self, terms: &BucketTerms) -> bool
        ensures book { locked_book terms.now self.new.capacity self.new.state ≡
            after Convert (locked_book terms.now self.old.capacity self.old.state) }
        ensures empty { result ≡ is_empty (locked_book terms.now self.new.capacity self.new.state) }
        ensures uncounted { self.new.steps ≡ self.old.steps }
    {
        let mut bucket = taken(terms, self.capacity, &self.state);
        let empty = steps::is_empty(&mut bucket);
        self.state = left(&bucket, terms, self.capacity);
        empty
    }

    /// The five sums. With all shares in one, what is held is that share's amount.
    pub fn sums(&mut self, share: &mut Share<L>) -> Sums
        ensures sums { (terms : _) →
            result ≡ sums_of (locked_book terms self.old.capacity self.old.state) }
        ensures balanced { result.available + result.held + result.forgotten ≡ result.capacity
            + result.granted }
        ensures whole { share.old.parts ≡ L.parts → AreWhole share.old.amount result }
        ensures bound { share.old.amount ≤ result.held }
        ensures fits { result.held < 2 ^ 64 }
        ensures amount { share.new.amount ≡ share.old.amount }
        ensures parts { share.new.parts ≡ share.old.parts }
        ensures same { (self.new.capacity ≡ self.old.capacity) × (self.new.state ≡ self.old.state) }
        ensures uncounted { self.new.steps ≡ self.old.steps }
    {
        self.tokens.audit(share);
        Sums {
            capacity: self.capacity,
            granted: self.state.granted,
            available: self.state.available,
            held: self.state.held,
            forgotten: self.state.forgotten,
        }
    }
}

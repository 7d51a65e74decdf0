//! A handle on a bucket behind a lock.
ghost use Rattle.std.specs.Prelude.{◌≡◌, ◌+◌, ◌<◌, ◌≤◌, if◌then◌else◌, nat_le, ◌-◌, IfOk, IfSome};
ghost use Rattle.std.specs.Prelude.{OnErr};
ghost use Rattle.std.specs.Option.{IfNone};
ghost use Rattle.retry_quota.specs.Book.{cost_under, terms_in};
ghost use Rattle.retry_quota_locked.specs.Stake.{less, AreWhole};

use crate::locked::Locked;
use retry_quota::{BucketTerms, Permit, Sums, TokenBucket};
use smithy_types::{ErrorKind, OutOfMemory};
use std::alloc::Global;
use std::marker::Model;
use std::sync::ledger::{Blank, Ledger, Share};
use std::sync::{Arc, Mutex, Wait};

/// A handle on a token bucket that threads share. Each handle has a share of the ledger L, whose
/// total is what the bucket holds: the share's amount is what this handle was granted and has
/// neither released nor forgotten. Contracts see a handle as that share and the bucket's terms.
#[derive(Drop)]
pub struct SharedBucket<L: Ledger> {
    locked: Arc<Mutex<Locked<L>>>,
    terms: BucketTerms,
    share: Share<L>,
    amount: u64,
}

impl<L: Ledger> Model for SharedBucket<L> {
    ghost use Rattle.std.specs.Prelude.{◌≡◌, ◌<◌};
    ghost use Rattle.retry_quota_locked.specs.Stake.{Stake};

    ghost Value = { Stake };

    ghost view = { λ s. record { parts = s.share.parts; amount = s.amount; terms = s.terms } };

    ghost invariant = { λ s. (s.share.amount ≡ s.amount) × (0 < s.share.parts) };
}

impl<L: Ledger> SharedBucket<L> {
    /// A handle with all parts of the ledger, of which there is one at least, on this bucket. What
    /// the bucket holds already counts as its own.
    pub fn new(
        alloc: Global,
        blank: Blank,
        bucket: TokenBucket,
    ) -> Result<SharedBucket<L>, OutOfMemory>
        requires name { blank.name ≡ L.name }
        requires parts { blank.parts ≡ L.parts }
        requires some { 0 < blank.parts }
        ensures { IfOk result (λ h. h ≡
            record { parts = L.parts; amount = bucket.held; terms = terms_in bucket }) }
    {
        let (mut tokens, mut share) = blank.open::<L>();
        let terms = bucket.terms();
        let state = bucket.state();
        tokens.add(&mut share, state.held);
        let locked = Arc::new(
            alloc,
            Mutex::new(Locked {
                capacity: terms.capacity,
                state,
                tokens,
                steps: 0,
            }),
        )?;
        Ok(SharedBucket {
            locked,
            terms,
            share,
            amount: state.held,
        })
    }

    /// A second handle, with one part and no amount.
    pub fn split(&mut self, _alloc: Global) -> Result<SharedBucket<L>, OutOfMemory>
        requires { 2 ≤ self.old.parts }
        ensures other { IfOk result (λ h. h ≡
            record { parts = 1; amount = 0; terms = self.old.terms }) }
        ensures ok { IfOk result (λ _. self.new ≡ record self.old { parts = self.old.parts - 1 }) }
        ensures err { OnErr result (self.new ≡ self.old) }
    {
        let locked = Arc::try_clone(&self.locked)?;
        let share = self.share.split_off(1, 0);
        Ok(SharedBucket {
            locked,
            terms: self.terms,
            share,
            amount: 0,
        })
    }

    /// Both handles in one. It takes the lock to know that the amounts together fit.
    pub fn join<R: Wait>(&mut self, rt: &R, other: SharedBucket<L>)
        ensures { self.new ≡ record self.old
            { parts = self.old.parts + other.parts; amount = self.old.amount + other.amount } }
    {
        let SharedBucket {
            locked: _,
            terms: _,
            share,
            amount,
        } = other;
        self.share.merge(share);
        self.locked.lock(rt).sums(&mut self.share);
        self.amount += amount;
    }

    /// Pays for a retry after a failure of this kind, at this second. The share's amount rises by
    /// the permit. The permit's bucket is 0.
    pub fn acquire<R: Wait>(&mut self, rt: &R, kind: ErrorKind, now_secs: u64) -> Option<Permit>
        ensures permit { IfSome result
            (λ p. p ≡ record { bucket = 0; amount = cost_under kind self.old.terms }) }
        ensures granted { IfSome result
            (λ p. self.new ≡ record self.old { amount = self.old.amount + p.amount }) }
        ensures refused { IfNone result (self.new ≡ self.old) }
    {
        let permit = self
            .locked
            .lock(rt)
            .acquire(&mut self.share, &self.terms, kind, now_secs);
        if let Some(permit) = &permit {
            self.amount += permit.amount as u64;
        }
        permit
    }

    /// Gives a permit's tokens back, whichever handle was granted it. A permit of more than the
    /// share's amount is foreign: it is spent, and no number changes.
    pub fn release<R: Wait>(&mut self, rt: &R, permit: Permit)
        ensures { self.new ≡ record self.old { amount = less permit.amount self.old.amount } }
    {
        let amount = permit.amount as u64;
        if amount > self.amount {
            return;
        }
        self.locked
            .lock(rt)
            .release(&mut self.share, &self.terms, permit);
        self.amount -= amount;
    }

    /// Gives a permit's tokens up, whichever handle was granted it. A permit of more than the
    /// share's amount is foreign: it is spent, and no number changes.
    pub fn forget<R: Wait>(&mut self, rt: &R, permit: Permit)
        ensures { self.new ≡ record self.old { amount = less permit.amount self.old.amount } }
    {
        let lost = permit.amount as u64;
        if lost > self.amount {
            return;
        }
        self.locked
            .lock(rt)
            .forget(&mut self.share, &self.terms, permit);
        self.amount -= lost;
    }

    /// Adds the reward of a success to the fraction, up to the thousandths of the capacity.
    pub fn reward_success<R: Wait>(&mut self, rt: &R)
        ensures { self.new ≡ self.old }
    {
        self.locked.lock(rt).reward_success(&self.terms);
    }

    /// Adds a token, where there is room for it.
    pub fn regenerate_a_token<R: Wait>(&mut self, rt: &R)
        ensures { self.new ≡ self.old }
    {
        self.locked.lock(rt).regenerate_a_token(&self.terms);
    }

    /// Whether nothing can be added, once whole tokens have left the fraction.
    pub fn is_full<R: Wait>(&mut self, rt: &R) -> bool
        ensures { self.new ≡ self.old }
    {
        self.locked.lock(rt).is_full(&self.terms)
    }

    /// Whether no token is available, once whole tokens have left the fraction.
    pub fn is_empty<R: Wait>(&mut self, rt: &R) -> bool
        ensures { self.new ≡ self.old }
    {
        self.locked.lock(rt).is_empty(&self.terms)
    }

    /// The five sums. A handle with all parts of the ledger reads its own amount as what is held.
    pub fn sums<R: Wait>(&mut self, rt: &R) -> Sums
        ensures balanced { result.available + result.held + result.forgotten ≡ result.capacity
            + result.granted }
        ensures whole { self.old.parts ≡ L.parts → AreWhole self.old.amount result }
        ensures bound { self.old.amount ≤ result.held }
        ensures same { self.new ≡ self.old }
    {
        self.locked.lock(rt).sums(&mut self.share)
    }

    /// How many acquires, releases, forgets and credits were made, by all handles. A foreign permit
    /// is none of them. The count stops at `u64::MAX`.
    pub fn steps_made<R: Wait>(&mut self, rt: &R) -> u64
        ensures { self.new ≡ self.old }
    {
        self.locked.lock(rt).steps
    }

    /// What a retry after a failure of this kind costs, in tokens.
    pub fn cost(&self, kind: ErrorKind) -> u32
        ensures { result ≡ cost_under kind self.now.terms }
    {
        self.terms.cost(kind)
    }

    /// What a success adds to the fraction, in thousandths of a token.
    pub fn success_reward(&self) -> u64
        ensures { result ≡ self.now.terms.success_reward }
    {
        self.terms.success_reward
    }
}

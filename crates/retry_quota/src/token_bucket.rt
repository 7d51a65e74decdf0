//! The token bucket, as a book.
ghost use Rattle.std.specs.Prelude.{◌≡◌, ◌≤◌, ◌↔◌, IsSome, IfSome, IsOk, IfOk, option_map};
ghost use Rattle.retry_quota.specs.Book.{
  add,
  book_from,
  book_of,
  convert,
  cost_of,
  is_empty,
  is_full,
  opening,
  plain_book,
  raised,
  ready,
  refill,
  state_in,
  sums_of,
  terms_in,
  IsBalanced,
  IsSound,
};
ghost use Rattle.retry_quota.specs.History.{after, acquire_reply, reply_to};
ghost use Rattle.retry_quota.specs.History.{Acquire, Release, Forget, Reward, Regenerate, Convert};

use crate::{
    BucketState, BucketTerms, MAXIMUM_CAPACITY, Permit, QuotaError, Sums, TokenBucketBuilder,
};
use smithy_types::ErrorKind;
use std::marker::Model;

/// How many thousandths a token has.
const THOUSANDTHS: u64 = 1000;

/// A token bucket that bounds retries. Each retry acquires tokens, and what was acquired is
/// released or forgotten once the retry's end is known. Where the tokens don't suffice, there is no
/// retry. Time and success add thousandths of a token, and whole tokens come of them.
#[derive(Drop)]
pub struct TokenBucket {
    terms: BucketTerms,
    state: BucketState,
}

impl Model for TokenBucket {
    ghost use Rattle.retry_quota.specs.Book.{Book, IsSound, book_from};

    ghost Value = { Book };

    ghost view = { λ b. book_from b.terms b.state };

    ghost invariant = { λ b. IsSound (book_from b.terms b.state) };
}

impl TokenBucket {
    // A bucket of these terms that nobody has used yet.
    fn open(terms: BucketTerms) -> TokenBucket
        requires { terms.capacity ≤ MAXIMUM_CAPACITY }
        ensures { result ≡ opening terms }
    {
        let state = BucketState {
            granted: 0,
            available: terms.capacity,
            held: 0,
            forgotten: 0,
            fraction: 0,
            last_refill_secs: 0,
        };
        TokenBucket { terms, state }
    }

    // A bucket with the default costs, without a reward and without a refill.
    fn plain(capacity: u64) -> TokenBucket
        requires { capacity ≤ MAXIMUM_CAPACITY }
        ensures { result ≡ plain_book capacity }
    {
        TokenBucket::open(BucketTerms::plain(capacity))
    }

    /// A bucket of these terms that nobody has used yet. A capacity above the maximum counts as the
    /// maximum.
    pub fn with_terms(terms: BucketTerms) -> TokenBucket
        ensures { result ≡ book_of terms }
    {
        let capacity = terms.capacity.min(MAXIMUM_CAPACITY);
        TokenBucket::open(BucketTerms { capacity, ..terms })
    }

    /// A bucket that opens with this many tokens, with the default costs of 5 tokens for a retry, 5
    /// after throttling and 10 after a transient failure, without a reward and without a refill.
    pub fn new(initial_quota: u64) -> Result<TokenBucket, QuotaError>
        ensures ok { IsOk result ↔ (initial_quota ≤ MAXIMUM_CAPACITY) }
        ensures bucket { IfOk result (λ b. b ≡ plain_book initial_quota) }
    {
        if initial_quota > MAXIMUM_CAPACITY {
            return Err(QuotaError::QuotaTooLarge);
        }
        Ok(TokenBucket::plain(initial_quota))
    }

    /// A builder with nothing set.
    pub fn builder() -> TokenBucketBuilder
        ensures { result ≡ plain_book 500 }
    {
        TokenBucketBuilder::new()
    }

    /// A bucket of the greatest capacity, from which every retry is free.
    pub fn unlimited() -> TokenBucket
        ensures { result ≡ opening (record {
          capacity = MAXIMUM_CAPACITY;
          retry_cost = 0;
          throttling_retry_cost = 0;
          timeout_retry_cost = 0;
          success_reward = 0;
          refill_rate = 0;
        }) }
    {
        TokenBucket::open(BucketTerms {
            capacity: MAXIMUM_CAPACITY,
            retry_cost: 0,
            throttling_retry_cost: 0,
            timeout_retry_cost: 0,
            success_reward: 0,
            refill_rate: 0,
        })
    }

    /// Pays for a retry after a failure of this kind, at this second. First the time since the last
    /// refill counts, and whole tokens leave the fraction. The permit's bucket is 0.
    pub fn acquire(&mut self, kind: ErrorKind, now_secs: u64) -> Option<Permit>
        ensures book { self.new ≡ after (Acquire kind now_secs) self.old }
        ensures reply { acquire_reply (option_map (λ p. p.amount) result) ≡
            reply_to (Acquire kind now_secs) self.old }
        ensures granted { IsSome result
            ↔ (cost_of kind self.old ≤ (ready now_secs self.old).available) }
        ensures permit { IfSome result
            (λ p. p ≡ record { bucket = 0; amount = cost_of kind self.old }) }
    {
        self.refill(now_secs);
        self.convert();
        let amount = self.cost(kind);
        if self.state.available < amount as u64 {
            return None;
        }
        self.state.available -= amount as u64;
        self.state.held += amount as u64;
        Some(Permit { bucket: 0, amount })
    }

    /// Gives a permit's tokens back. What is available may pass the capacity by this.
    pub fn release(&mut self, permit: Permit)
        requires { permit.amount ≤ self.old.held }
        ensures { self.new ≡ after (Release permit.amount) self.old }
    {
        self.state.held -= permit.amount as u64;
        self.state.available += permit.amount as u64;
    }

    /// Gives a permit's tokens up.
    pub fn forget(&mut self, permit: Permit)
        requires { permit.amount ≤ self.old.held }
        ensures { self.new ≡ after (Forget permit.amount) self.old }
    {
        self.state.held -= permit.amount as u64;
        self.state.forgotten += permit.amount as u64;
    }

    /// Adds the reward of a success to the fraction, up to the thousandths of the capacity.
    pub fn reward_success(&mut self)
        ensures { self.new ≡ after Reward self.old }
    {
        self.raise(self.terms.success_reward);
    }

    /// Adds a token, where there is room for it.
    pub fn regenerate_a_token(&mut self)
        ensures { self.new ≡ after Regenerate self.old }
    {
        self.add(1);
    }

    /// Whether nothing can be added, once whole tokens have left the fraction.
    pub fn is_full(&mut self) -> bool
        ensures book { self.new ≡ after Convert self.old }
        ensures full { result ≡ is_full self.new }
    {
        self.convert();
        self.state.available >= self.terms.capacity
    }

    /// Whether no token is available, once whole tokens have left the fraction.
    pub fn is_empty(&mut self) -> bool
        ensures book { self.new ≡ after Convert self.old }
        ensures empty { result ≡ is_empty self.new }
    {
        self.convert();
        self.state.available == 0
    }

    /// The five sums.
    pub fn sums(&self) -> Sums
        ensures sums { result ≡ sums_of self.now }
        ensures balanced { IsBalanced self.now }
    {
        Sums {
            capacity: self.terms.capacity,
            granted: self.state.granted,
            available: self.state.available,
            held: self.state.held,
            forgotten: self.state.forgotten,
        }
    }

    /// A bucket with these terms, in this state. Its tokens must balance.
    pub fn of(terms: BucketTerms, state: BucketState) -> TokenBucket
        requires { IsSound (book_from terms state) }
        ensures { result ≡ book_from terms state }
    {
        TokenBucket { terms, state }
    }

    /// What no step changes.
    pub fn terms(&self) -> BucketTerms
        ensures { result ≡ terms_in self.now }
    {
        self.terms
    }

    /// What steps change.
    pub fn state(&self) -> BucketState
        ensures state { result ≡ state_in self.now }
        ensures sound { IsSound self.now }
    {
        self.state
    }

    /// What a retry after a failure of this kind costs, in tokens.
    pub fn cost(&self, kind: ErrorKind) -> u32
        ensures { result ≡ cost_of kind self.now }
    {
        self.terms.cost(kind)
    }

    /// What a success adds to the fraction, in thousandths of a token.
    pub fn success_reward(&self) -> u64
        ensures { result ≡ self.now.reward }
    {
        self.terms.success_reward
    }

    // Raises the fraction up to its cap.
    fn raise(&mut self, more: u64)
        ensures { self.new ≡ record self.old { fraction = raised more self.old } }
    {
        let cap = self.terms.capacity * THOUSANDTHS;
        if self.state.fraction < cap {
            self.state.fraction = self.state.fraction.saturating_add(more).min(cap);
        }
    }

    // Counts the time since the last refill.
    fn refill(&mut self, now_secs: u64)
        ensures { self.new ≡ refill now_secs self.old }
    {
        if self.terms.refill_rate == 0 || now_secs == self.state.last_refill_secs {
            return;
        }
        let elapsed = now_secs.saturating_sub(self.state.last_refill_secs);
        self.state.last_refill_secs = now_secs;
        self.raise(elapsed.saturating_mul(self.terms.refill_rate));
    }

    // Adds tokens up to the capacity.
    fn add(&mut self, tokens: u64)
        ensures { self.new ≡ add tokens self.old }
    {
        let fitting = tokens.min(self.terms.capacity.saturating_sub(self.state.available));
        let Some(granted) = self.state.granted.checked_add(fitting) else {
            return;
        };
        if self.terms.capacity.checked_add(granted).is_none() {
            return;
        }
        self.state.available += fitting;
        self.state.granted = granted;
    }

    // Takes the whole tokens out of the fraction and adds them. At most steps there are none.
    fn convert(&mut self)
        ensures { self.new ≡ convert self.old }
    {
        if self.state.fraction < THOUSANDTHS {
            return;
        }
        let tokens = self.state.fraction / THOUSANDTHS;
        self.state.fraction %= THOUSANDTHS;
        self.add(tokens);
    }
}

/// Capacity 500, with the costs of `new`.
impl Default for TokenBucket {
    ghost is_default = { λ b. b ≡ plain_book 500 };

    fn default() -> TokenBucket {
        TokenBucket::open(BucketTerms::default())
    }
}

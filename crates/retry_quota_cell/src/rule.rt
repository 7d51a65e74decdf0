//! The rule of the cell, its steps, and how views are cut and put together.

use atomic_table::{Join, Split};
use crossbeam_utils::atomic::seq_cell::{Pass, RuledSeqCell};
use crossbeam_utils::rule::{Outcome, Protocol};
use std::marker::{Brand, Model, PhantomData};

/// Stands for what a pass knows, which exists in proofs alone. No value of it is made.
pub struct Sight {
    none: (),
}

impl Model for Sight {
    ghost use Rattle.retry_quota_cell.specs.View.{View};
    ghost use Rattle.retry_quota_cell.specs.Rule.{newcomer};

    ghost Value = { View };

    ghost view = { λ s. newcomer };
}

/// The words are the book's six changing numbers, the count of calls and the pool of parts.
pub struct InOneOrder;

impl Protocol<[u64; 8], Sight> for InOneOrder {
    ghost use Rattle.retry_quota_cell.specs.Rule.{Kept, newcomer};

    ghost holds = { Kept };

    ghost first = { newcomer };
}

/// Names the step that an exchange makes. Each call of the program picks it.
pub trait Told {
    ghost use Rattle.retry_quota.specs.History.{Step};

    ghost step: { Step };
}

impl Told for Brand {
    ghost use Rattle.retry_quota.specs.History.{Convert};

    ghost step = { Convert };
}

/// Names what a cell is opened with.
pub trait Begun {
    ghost use Rattle.retry_quota_cell.specs.View.{Opening};

    ghost opening: { Opening };
}

impl Begun for Brand {
    ghost use Rattle.retry_quota_cell.specs.Rule.{no_opening};

    ghost opening = { no_opening };
}

/// The pass opens the cell.
pub struct Opens<B> {
    begun: PhantomData<B>,
}

impl<B: Begun> Outcome<[u64; 8], Sight> for Opens<B> {
    ghost use Rattle.retry_quota_cell.specs.Rule.{Begins};

    ghost then = { Begins B.opening };
}

/// The pass sees the history so far.
pub struct Loads;

impl Outcome<[u64; 8], Sight> for Loads {
    ghost use Rattle.retry_quota_cell.specs.Rule.{Loaded};

    ghost then = { Loaded };
}

/// The pass learns that its parts are no more than the callers.
pub struct Counts;

impl Outcome<[u64; 8], Sight> for Counts {
    ghost use Rattle.retry_quota_cell.specs.Rule.{Counted};

    ghost then = { Counted };
}

/// The pass makes a step, or sees the history so far.
pub struct Makes<B> {
    told: PhantomData<B>,
}

impl<B: Told> Outcome<[u64; 8], Sight> for Makes<B> {
    ghost use Rattle.retry_quota_cell.specs.Rule.{Made};

    ghost then = { Made B.step };
}

/// The pass gives a part to the pool.
pub struct PartOut;

impl Outcome<[u64; 8], Sight> for PartOut {
    ghost use Rattle.retry_quota_cell.specs.Rule.{PutsOut};

    ghost then = { PutsOut };
}

/// The pass takes a part from the pool.
pub struct PartIn;

impl Outcome<[u64; 8], Sight> for PartIn {
    ghost use Rattle.retry_quota_cell.specs.Rule.{TakesIn};

    ghost then = { TakesIn };
}

/// A second view that has seen as much, with no call and no part.
pub struct Tell;

impl Split<Sight> for Tell {
    ghost use Rattle.retry_quota_cell.specs.Rule.{told};

    ghost left = { λ v. v };

    ghost right = { told };
}

/// All of the view goes over to a new pass.
pub struct HandOver;

impl Split<Sight> for HandOver {
    ghost use Rattle.retry_quota_cell.specs.Rule.{spent};

    ghost left = { λ v. spent };

    ghost right = { λ v. v };
}

/// Two views in one.
pub struct Unite;

impl Join<Sight> for Unite {
    ghost use Rattle.retry_quota_cell.specs.Rule.{united, spent};

    ghost both = { united };

    ghost spent = { spent };
}

pub type Cell = RuledSeqCell<[u64; 8], Sight, InOneOrder, 8>;

pub type Seat = Pass<[u64; 8], Sight>;

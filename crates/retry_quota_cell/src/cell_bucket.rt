//! A bucket that threads share, each with a pass of its own.
ghost use Rattle.std.specs.Prelude.{◌≡◌, ◌-◌, ◌≤◌, IfOk, IfSome, option_map};
ghost use Rattle.retry_quota.specs.History.{
  acquire_reply,
  Acquire as Acquires,
  Convert as Converts,
  Done,
  Forget as Forgets,
  Level,
  Regenerate as Regenerates,
  Release as Releases,
  Reward as Rewards,
};
ghost use Rattle.retry_quota.specs.Book.{cost_of};
ghost use Rattle.retry_quota_cell.specs.Rule.{Adds, opened, told, united, with_parts};
ghost use Rattle.retry_quota_cell.specs.Known.{IsOf, Sees, opening_of};

use crate::call::{Acquire, Convert, Forget, Regenerate, Release, Reward};
use crate::rule::{Cell, Counts, Loads, Seat, Tell, Unite};
use crate::steps::{fresh_seat, make, open, put_out, take_in};
use retry_quota::{Permit, Sums, TokenBucket};
use smithy_types::{ErrorKind, OutOfMemory};
use std::alloc::Global;
use std::marker::{Brand, Model};
use std::sync::Wait;

/// A bucket whose changing numbers lie in one cell, with the count of the steps that were made.
/// Contracts see it as the cell's name, and what the cell was opened with.
#[derive(Drop)]
pub struct CellBucket {
    cell: Cell,
    opened: TokenBucket,
    callers: u32,
}

impl Model for CellBucket {
    ghost use Rattle.retry_quota_cell.specs.Known.{Place, opening_of};

    ghost Value = { Place };

    ghost view = { λ b. record {
      cell = b.cell.table.shared.table_id;
      opening = opening_of b.opened b.callers;
    } };
}

/// The right to make calls on a bucket, with what it knows of the history. It has one part at
/// least, of as many as the bucket has callers.
#[derive(Drop)]
pub struct Pass {
    seat: Seat,
    parts: u32,
}

impl Model for Pass {
    ghost use Rattle.std.specs.Prelude.{◌≡◌};
    ghost use Rattle.crossbeam_utils.specs.Seq.{cell_view};
    ghost use Rattle.retry_quota_cell.specs.Known.{Known, IsWorking};

    ghost Value = { Known };

    ghost view = { λ p. record { cell = p.seat.table_id; view = cell_view p.seat } };

    ghost invariant = { λ p. IsWorking (cell_view p.seat)
        × (p.parts ≡ (cell_view p.seat).parts) };
}

impl Pass {
    /// How many parts the pass has.
    pub fn parts(&self) -> u32
        ensures { result ≡ self.now.view.parts }
    {
        self.parts
    }
}

impl CellBucket {
    /// A bucket that callers share, and a pass with all parts, one for each of the 1 to 16 callers.
    /// It needs Wait, since the pass opens the cell by an exchange.
    pub fn new<R: Wait>(
        rt: &R,
        alloc: Global,
        bucket: TokenBucket,
        callers: u32,
    ) -> Result<(CellBucket, Pass), OutOfMemory>
        requires { (1 ≤ callers) × (callers ≤ 16) }
        ensures opening { IfOk result (λ r. r.0.opening ≡ opening_of bucket callers) }
        ensures own { IfOk result (λ r. IsOf r.0 r.1) }
        ensures pass { IfOk result (λ r. r.1.view ≡ opened (opening_of bucket callers)) }
    {
        let (cell, mut seat) = Cell::ruled(alloc, [0; 8])?;
        open::<Brand, R>(rt, &cell, &mut seat, &bucket, callers);
        let pass = Pass {
            seat,
            parts: callers,
        };
        let shared = CellBucket {
            cell,
            opened: bucket,
            callers,
        };
        Ok((shared, pass))
    }

    /// Pays for a retry after a failure of this kind, at this second. The permit's bucket is 0.
    pub fn acquire<R: Wait>(
        &self,
        rt: &R,
        pass: &mut Pass,
        kind: ErrorKind,
        now_secs: u64,
    ) -> Option<Permit>
        requires { IsOf self.now pass.old }
        ensures cell { IsOf self.now pass.new }
        ensures made { Adds
            (Acquires kind now_secs)
            pass.old.view
            (acquire_reply (option_map (λ p. p.amount) result))
            pass.new.view }
        ensures permit { IfSome
            result
            (λ p. p ≡ record { bucket = 0; amount = cost_of kind self.now.opening.book }) }
    {
        let call = Acquire { kind, now_secs };
        let cost = make::<Brand, Acquire, R>(rt, &self.cell, &self.opened, &mut pass.seat, &call);
        match cost {
            Some(amount) => Some(Permit { bucket: 0, amount }),
            None => None,
        }
    }

    /// Gives a permit's tokens back. Where the bucket doesn't hold as many, no number changes.
    pub fn release<R: Wait>(&self, rt: &R, pass: &mut Pass, permit: Permit)
        requires { IsOf self.now pass.old }
        ensures cell { IsOf self.now pass.new }
        ensures made { Adds (Releases permit.amount) pass.old.view Done pass.new.view }
    {
        let call = Release {
            amount: permit.amount,
        };
        make::<Brand, Release, R>(rt, &self.cell, &self.opened, &mut pass.seat, &call);
    }

    /// Gives a permit's tokens up. Where the bucket doesn't hold as many, no number changes.
    pub fn forget<R: Wait>(&self, rt: &R, pass: &mut Pass, permit: Permit)
        requires { IsOf self.now pass.old }
        ensures cell { IsOf self.now pass.new }
        ensures made { Adds (Forgets permit.amount) pass.old.view Done pass.new.view }
    {
        let call = Forget {
            amount: permit.amount,
        };
        make::<Brand, Forget, R>(rt, &self.cell, &self.opened, &mut pass.seat, &call);
    }

    /// Adds the reward of a success to the fraction.
    pub fn reward_success<R: Wait>(&self, rt: &R, pass: &mut Pass)
        requires { IsOf self.now pass.old }
        ensures cell { IsOf self.now pass.new }
        ensures made { Adds Rewards pass.old.view Done pass.new.view }
    {
        make::<Brand, Reward, R>(rt, &self.cell, &self.opened, &mut pass.seat, &Reward);
    }

    /// Adds a token, where there is room for it.
    pub fn regenerate_a_token<R: Wait>(&self, rt: &R, pass: &mut Pass)
        requires { IsOf self.now pass.old }
        ensures cell { IsOf self.now pass.new }
        ensures made { Adds Regenerates pass.old.view Done pass.new.view }
    {
        make::<Brand, Regenerate, R>(rt, &self.cell, &self.opened, &mut pass.seat, &Regenerate);
    }

    /// Whether nothing can be added, once whole tokens have left the fraction.
    pub fn is_full<R: Wait>(&self, rt: &R, pass: &mut Pass) -> bool
        requires { IsOf self.now pass.old }
        ensures cell { IsOf self.now pass.new }
        ensures made { (empty : _)
            × Adds Converts pass.old.view (Level result empty) pass.new.view }
    {
        make::<Brand, Convert, R>(rt, &self.cell, &self.opened, &mut pass.seat, &Convert).0
    }

    /// Whether no token is available, once whole tokens have left the fraction.
    pub fn is_empty<R: Wait>(&self, rt: &R, pass: &mut Pass) -> bool
        requires { IsOf self.now pass.old }
        ensures cell { IsOf self.now pass.new }
        ensures made { (full : _)
            × Adds Converts pass.old.view (Level full result) pass.new.view }
    {
        make::<Brand, Convert, R>(rt, &self.cell, &self.opened, &mut pass.seat, &Convert).1
    }

    /// The five sums, and how many steps were made, by one look.
    pub fn sums_and_length<R: Wait>(&self, rt: &R, pass: &mut Pass) -> (Sums, u64)
        requires { IsOf self.now pass.old }
        ensures cell { IsOf self.now pass.new }
        ensures look { Sees pass.old.view result.0 result.1 pass.new.view }
    {
        let found = self.cell.load_as::<Loads, R>(rt, &mut pass.seat);
        let sums = Sums {
            capacity: self.opened.terms().capacity,
            granted: found[0],
            available: found[1],
            held: found[2],
            forgotten: found[3],
        };
        (sums, found[6])
    }

    /// The five sums.
    pub fn sums<R: Wait>(&self, rt: &R, pass: &mut Pass) -> Sums
        requires { IsOf self.now pass.old }
        ensures cell { IsOf self.now pass.new }
        ensures look { (count : _) × Sees pass.old.view result count pass.new.view }
    {
        self.sums_and_length(rt, pass).0
    }

    /// A second pass, with one of the parts.
    pub fn split<R: Wait>(&self, rt: &R, pass: &mut Pass) -> Pass
        requires own { IsOf self.now pass.old }
        requires parts { 2 ≤ pass.old.view.parts }
        ensures cells { IsOf self.now pass.new × IsOf self.now result }
        ensures kept { pass.new.view ≡ with_parts pass.old.view (pass.old.view.parts - 1) }
        ensures given { result.view ≡ with_parts (told pass.old.view) 1 }
    {
        put_out(rt, &self.cell, &mut pass.seat);
        pass.parts -= 1;
        let mut seat = self.cell.split_pass::<Tell>(&mut pass.seat);
        take_in(rt, &self.cell, &mut seat);
        Pass { seat, parts: 1 }
    }

    /// Both passes in one.
    pub fn join<R: Wait>(&self, rt: &R, pass: &mut Pass, other: Pass)
        requires { IsOf self.now pass.old × IsOf self.now other }
        ensures cell { IsOf self.now pass.new }
        ensures both { pass.new.view ≡ united pass.old.view other.view }
    {
        let Pass { seat, parts } = other;
        let seat = fresh_seat(&self.cell, seat);
        self.cell.join_pass::<Unite>(&mut pass.seat, seat);
        self.cell.load_as::<Counts, R>(rt, &mut pass.seat);
        pass.parts += parts;
    }

    /// What a retry after a failure of this kind costs, in tokens.
    pub fn cost(&self, kind: ErrorKind) -> u32
        ensures { result ≡ cost_of kind self.now.opening.book }
    {
        self.opened.cost(kind)
    }

    /// What a success adds to the fraction, in thousandths of a token.
    pub fn success_reward(&self) -> u64
        ensures { result ≡ self.now.opening.book.reward }
    {
        self.opened.success_reward()
    }
}

//! Any number of callers on one bucket, each in a thread of its own.
ghost use Rattle.std.specs.Prelude.{◌≡◌, [], List, length, map, vec_len, vec_capacity};
ghost use Rattle.std.specs.Thread.{IsSync};
ghost use Rattle.retry_quota.specs.Book.{sums_of};
ghost use Rattle.retry_quota.specs.History.{Entry, end_of};
ghost use Rattle.retry_quota_cell.specs.Rule.{opened};
ghost use Rattle.retry_quota_cell.specs.Known.{IsOf};
ghost use Rattle.retry_quota_cell.specs.Callers.{HasMade, IsUnused};
ghost use Rattle.retry_quota_cell.specs.Fleet.{AreTheirs, Each};
ghost use Rattle.retry_quota_cell.specs.Met.{Met};

use crate::cell_bucket::{CellBucket, Pass};
use retry_quota::Sums;
use std::sync::Wait;
use std::thread::{Threads, join};

/// What one caller does with its pass on a shared bucket, in a thread of its own.
pub trait Caller: Drop + Send {
    ghost use Rattle.retry_quota.specs.History.{Entry};
    ghost use Rattle.retry_quota_cell.specs.Known.{IsOf, Place};
    ghost use Rattle.retry_quota_cell.specs.Callers.{IsUnused, HasMade};

    /// The steps that a caller has made, with their replies.
    ghost made: { Self → List Entry };

    /// How a caller may end at a bucket, by what it was.
    ghost ends: { Place → Self → Self → Type 0 };

    /// Runs the caller to its end, with a pass of one part that has made no step.
    fn run<R: Wait>(self, rt: &R, bucket: &CellBucket, pass: Pass) -> (Self, Pass)
        requires own { IsOf bucket.now pass }
        requires unused { IsUnused pass.view }
        ensures ends { ends bucket.now self result.0 }
        ensures own { IsOf bucket.now result.1 }
        ensures made { HasMade (made result.0) result.1.view };
}

// Runs each caller in a thread of its own, with a part of the pass, and joins their passes.
fn gather<C: Caller, R: Threads + Wait + Sync>(
    rt: &R,
    bucket: &CellBucket,
    mut pass: Pass,
    mut callers: Vec<C>,
) -> (Vec<C>, Pass)
    requires own { IsOf bucket.now pass }
    requires parts { pass.view.parts ≡ vec_len callers }
    requires unused { pass.view.places ≡ [] }
    ensures ends { Each (C.ends bucket.now) callers.items result.0.items }
    ensures room { vec_capacity result.0 ≡ vec_capacity callers }
    ensures own { IsOf bucket.now result.1 }
    ensures met { Met (map C.made result.0.items) pass.view result.1.view }
{
    let Some(last) = callers.pop() else {
        return (callers, pass);
    };
    if callers.is_empty() {
        let (last, pass) = last.run(rt, bucket, pass);
        callers.push_reserved(last);
        return (callers, pass);
    }
    let other = bucket.split(rt, &mut pass);
    let ((last, theirs), (mut callers, mut pass)) = join(
        rt,
        move || -> (C, Pass)
            requires { IsOf bucket.now other × IsUnused other.view }
            ensures { C.ends bucket.entry.now last result.0
                × IsOf bucket.entry.now result.1
                × HasMade (C.made result.0) result.1.view }
        { last.run(rt, bucket, other) },
        move || -> (Vec<C>, Pass)
            requires { IsSync R.row
                × IsOf bucket.now pass
                × (pass.view.parts ≡ vec_len callers)
                × (pass.view.places ≡ []) }
            ensures { Each (C.ends bucket.entry.now) callers.items result.0.items
                × (vec_capacity result.0 ≡ vec_capacity callers)
                × IsOf bucket.entry.now result.1
                × Met (map C.made result.0.items) pass.view result.1.view }
        { gather(rt, bucket, pass, callers) },
    );
    bucket.join(rt, &mut pass, theirs);
    callers.push_reserved(last);
    (callers, pass)
}

/// Runs each caller to its end in a thread of its own, over a bucket that was opened for as many,
/// and answers the callers with one look at the bucket behind their last step. There is one legal
/// history, whose entries are their steps, each once, each caller's in its order. It leaves these
/// sums and has this length.
pub fn run_callers<C: Caller, R: Threads + Wait + Sync>(
    rt: &R,
    bucket: &CellBucket,
    pass: Pass,
    callers: Vec<C>,
) -> (Vec<C>, Sums, u64)
    requires own { IsOf bucket.now pass }
    requires new { pass.view ≡ opened bucket.now.opening }
    requires callers { bucket.now.opening.callers ≡ vec_len callers }
    ensures ends { Each (C.ends bucket.now) callers.items result.0.items }
    ensures history { (log : List Entry)
        × AreTheirs bucket.now.opening (map C.made result.0.items) log
        × (result.1 ≡ sums_of (end_of bucket.now.opening.book log))
        × (result.2 ≡ length log) }
{
    let (callers, mut pass) = gather(rt, bucket, pass, callers);
    let (sums, length) = bucket.sums_and_length(rt, &mut pass);
    (callers, sums, length)
}

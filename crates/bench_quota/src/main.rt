//! Lets callers in threads make steps at one bucket, and prints what they left.
//!
//! The words are the form of the bucket, `cell`, `shared` or `plain`, the number of callers and the
//! rounds of each. A round is two steps: an acquire, and then a release, or a reward where the
//! acquire was refused. `plain` is a caller with a bucket of its own, in one thread.
#![tactic(auto)]

mod form;
mod in_cell;
mod locked;
mod plain;
mod rounds;

use crate::form::{Form, Load};
use anyhow::Result;
use retry_quota::{Sums, TokenBucket};

const CAPACITY: u64 = 40;

fn main(rt: HostRuntime) -> Result<()> {
    let load = Load::from_words(&rt)?;
    let bucket = TokenBucket::builder().capacity(CAPACITY).build();
    let (sums, steps) = match load.form {
        Form::Cell => in_cell::spend(&rt, rt.alloc(), bucket, load)?,
        Form::Shared => locked::spend(&rt, rt.alloc(), bucket, load)?,
        Form::Plain => plain::spend(rt.alloc(), bucket, load)?,
    };
    let Sums {
        granted,
        available,
        held,
        forgotten,
        ..
    } = sums;
    println!(rt;
        "{steps} steps, {granted} granted, {available} available, {held} held, \
        {forgotten} forgotten"
    )?;
    Ok(())
}

//! What the buckets of a registry hold, as it is printed: a line each.
#![tactic(auto)]

ghost use Rattle.std.specs.Prelude.{◌≡◌, ◌+◌, ◌++◌, option_map, slice_get, OnOk, IfOk};
ghost use Rattle.json_buckets.specs.Buckets.{bucket_data, buckets_text};
ghost use Rattle.json_forms.specs.JsonData.{data_of};
ghost use Rattle.json_forms.specs.Lines.{line};
ghost use Rattle.retry_quota.specs.Book.{sums_of};

use json_forms::Json;
use json_values::note::print_sums;
use retry_quota::{Limiter, Quota, Registry};
use smithy_types::{OutOfMemory, Sums};
use std::alloc::Global;

/// A bucket's number and its sums.
#[tactic(auto, unfolding(crate::specs::Buckets::bucket_data))]
pub fn print_bucket(alloc: Global, number: u32, sums: Sums) -> Result<Json, OutOfMemory>
    ensures { IfOk result (λ j. data_of j ≡ bucket_data number sums) }
{
    let tag = Json::text(alloc, "bucket")?;
    let sums = print_sums(alloc, sums)?;
    Json::triple(alloc, tag, Json::number(number as u64), sums)
}

/// The sums of each bucket under its number, from 0 on.
pub fn print_buckets<L: Limiter>(
    alloc: Global,
    quota: &Registry<L>,
    out: &mut Vec<u8>,
) -> Result<(), OutOfMemory>
    ensures { OnOk result (out.new.items ≡ out.old.items ++ buckets_text 0 quota.now.books) }
{
    let mut number = 0;
    while let Some(sums) = sums_of(quota, number) {
        write_bucket(alloc, number, sums, out)?;
        number = next_bucket(number)?;
    }
    Ok(())
}

// Writes the line of a bucket.
fn write_bucket(
    alloc: Global,
    number: u32,
    sums: Sums,
    out: &mut Vec<u8>,
) -> Result<(), OutOfMemory>
    ensures { OnOk result (out.new.items ≡ out.old.items ++ line (bucket_data number sums)) }
{
    print_bucket(alloc, number, sums)?.write_line(alloc, out)
}

/// The sums of a bucket, where it is there.
pub fn sums_of<L: Limiter>(quota: &Registry<L>, number: u32) -> Option<Sums>
    ensures { result ≡ option_map sums_of (slice_get quota.now.books number) }
{
    if quota.has(number) {
        quota.sums(number)
    } else {
        None
    }
}

// The number of the bucket behind this one. There is none behind the last of a u32, as no
// registry has more buckets.
fn next_bucket(number: u32) -> Result<u32, OutOfMemory>
    ensures { IfOk result (λ n. n ≡ number + 1) }
{
    match number.checked_add(1) {
        Some(next) => Ok(next),
        None => Err(OutOfMemory),
    }
}

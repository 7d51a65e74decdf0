//! The print of invocations and of what is left behind them.
ghost use Rattle.std.specs.Prelude.{◌≡◌, ◌+◌, ◌++◌, option_map, slice_get, OnOk, IfOk};
ghost use Rattle.json_forms.specs.JsonData.{data_of};
ghost use Rattle.retry_quota.specs.Book.{sums_of};
ghost use Rattle.json_print.specs.Print.{line};
ghost use Rattle.cli_client_runs.specs.Print.{bucket_data, buckets_text, invocation_data};
ghost use Rattle.cli_client_runs.specs.Print.{invocation_text, loads_data};

use client_scripted::ClientQuota;
use json_forms::{Json, Row};
use json_print::Ending;
use json_print::ending::print_ending;
use json_print::print::print_entries;
use json_values::note::print_sums;
use retry_quota::Quota;
use run_grammar::Entry;
use smithy_types::{OutOfMemory, Sums};
use std::alloc::Global;

/// An invocation: its number and its client's, the entries numbered from 1, and the ending.
#[tactic(auto, unfolding(crate::specs::Print::invocation_text))]
pub fn print_invocation(
    alloc: Global,
    number: u64,
    client: usize,
    entries: &[Entry],
    ending: &Ending,
    out: &mut Vec<u8>,
) -> Result<(), OutOfMemory>
    ensures { OnOk result (out.new.items ≡ out.old.items
        ++ invocation_text number client entries.now ending.now) }
{
    print_begin(alloc, number, client)?.write_line(alloc, out)?;
    print_entries(alloc, entries, out)?;
    print_ending(alloc, ending)?.write_line(alloc, out)
}

// The line before an invocation.
#[tactic(auto, unfolding(crate::specs::Print::invocation_data))]
fn print_begin(alloc: Global, number: u64, client: usize) -> Result<Json, OutOfMemory>
    ensures { IfOk result (λ j. data_of j ≡ invocation_data number client) }
{
    let tag = Json::text(alloc, "invocation")?;
    Json::triple(
        alloc,
        tag,
        Json::number(number),
        Json::number(client as u64),
    )
}

/// A bucket's number and its sums.
#[tactic(auto, unfolding(crate::specs::Print::bucket_data))]
pub fn print_bucket(alloc: Global, number: u32, sums: Sums) -> Result<Json, OutOfMemory>
    ensures { IfOk result (λ j. data_of j ≡ bucket_data number sums) }
{
    let tag = Json::text(alloc, "bucket")?;
    let sums = print_sums(alloc, sums)?;
    Json::triple(alloc, tag, Json::number(number as u64), sums)
}

/// How many loads of identities were begun.
#[tactic(auto, unfolding(crate::specs::Print::loads_data))]
pub fn print_loads(alloc: Global, loads: u64) -> Result<Json, OutOfMemory>
    ensures { IfOk result (λ j. data_of j ≡ loads_data loads) }
{
    Json::pair(alloc, Json::text(alloc, "loads")?, Json::number(loads))
}

/// The sums of each bucket under its number, from 0 on.
pub fn print_buckets(
    alloc: Global,
    quota: &ClientQuota,
    out: &mut Vec<u8>,
) -> Result<(), OutOfMemory>
    ensures { OnOk result (out.new.items ≡ out.old.items ++ buckets_text 0 quota.now.books) }
{
    let mut number = 0;
    while let Some(sums) = sums_of(quota, number) {
        write_bucket(alloc, number, sums, out)?;
        number = next_bucket(number)?;
    }
    Ok(())
}

// Writes the line of a bucket.
fn write_bucket(
    alloc: Global,
    number: u32,
    sums: Sums,
    out: &mut Vec<u8>,
) -> Result<(), OutOfMemory>
    ensures { OnOk result (out.new.items ≡ out.old.items ++ line (bucket_data number sums)) }
{
    print_bucket(alloc, number, sums)?.write_line(alloc, out)
}

/// The sums of a bucket, where it is there.
pub fn sums_of(quota: &ClientQuota, number: u32) -> Option<Sums>
    ensures { result ≡ option_map sums_of (slice_get quota.now.books number) }
{
    if quota.has(number) {
        quota.sums(number)
    } else {
        None
    }
}

// The number of the bucket behind this one. There is none behind the last of a u32, as no
// registry has more buckets.
fn next_bucket(number: u32) -> Result<u32, OutOfMemory>
    ensures { IfOk result (λ n. n ≡ number + 1) }
{
    match number.checked_add(1) {
        Some(next) => Ok(next),
        None => Err(OutOfMemory),
    }
}

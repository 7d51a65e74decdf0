//! Readers of buckets.
ghost use Rattle.std.specs.Prelude.{◌≡◌};
ghost use Rattle.json_forms.specs.View.{view, items_view};
ghost use Rattle.json_forms.specs.Lists.{list_of};
ghost use Rattle.json_forms.specs.Reading.{Reads};
ghost use Rattle.json_scripts.specs.Buckets.{bucket_terms_at, buckets_at};

use json_forms::{ReadError, Value, read};
use retry_quota::BucketTerms;
use smithy_types::List;
use std::alloc::Global;

/// The terms of a bucket: its capacity, what a retry, one after throttling and one after a transient
/// error cost, its reward and its rate.
#[tactic(auto, unfolding(crate::specs::Buckets::bucket_terms_at))]
pub fn read_bucket_terms(value: &Value) -> Result<BucketTerms, ReadError>
    ensures { Reads result (bucket_terms_at (view value.now)) }
{
    let (capacity, retry, throttling, transient, reward, rate) = read::sextuple(value)?;
    let capacity = read::number(capacity)?;
    let retry_cost = read::number_32(retry)?;
    let throttling_retry_cost = read::number_32(throttling)?;
    let timeout_retry_cost = read::number_32(transient)?;
    let success_reward = read::number(reward)?;
    let refill_rate = read::number(rate)?;
    Ok(BucketTerms {
        capacity,
        retry_cost,
        throttling_retry_cost,
        timeout_retry_cost,
        success_reward,
        refill_rate,
    })
}

#[tactic(auto, using(json_forms::proofs::ReadLists::list_reading))]
fn bucket_items(alloc: Global, items: &[Value]) -> Result<List<BucketTerms>, ReadError>
    ensures { Reads result (list_of bucket_terms_at (items_view items.now)) }
{
    let mut list = List::new();
    for value in items {
        match read_bucket_terms(value) {
            Ok(terms) => list.push(alloc, terms)?,
            Err(error) => return Err(error),
        }
    }
    Ok(list)
}

/// The buckets of a script.
#[tactic(auto, unfolding(crate::specs::Buckets::buckets_at))]
pub fn read_buckets(alloc: Global, value: &Value) -> Result<List<BucketTerms>, ReadError>
    ensures { Reads result (buckets_at (view value.now)) }
{
    bucket_items(alloc, read::items(value)?)
}

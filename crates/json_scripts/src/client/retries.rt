//! Readers of how a client retries, and of its classifiers.
ghost use Rattle.std.specs.Prelude.{◌≡◌};
ghost use Rattle.json_forms.specs.View.{view, items_view};
ghost use Rattle.json_forms.specs.Lists.{list_of};
ghost use Rattle.json_forms.specs.Reading.{Reads};
ghost use Rattle.json_scripts.specs.Client.Retries.{retry_choice_at, code_at, classifier_at};
ghost use Rattle.json_scripts.specs.Client.Retries.{classifiers_at};

use crate::client::terms::{ClassifierChoice, RetryChoice};
use json_forms::forms::{read_tagged, says};
use json_forms::{ReadError, Value, read};
use json_values::setting::read_retry;
use smithy_types::List;
use std::alloc::Global;

/// How a client retries.
#[tactic(auto, unfolding(crate::specs::Client::Retries::retry_choice_at))]
pub fn read_retry_choice(value: &Value) -> Result<RetryChoice, ReadError>
    ensures { Reads result (retry_choice_at (view value.now)) }
{
    if says("never", value) {
        return Ok(RetryChoice::Never);
    }
    Ok(RetryChoice::Standard(read_retry(value)?))
}

#[tactic(auto, using(json_forms::proofs::ReadLists::list_reading))]
fn code_items(alloc: Global, items: &[Value]) -> Result<List<u16>, ReadError>
    ensures { Reads result (list_of code_at (items_view items.now)) }
{
    let mut list = List::new();
    for value in items {
        match read_code(value) {
            Ok(code) => list.push(alloc, code)?,
            Err(error) => return Err(error),
        }
    }
    Ok(list)
}

// A status.
#[tactic(auto, unfolding(crate::specs::Client::Retries::code_at))]
fn read_code(value: &Value) -> Result<u16, ReadError>
    ensures { Reads result (code_at (view value.now)) }
{
    read::number_16(value)
}

// A retry classifier.
#[tactic(auto, unfolding(crate::specs::Client::Retries::classifier_at))]
fn read_classifier(alloc: Global, value: &Value) -> Result<ClassifierChoice, ReadError>
    ensures { Reads result (classifier_at (view value.now)) }
{
    if says("modeled", value) {
        return Ok(ClassifierChoice::Modeled);
    }
    if says("transient", value) {
        return Ok(ClassifierChoice::Transient);
    }
    let codes = read_tagged("status", value)?;
    let codes = code_items(alloc, read::items(codes)?)?;
    Ok(ClassifierChoice::Status(codes))
}

#[tactic(auto, using(json_forms::proofs::ReadLists::list_reading))]
fn classifier_items(alloc: Global, items: &[Value]) -> Result<List<ClassifierChoice>, ReadError>
    ensures { Reads result (list_of classifier_at (items_view items.now)) }
{
    let mut list = List::new();
    for value in items {
        match read_classifier(alloc, value) {
            Ok(classifier) => list.push(alloc, classifier)?,
            Err(error) => return Err(error),
        }
    }
    Ok(list)
}

/// The classifiers of a client.
#[tactic(auto, unfolding(crate::specs::Client::Retries::classifiers_at))]
pub fn read_classifiers(alloc: Global, value: &Value) -> Result<List<ClassifierChoice>, ReadError>
    ensures { Reads result (classifiers_at (view value.now)) }
{
    classifier_items(alloc, read::items(value)?)
}

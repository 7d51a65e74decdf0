//! Readers of the sources of identities.
ghost use Rattle.std.specs.Prelude.{◌≡◌};
ghost use Rattle.json_forms.specs.View.{view, items_view};
ghost use Rattle.json_forms.specs.Lists.{list_of};
ghost use Rattle.json_forms.specs.Reading.{Reads};
ghost use Rattle.json_scripts.specs.Records.Identities.{failed_identity_at, loaded_at};
ghost use Rattle.json_scripts.specs.Records.Identities.{identity_answer_at, identity_record_at};
ghost use Rattle.json_scripts.specs.Records.Identities.{sources_at};

use json_forms::forms::read_word;
use json_forms::{ReadError, Value, read};
use json_values::http::read_identity;
use outside_scripted::{IdentityAnswer, IdentityRecord};
use smithy_types::List;
use std::alloc::Global;

// A load that fails, with its text.
#[tactic(auto, unfolding(crate::specs::Records::Identities::failed_identity_at))]
fn read_failed_identity(alloc: Global, value: &Value) -> Result<IdentityAnswer, ReadError>
    ensures { Reads result (failed_identity_at (view value.now)) }
{
    let (tag, text) = read::pair(value)?;
    read_word("Failed", tag)?;
    let text = read::text(alloc, text)?;
    Ok(IdentityAnswer::Failed(text))
}

// A load that gives an identity.
#[tactic(auto, unfolding(crate::specs::Records::Identities::loaded_at))]
fn read_loaded(alloc: Global, value: &Value) -> Result<IdentityAnswer, ReadError>
    ensures { Reads result (loaded_at (view value.now)) }
{
    let identity = read_identity(alloc, value)?;
    Ok(IdentityAnswer::Identity(identity))
}

// What each load comes to.
#[tactic(auto, unfolding(crate::specs::Records::Identities::identity_answer_at))]
fn read_identity_answer(alloc: Global, value: &Value) -> Result<IdentityAnswer, ReadError>
    ensures { Reads result (identity_answer_at (view value.now)) }
{
    match read_failed_identity(alloc, value) {
        Ok(answer) => Ok(answer),
        Err(ReadError::Memory) => Err(ReadError::Memory),
        Err(ReadError::Refused) => read_loaded(alloc, value),
    }
}

// A source of identities.
#[tactic(auto, unfolding(crate::specs::Records::Identities::identity_record_at))]
fn read_identity_record(alloc: Global, value: &Value) -> Result<IdentityRecord, ReadError>
    ensures { Reads result (identity_record_at (view value.now)) }
{
    let (id, delay, answer) = read::triple(value)?;
    let delay = read::number(delay)?;
    let id = read::text(alloc, id)?;
    let answer = read_identity_answer(alloc, answer)?;
    Ok(IdentityRecord { id, delay, answer })
}

#[tactic(auto, using(json_forms::proofs::ReadLists::list_reading))]
fn source_items(alloc: Global, items: &[Value]) -> Result<List<IdentityRecord>, ReadError>
    ensures { Reads result (list_of identity_record_at (items_view items.now)) }
{
    let mut list = List::new();
    for value in items {
        match read_identity_record(alloc, value) {
            Ok(read) => list.push(alloc, read)?,
            Err(error) => return Err(error),
        }
    }
    Ok(list)
}

/// The sources of a client's identities.
#[tactic(auto, unfolding(crate::specs::Records::Identities::sources_at))]
pub fn read_sources(alloc: Global, value: &Value) -> Result<List<IdentityRecord>, ReadError>
    ensures { Reads result (sources_at (view value.now)) }
{
    source_items(alloc, read::items(value)?)
}

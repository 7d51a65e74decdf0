//! The reader of the words that an outside draws.
ghost use Rattle.std.specs.Prelude.{◌≡◌};
ghost use Rattle.json_forms.specs.View.{view, items_view};
ghost use Rattle.json_forms.specs.Lists.{list_of};
ghost use Rattle.json_forms.specs.Plain.{number_at};
ghost use Rattle.json_forms.specs.Reading.{Reads};
ghost use Rattle.json_scripts.specs.Words.{words_at};

use json_forms::{ReadError, Value, read};
use smithy_types::List;
use std::alloc::Global;

/// The words that an outside draws.
#[tactic(auto, unfolding(crate::specs::Words::words_at))]
pub fn read_words(alloc: Global, value: &Value) -> Result<List<u64>, ReadError>
    ensures { Reads result (words_at (view value.now)) }
{
    word_items(alloc, read::items(value)?)
}

#[tactic(auto, using(json_forms::proofs::ReadLists::list_reading))]
fn word_items(alloc: Global, items: &[Value]) -> Result<List<u64>, ReadError>
    ensures { Reads result (list_of number_at (items_view items.now)) }
{
    let mut list = List::new();
    for value in items {
        match read::number(value) {
            Ok(word) => list.push(alloc, word)?,
            Err(error) => return Err(error),
        }
    }
    Ok(list)
}

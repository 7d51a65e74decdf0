//! The nearest of some names.

use crate::finder::Finder;
use smithy_types::OutOfMemory;
use std::alloc::Global;
use strsim::levenshtein;

/// The most bytes of a name that others are compared with.
const NAME_LIMIT: usize = 64;

/// The name with the fewest changes from the word, the first of several; none where the word is
/// long, or more than half of it is to be changed.
pub fn nearest<'n>(
    alloc: Global,
    names: &[&'n str],
    word: &str,
) -> Result<Option<&'n str>, OutOfMemory> {
    let mut found = None;
    if word.len() > NAME_LIMIT {
        return Ok(found);
    }
    let mut least = word.len() / 2 + 1;
    for name in names {
        let changes = levenshtein(alloc, word, *name)?;
        if changes < least {
            least = changes;
            found = Some(*name);
        }
    }
    Ok(found)
}

/// Tells the nearest of these names behind the reason, where one is near.
pub fn hint_at(finder: &mut Finder, names: &[&str], word: &str) -> Result<(), OutOfMemory> {
    if let Some(name) = nearest(finder.alloc, names, word)? {
        finder.hint.push_str("; did you mean \"")?;
        finder.hint.push_str(name)?;
        finder.hint.push_str("\"?")?;
    }
    Ok(())
}

/// The names, each in quotes, with commas.
pub fn listed(alloc: Global, names: &[&str]) -> Result<String, OutOfMemory> {
    let mut text = String::new(alloc);
    for name in names {
        if !text.is_empty() {
            text.push_str(", ")?;
        }
        text.push_str("\"")?;
        text.push_str(*name)?;
        text.push_str("\"")?;
    }
    Ok(text)
}

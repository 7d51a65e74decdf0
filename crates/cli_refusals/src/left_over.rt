//! What is said of answers that were left over of a script.

use cli_replay::left_over::LeftOver;
use json_values::names::kind_title;
use smithy_types::OutOfMemory;
use std::alloc::Global;

/// Which question was answered Absent though the script had answers left, and which answer was next.
/// None where no question was.
pub fn missed_line(alloc: Global, left: LeftOver) -> Result<Option<String>, OutOfMemory> {
    let Some(missed) = left.missed else {
        return Ok(None);
    };
    let first = left.first;
    let next = kind_title(left.kind);
    let number = missed.number;
    let kind = kind_title(missed.kind);
    let line = format!(in alloc;
        "replay script: answers[{first}]: an answer to \"{next}\", where entry {number}, \"{kind}\", was answered \"Absent\""
    )?;
    Ok(Some(line))
}

/// How many answers a run left over of its script, and from which on.
pub fn left_over_line(alloc: Global, left: LeftOver) -> Result<String, OutOfMemory> {
    let first = left.first;
    let count = left.count;
    let rest = count.saturating_sub(first);
    Ok(format!(in alloc;
        "replay script: answers[{first}]: from here on, {rest} of {count} answers were left over"
    )?)
}

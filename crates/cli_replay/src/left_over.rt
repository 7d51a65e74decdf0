//! What a run left over of its script's answers.
ghost use Rattle.std.specs.Prelude.{◌≡◌, ◌<◌, length, drop, IfSome};
ghost use Rattle.cli_replay.specs.LeftOver.{IsMissed, first_absent, is_absent};

use run_grammar::{Answer, Entry, Kind};

/// The answers of a script that were left over when its run ended.
#[derive(Clone, Copy, Debug, PartialEq, Eq)]
pub struct LeftOver {
    /// The place of the first of them among the script's answers, from 0 on. All before it were
    /// taken.
    pub first: usize,
    /// How many answers the script has.
    pub count: usize,
    /// The kind of question that the first of them is for.
    pub kind: Kind,
    /// The first question that was answered Absent behind the last answer that was taken.
    pub missed: Option<Missed>,
}

/// A question that was answered Absent though the script had answers left.
#[derive(Clone, Copy, Debug, PartialEq, Eq)]
pub struct Missed {
    /// The number of its entry, from 1 on.
    pub number: usize,
    /// Its kind.
    pub kind: Kind,
}

/// The first question that was answered Absent of those behind this many entries. None where none
/// was.
pub fn missed_in(entries: &[Entry], until: usize) -> Option<Missed>
    ensures { IsMissed until (drop until entries.now) result }
{
    let behind = entries.get(until..)?;
    let place = first_absent(behind)?;
    Some(Missed {
        number: until + place + 1,
        kind: behind[place].question.kind(),
    })
}

// The place of the first entry whose question was answered Absent.
fn first_absent(entries: &[Entry]) -> Option<usize>
    ensures place { result ≡ first_absent entries.now }
    ensures bound { IfSome result (λ i. i < length entries.now) }
{
    entries.iter().position(|entry| is_absent(&entry.answer))
}

fn is_absent(answer: &Answer) -> bool
    ensures { result ≡ is_absent answer.now }
{
    matches!(answer, Answer::Absent)
}

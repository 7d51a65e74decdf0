//! Whether a text is the print of a whole run.
ghost use Rattle.std.specs.Prelude.{◌≡◌, ◌↔◌, true, IfOk};
ghost use Rattle.run_grammar.specs.Standing.{starting};
ghost use Rattle.json_print.specs.Print.{run_text};
ghost use Rattle.runcheck.specs.Follow.{log_of};
ghost use Rattle.runcheck.specs.Reach.{IsPrintOf, Reach, whole_ending};
ghost use Rattle.runcheck.specs.declared.judge.Verdict.TheVariants.{Yes};

use crate::ending::whole_ending;
use crate::follow::{Followed, follow};
use crate::told::{Told, read_told};
use json_forms::ReadError;
use json_print::RunHead;
use json_print::print::print_run;
use smithy_types::OutOfMemory;
use std::alloc::Global;

/// What is said of a text.
#[derive(Clone, Copy, Debug, PartialEq, Eq)]
pub enum Verdict {
    /// It is the print of a whole run and of its answer.
    Yes,
    /// It is not.
    No,
}

/// Whether the text is, byte for byte, the print of a whole run of at most its printed fuel and of
/// that run's answer.
pub fn check(alloc: Global, text: &[u8]) -> Result<Verdict, OutOfMemory>
    ensures { IfOk result (λ v. (v ≡ Yes) ↔ Reach text.now) }
{
    match read_told(alloc, text) {
        Ok(told) => {
            let said = judge_told(alloc, told, text)?;
            Ok(said)
        }
        Err(ReadError::Refused) => Ok(Verdict::No),
        Err(ReadError::Memory) => Err(OutOfMemory),
    }
}

// Whether the text is the print of the run that was told.
fn judge_told(alloc: Global, told: Told, text: &[u8]) -> Result<Verdict, OutOfMemory>
    ensures { IfOk result (λ v. (v ≡ Yes) ↔ IsPrintOf told.head (log_of
        (starting told.head.input) told.calls) text.now) }
{
    let Told { head, calls } = told;
    if calls.len() as u64 > head.fuel {
        return Ok(Verdict::No);
    }
    let input = head.input.clone()?;
    match follow(alloc, head.stop, input, calls.as_slice())? {
        Some(followed) => {
            let said = compare(alloc, &head, followed, text)?;
            Ok(said)
        }
        None => Ok(Verdict::No),
    }
}

// Whether the text is the print of the run that was followed.
fn compare(
    alloc: Global,
    head: &RunHead,
    followed: Followed,
    text: &[u8],
) -> Result<Verdict, OutOfMemory>
    ensures { IfOk result (λ v. (v ≡ Yes) ↔ (text.now ≡ run_text head.now followed.entries.items
        (whole_ending head.now followed.standing.context))) }
{
    let Followed { entries, standing } = followed;
    let ending = whole_ending(head, standing.into_context())?;
    let printed = print_run(alloc, head, entries.as_slice(), &ending)?;
    Ok(verdict_of(printed.as_slice() == text))
}

fn verdict_of(same: bool) -> Verdict
    ensures { (result ≡ Yes) ↔ (same ≡ true) }
{
    if same { Verdict::Yes } else { Verdict::No }
}

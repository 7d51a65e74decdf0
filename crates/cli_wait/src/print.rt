//! The print of a waiter.
ghost use Rattle.std.specs.Prelude.{◌≡◌, ◌++◌, IfOk, OnOk};
ghost use Rattle.json_forms.specs.JsonData.{data_of};
ghost use Rattle.cli_wait.specs.Print.{ending_data, exceeded_data, note_data};
ghost use Rattle.cli_wait.specs.Print.{notes_text, wait_text, word_data};

use crate::Note;
use crate::ending::WaitEnding;
use json_forms::{Json, Row};
use json_values::http::print_payload;
use smithy_types::OutOfMemory;
use std::alloc::Global;

/// The whole print: a line for each note, and the ending.
#[tactic(auto, unfolding(crate::specs::Print::wait_text))]
pub fn print_wait(
    alloc: Global,
    notes: &[Note],
    ending: &WaitEnding,
) -> Result<Vec<u8>, OutOfMemory>
    ensures { IfOk result (λ v. v.items ≡ wait_text notes.now ending.now) }
{
    let mut out = Vec::new(alloc);
    print_notes(alloc, notes, &mut out)?;
    print_ending(alloc, ending)?.write_line(alloc, &mut out)?;
    Ok(out)
}

// The lines of the notes.
fn print_notes(alloc: Global, notes: &[Note], out: &mut Vec<u8>) -> Result<(), OutOfMemory>
    ensures { OnOk result (out.new.items ≡ out.old.items ++ notes_text notes.now) }
{
    for note in notes {
        print_note(alloc, *note)?.write_line(alloc, out)?;
    }
    Ok(())
}

// A poll with its number and moment, or a sleep with its nanoseconds.
#[tactic(auto, unfolding(crate::specs::Print::note_data))]
fn print_note(alloc: Global, note: Note) -> Result<Json, OutOfMemory>
    ensures { IfOk result (λ j. data_of j ≡ note_data note) }
{
    match note {
        Note::Poll { number, moment } => {
            let word = Json::text(alloc, "poll")?;
            Json::triple(
                alloc,
                word,
                Json::number(number as u64),
                Json::number(moment),
            )
        }
        Note::Sleep { nanos } => Json::tagged(alloc, "sleep", Json::number(nanos)),
    }
}

// The ending.
#[tactic(auto, unfolding(crate::specs::Print::ending_data))]
fn print_ending(alloc: Global, ending: &WaitEnding) -> Result<Json, OutOfMemory>
    ensures { IfOk result (λ j. data_of j ≡ ending_data ending.now) }
{
    match ending {
        WaitEnding::Output(payload) => Json::tagged(alloc, "Ok", print_payload(alloc, payload)?),
        WaitEnding::Service(payload) => {
            Json::tagged(alloc, "Service", print_payload(alloc, payload)?)
        }
        WaitEnding::OperationFailed => print_word(alloc, "OperationFailed"),
        WaitEnding::FailureState => print_word(alloc, "FailureState"),
        WaitEnding::ExceededMaxWait {
            max_wait,
            elapsed,
            poll_count,
        } => print_exceeded(alloc, *max_wait, *elapsed, *poll_count),
        WaitEnding::Unfinished => print_word(alloc, "Unfinished"),
    }
}

// A word alone.
fn print_word(alloc: Global, word: &str) -> Result<Json, OutOfMemory>
    ensures { IfOk result (λ j. data_of j ≡ word_data word.now) }
{
    Json::single(alloc, Json::text(alloc, word)?)
}

// The longest wait, what elapsed, and how many polls were answered.
fn print_exceeded(
    alloc: Global,
    max_wait: u64,
    elapsed: u64,
    poll_count: u32,
) -> Result<Json, OutOfMemory>
    ensures { IfOk result (λ j. data_of j ≡ exceeded_data max_wait elapsed poll_count) }
{
    let mut row = Row::new(alloc);
    row.push(Json::text(alloc, "ExceededMaxWait")?)?;
    row.push(Json::number(max_wait))?;
    row.push(Json::number(elapsed))?;
    row.push(Json::number(poll_count as u64))?;
    Ok(row.finish())
}

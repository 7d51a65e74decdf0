//! The print of a run.
ghost use Rattle.std.specs.Prelude.{◌≡◌, ◌≤◌, ◌+◌, ◌++◌, true, IfOk, IfSome, IsUtf8, OnOk};
ghost use Rattle.std.specs.Prelude.{option_copied};
ghost use Rattle.serde_json.specs.Data.{depth};
ghost use Rattle.serde_json.specs.Read.{max_depth};
ghost use Rattle.json_forms.specs.Lines.{are_readable, is_readable};
ghost use Rattle.json_forms.specs.JsonData.{data_of};
ghost use Rattle.json_print.specs.Plain.{IsPlain};
ghost use Rattle.json_print.specs.Print.{line, begin_data, transmitted, ending_data, entry_data};
ghost use Rattle.json_print.specs.Print.{entries_data, entries_text, run_data, run_text};
ghost use Rattle.json_print.specs.Written.{IsWritten};

use crate::answer::write_answer;
use crate::ending::{Ending, print_ending};
use crate::forms::{write_number, write_word};
use crate::head::RunHead;
use crate::parts::write_request;
use crate::plain::{word_of, write_words};
use json_forms::{Json, Row};
use json_values::http::print_payload;
use json_values::names::{kind_title, stop_name};
use run_grammar::{Answer, Entry, Question};
use smithy_types::{HttpRequest, OutOfMemory, Shared};
use std::alloc::Global;

/// The whole print: what it was begun with, the entries numbered from 1, and the ending. Each line
/// is data that JSON carries, so it is read as that data, and the print is of characters.
#[tactic(auto, unfolding(crate::specs::Print::run_text), using(crate::proofs::Readable::run_readable, crate::proofs::Readable::run_of_characters))]
pub fn print_run(
    alloc: Global,
    head: &RunHead,
    entries: &[Entry],
    ending: &Ending,
) -> Result<Vec<u8>, OutOfMemory>
    ensures text { IfOk result (λ v. v.items ≡ run_text head.now entries.now ending.now) }
    ensures readable { IfOk result
        (λ v. are_readable (run_data head.now entries.now ending.now) ≡ true) }
    ensures characters { IfOk result (λ v. IsUtf8 (run_text head.now entries.now ending.now)) }
{
    let mut out = Vec::new(alloc);
    write_begin(alloc, head, &mut out)?;
    print_entries(alloc, entries, &mut out)?;
    write_ending(alloc, ending, &mut out)?;
    Ok(out)
}

// Writes a line. It is read as what it was written for, where that nests no deeper than a reader
// goes.
#[tactic(auto, using(crate::proofs::Readable::line_readable, crate::proofs::Readable::line_of_characters))]
fn write(alloc: Global, json: &Json, out: &mut Vec<u8>) -> Result<(), OutOfMemory>
    ensures text { OnOk result (out.new.items ≡ out.old.items ++ line (data_of json.now)) }
    ensures readable { OnOk result
        (depth (data_of json.now) ≤ max_depth → is_readable (data_of json.now) ≡ true) }
    ensures characters { OnOk result (IsUtf8 (line (data_of json.now))) }
{
    json.write_line(alloc, out)?;
    Ok(())
}

fn write_begin(alloc: Global, head: &RunHead, out: &mut Vec<u8>) -> Result<(), OutOfMemory>
    ensures text { OnOk result (out.new.items ≡ out.old.items ++ line (begin_data head.now)) }
    ensures readable { OnOk result (is_readable (begin_data head.now) ≡ true) }
    ensures characters { OnOk result (IsUtf8 (line (begin_data head.now))) }
{
    let json = print_begin(alloc, head)?;
    write(alloc, &json, out)?;
    Ok(())
}

fn write_ending(alloc: Global, ending: &Ending, out: &mut Vec<u8>) -> Result<(), OutOfMemory>
    ensures text { OnOk result (out.new.items ≡ out.old.items ++ line (ending_data ending.now)) }
    ensures readable { OnOk result (is_readable (ending_data ending.now) ≡ true) }
    ensures characters { OnOk result (IsUtf8 (line (ending_data ending.now))) }
{
    let json = print_ending(alloc, ending)?;
    write(alloc, &json, out)?;
    Ok(())
}

// The first line.
#[tactic(auto, unfolding(crate::specs::Print::begin_data))]
fn print_begin(alloc: Global, head: &RunHead) -> Result<Json, OutOfMemory>
    ensures { IfOk result (λ j. data_of j ≡ begin_data head.now) }
{
    let mut row = Row::new(alloc);
    row.push(Json::text(alloc, "begin")?)?;
    row.push(print_payload(alloc, &head.input)?)?;
    row.push(Json::text(alloc, stop_name(head.stop))?)?;
    row.push(Json::number(head.output_kind))?;
    row.push(Json::number(head.error_kind))?;
    row.push(Json::number(head.fuel))?;
    Ok(row.finish())
}

/// The lines of the entries, numbered from 1.
pub fn print_entries(alloc: Global, entries: &[Entry], out: &mut Vec<u8>) -> Result<(), OutOfMemory>
    ensures text { OnOk result (out.new.items ≡ out.old.items ++ entries_text 1 entries.now) }
    ensures readable { OnOk result (are_readable (entries_data 1 entries.now) ≡ true) }
    ensures characters { OnOk result (IsUtf8 (entries_text 1 entries.now)) }
{
    let mut number = 1;
    for entry in entries {
        write_entry(alloc, number, entry, out)?;
        number = next_number(number)?;
    }
    Ok(())
}

// Writes the line of an entry.
#[tactic(auto, using(crate::proofs::PlainLines::plain_readable))]
fn write_entry(
    alloc: Global,
    number: u64,
    entry: &Entry,
    out: &mut Vec<u8>,
) -> Result<(), OutOfMemory>
    ensures text { OnOk result (out.new.items ≡ out.old.items
        ++ line (entry_data number entry.now)) }
    ensures readable { OnOk result (is_readable (entry_data number entry.now) ≡ true) }
    ensures characters { OnOk result (IsUtf8 (line (entry_data number entry.now))) }
{
    match plain_word(entry) {
        Some(word) => {
            write_words(number, entry.question.kind(), word, out)?;
            Ok(())
        }
        None => write_parts(alloc, number, entry, out),
    }
}

// The word that the answer is printed as, where no request is shown.
fn plain_word(entry: &Entry) -> Option<&'static str>
    ensures { IfSome result (λ w. IsPlain entry.now w.now) }
{
    match transmitted(&entry.question, &entry.answer) {
        Some(_) => None,
        None => word_of(&entry.answer),
    }
}

// Writes the line of an entry part by part.
fn write_parts(
    alloc: Global,
    number: u64,
    entry: &Entry,
    out: &mut Vec<u8>,
) -> Result<(), OutOfMemory>
    ensures text { OnOk result (out.new.items ≡ out.old.items
        ++ line (entry_data number entry.now)) }
    ensures readable { OnOk result (is_readable (entry_data number entry.now) ≡ true) }
    ensures characters { OnOk result (IsUtf8 (line (entry_data number entry.now))) }
{
    write_entry_row(alloc, number, entry, out)?;
    out.push(b'\n')?;
    Ok(())
}

// Writes an entry with its number, and the request of a transmission.
#[tactic(auto, unfolding(crate::specs::Print::entry_data, json_values::specs::Values::kind_data))]
fn write_entry_row(
    alloc: Global,
    number: u64,
    entry: &Entry,
    out: &mut Vec<u8>,
) -> Result<(), OutOfMemory>
    ensures { OnOk result (IsWritten (entry_data number entry.now) out.old.items out.new.items) }
{
    out.push(b'[')?;
    write_number(number, out)?;
    out.push(b',')?;
    write_word(kind_title(entry.question.kind()), out)?;
    out.push(b',')?;
    write_answer(alloc, &entry.answer, out)?;
    if let Some(request) = transmitted(&entry.question, &entry.answer) {
        out.push(b',')?;
        write_request(alloc, request, out)?;
    }
    out.push(b']')?;
    Ok(())
}

/// The number behind this one. There is none behind the last of a u64, for which no memory could
/// hold entries or invocations.
pub fn next_number(number: u64) -> Result<u64, OutOfMemory>
    ensures { IfOk result (λ n. n ≡ number + 1) }
{
    match number.checked_add(1) {
        Some(next) => Ok(next),
        None => Err(OutOfMemory),
    }
}

// The request that a transmission was handed, once it isn't pending.
fn transmitted<'e>(question: &'e Question, answer: &Answer) -> Option<&'e HttpRequest>
    ensures { option_copied result ≡ transmitted question.now answer.now }
{
    match (question, answer) {
        (Question::Transmit { .. }, Answer::Pending) => None,
        (Question::Transmit { request, .. }, _) => shown(request),
        _ => None,
    }
}

// The request behind a handle.
fn shown(request: &Option<Shared<HttpRequest>>) -> Option<&HttpRequest>
    ensures { option_copied result ≡ request.now }
{
    match request {
        Some(request) => Some(request.get()),
        None => None,
    }
}

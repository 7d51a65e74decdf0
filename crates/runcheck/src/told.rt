//! What the lines of a text tell: what a run was begun with, and its calls.
ghost use Rattle.std.specs.Prelude.{◌≡◌, IfOk, IsErrOf, Some, map};
ghost use Rattle.std.specs.Prelude.{option_and_then, option_map, true};
ghost use Rattle.serde_json.specs.Read.{read};
ghost use Rattle.serde_json.specs.View.{items_of};
ghost use Rattle.json_forms.specs.Lines.{each_read};
ghost use Rattle.json_forms.specs.Lists.{list_of};
ghost use Rattle.json_forms.specs.Reading.{Gives, Reads};
ghost use Rattle.json_forms.specs.View.{items_view, view};
ghost use Rattle.runcheck.specs.Told.{IsTold, call_at, head_at, stop_at};
ghost use Rattle.runcheck.specs.Told.{told_at, told_by, told_parts};

use crate::failing::read_told_answer;
use json_forms::forms::read_word;
use json_forms::lines::lines_of;
use json_forms::read::Item;
use json_forms::{Arena, ReadError, Value, read};
use json_print::RunHead;
use json_values::answer::read_kind;
use json_values::http::read_payload;
use json_values::names::stop_named;
use run_grammar::{Answer, Kind, StopPoint};
use smithy_types::List;
use std::alloc::Global;

/// A call, as its line tells it.
#[derive(Drop)]
pub struct Call {
    /// The kind of its question.
    pub kind: Kind,
    /// What was answered.
    pub answer: Answer,
}

/// What a text tells of a run.
#[derive(Drop)]
pub struct Told {
    /// What the run is begun with.
    pub head: RunHead,
    /// Its calls, in order.
    pub calls: List<Call>,
}

/// What the text tells of a run: its first line, and the lines between it and the last.
pub fn read_told(alloc: Global, text: &[u8]) -> Result<Told, ReadError>
    ensures found { IfOk result (λ t. IsTold text.now t) }
    ensures refused { IsErrOf result ReadError.Refused → (t : Told) → IsTold text.now t → ⊥ }
{
    match str::from_utf8(text) {
        Ok(text) => told_of(alloc, text),
        Err(_) => Err(ReadError::Refused),
    }
}

fn told_of(alloc: Global, text: &str) -> Result<Told, ReadError>
    ensures { Reads result (told_by text.now) }
{
    let lines = lines_of(alloc, text)?;
    told_in(alloc, lines.as_slice())
}

// What the lines tell.
fn told_in(alloc: Global, lines: &[&str]) -> Result<Told, ReadError>
    ensures { Reads result (option_and_then told_at
        (each_read (map read (map (λ l. l.now) lines.now)))) }
{
    match lines {
        [first, between @ .., last] => told_among(alloc, *first, between, *last),
        _ => Err(ReadError::Refused),
    }
}

// What these lines tell. The last one is read only as JSON.
fn told_among(alloc: Global, first: &str, between: &[&str], last: &str) -> Result<Told, ReadError>
    ensures { Reads result (option_and_then (λ h. option_and_then (λ cs.
        option_and_then (λ b. Some (record { head = h; calls = cs }))
        (option_map (λ d. true) (read last.now)))
        (option_and_then (λ ds. list_of call_at (items_of ds))
        (each_read (map read (map (λ l. l.now) between.now)))))
        (option_and_then head_at (read first.now))) }
{
    let head = line_head(alloc, first)?;
    let calls = line_calls(alloc, between)?;
    check_json(alloc, last)?;
    Ok(Told { head, calls })
}

/// Refuses a line that isn't JSON.
pub fn check_json(alloc: Global, line: &str) -> Result<(), ReadError>
    ensures { Gives (λ _. true) result (option_map (λ d. true) (read line.now)) }
{
    let mut arena = Arena::new(alloc);
    arena.read_text(line)?;
    Ok(())
}

// What the first line tells.
fn line_head(alloc: Global, line: &str) -> Result<RunHead, ReadError>
    ensures { Reads result (option_and_then head_at (read line.now)) }
{
    let mut arena = Arena::new(alloc);
    read_head(alloc, &arena.read_text(line)?)
}

// The calls of these lines, in order.
#[tactic(auto, using(crate::proofs::LineByLine::line_reading))]
fn line_calls(alloc: Global, lines: &[&str]) -> Result<List<Call>, ReadError>
    ensures { Reads result (option_and_then (λ ds. list_of call_at (items_of ds))
        (each_read (map read (map (λ l. l.now) lines.now)))) }
{
    let mut calls = List::new();
    let mut arena = Arena::new(alloc);
    for line in lines {
        match line_call(alloc, &mut arena, *line) {
            Ok(call) => calls.push(alloc, call)?,
            Err(error) => return Err(error),
        }
    }
    Ok(calls)
}

// The call of a line.
fn line_call(alloc: Global, arena: &mut Arena, line: &str) -> Result<Call, ReadError>
    ensures { Reads result (option_and_then call_at (read line.now)) }
{
    read_call(alloc, &arena.read_text(line)?)
}

/// What a run is begun with.
#[tactic(auto, unfolding(crate::specs::Told::head_at))]
pub fn read_head(alloc: Global, value: &Value) -> Result<RunHead, ReadError>
    ensures { Reads result (head_at (view value.now)) }
{
    let (tag, input, stop, output_kind, error_kind, fuel) = read::sextuple(value)?;
    read_word("begin", tag)?;
    let input = read_payload(alloc, input)?;
    let stop = read_stop(stop)?;
    let output_kind = read::number(output_kind)?;
    let error_kind = read::number(error_kind)?;
    let fuel = read::number(fuel)?;
    Ok(RunHead {
        input,
        fuel,
        stop,
        output_kind,
        error_kind,
    })
}

#[tactic(auto, unfolding(crate::specs::Told::stop_at))]
fn read_stop(value: &Value) -> Result<StopPoint, ReadError>
    ensures { Reads result (stop_at (view value.now)) }
{
    match stop_named(read::str(value)?) {
        Some(stop) => Ok(stop),
        None => Err(ReadError::Refused),
    }
}

// The call of a line. Its number and the request that was handed on are not read.
#[tactic(auto, unfolding(crate::specs::Told::call_at))]
fn read_call(alloc: Global, value: &Value) -> Result<Call, ReadError>
    ensures { Reads result (call_at (view value.now)) }
{
    let (kind, answer) = told_parts(read::items(value)?)?;
    let kind = read_kind(kind)?;
    let answer = read_told_answer(alloc, kind, answer)?;
    Ok(Call { kind, answer })
}

#[tactic(auto, unfolding(json_forms::specs::View::view, json_forms::specs::View::items_view))]
fn told_parts<'v, 't>(items: &'v [Value<'t>]) -> Result<(Item<'v, 't>, Item<'v, 't>), ReadError>
    ensures { Gives (λ p. (view p.0.now, view p.1.now)) result (told_parts (items_view items.now)) }
{
    match items {
        [_, kind, answer, ..] => Ok((kind, answer)),
        _ => Err(ReadError::Refused),
    }
}

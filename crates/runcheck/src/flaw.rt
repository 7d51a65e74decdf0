//! Why a text isn't the print of a whole run: its first line that is wrong, and what is wrong there.
ghost use Rattle.std.specs.Prelude.{◌≡◌, ◌≤◌, ◌↔◌, None, length, IfOk, IfSome, IsUtf8};
ghost use Rattle.std.specs.Str.Lines.{lines};
ghost use Rattle.runcheck.specs.Reach.{Reach};

use crate::ending::whole_ending;
use crate::failing::read_told_answer;
use crate::follow::take;
use crate::judge::{Verdict, check};
use crate::reading::grammar::run;
use crate::reading::production::Production;
use crate::reading::walk::{Seen, Walk};
use crate::told::{Call, check_json, read_head};
use json_forms::lines::lines_of;
use json_forms::read::Item;
use json_forms::{Arena, ReadError, Value, read};
use json_print::print::{print_entries, print_run};
use json_print::{Ending, RunHead};
use json_values::answer::read_kind;
use json_values::names::kind_title;
use run_grammar::{Entry, Kind, Standing};
use smithy_types::OutOfMemory;
use std::alloc::{AllocError, AllocFailed, Global};
use std::fmt;

/// Why a text isn't the print of a whole run.
#[derive(Drop)]
pub struct Flaw {
    /// How many lines stand before the one that is wrong. Of an entry it is its number.
    pub line: usize,
    /// What is wrong there.
    pub cause: Cause,
}

/// What is wrong in a line of a text that isn't a print.
#[derive(Drop)]
pub enum Cause {
    /// It isn't UTF-8.
    NotUtf8,
    /// It isn't JSON.
    NotJson,
    /// It is missing: a print has a first and a last line.
    Missing,
    /// It isn't what a run is begun with.
    NotBegin,
    /// It isn't the last line, and the run is over before it.
    Over,
    /// The run's fuel, which is this much, is used up before it.
    Fuel(u64),
    /// It isn't an entry: a number, a kind and an answer.
    NotEntry,
    /// The entry hasn't its number, which is this.
    Number(u64),
    /// No kind of question has its name.
    NoKind,
    /// The question isn't of the kind that is asked next.
    NotNext {
        /// The question's kind.
        kind: Kind,
        /// The kind that is asked next.
        next: Kind,
    },
    /// Its answer is none to a question of this kind.
    NoAnswer(Kind),
    /// It prints so.
    PrintsAs(String),
    /// It is the last line, and a question of this kind is asked before it.
    Unfinished(Kind),
    /// The run's answer, which is the last line, prints so.
    EndsAs(String),
    /// It doesn't end with a line feed alone.
    LineEnd,
}

impl fmt::Display for Cause {
    fn fmt<W: fmt::Write>(&self, f: &mut fmt::Formatter<W>) -> fmt::Result {
        match self {
            Cause::NotUtf8 => write!(f, "not UTF-8"),
            Cause::NotJson => write!(f, "not JSON"),
            Cause::Missing => write!(
                f,
                "a print has a first and a last line, and this one is missing"
            ),
            Cause::NotBegin => write!(
                f,
                "expected [\"begin\", input, stop, output_kind, error_kind, fuel]"
            ),
            Cause::Over => write!(
                f,
                "the run is over here, so its answer must be the last line"
            ),
            Cause::Fuel(fuel) => write!(f, "the fuel of {fuel} is used up before this entry"),
            Cause::NotEntry => write!(f, "expected an entry: [number, kind, answer]"),
            Cause::Number(number) => write!(f, "expected the number {number} of this entry"),
            Cause::NoKind => write!(f, "no such kind of question"),
            Cause::NotNext { kind, next } => write_not_next(f, *kind, *next),
            Cause::NoAnswer(kind) => write_of_kind(f, "no answer to", *kind),
            Cause::PrintsAs(_) => write!(f, "the line prints otherwise"),
            Cause::Unfinished(kind) => write_of_kind(f, "the run isn't over: next comes", *kind),
            Cause::EndsAs(_) => write!(f, "the run's answer is another"),
            Cause::LineEnd => write!(f, "the line doesn't end with a line feed alone"),
        }
    }
}

// Words before the name of a kind.
fn write_of_kind<W: fmt::Write>(f: &mut fmt::Formatter<W>, front: &str, kind: Kind) -> fmt::Result {
    let kind = kind_title(kind);
    write!(f, "{front} \"{kind}\"")
}

fn write_not_next<W: fmt::Write>(f: &mut fmt::Formatter<W>, kind: Kind, next: Kind) -> fmt::Result {
    let kind = kind_title(kind);
    let next = kind_title(next);
    write!(f, "\"{kind}\" isn't the next question: \"{next}\" is")
}

/// Why the text isn't the print of a whole run: its first line that is wrong. None exactly where it
/// is one.
pub fn flaw_of(alloc: Global, text: &[u8]) -> Result<Option<Flaw>, OutOfMemory>
    ensures none { IfOk result (λ o. (o ≡ None) ↔ Reach text.now) }
    ensures line { IfOk result
        (λ o. IfSome o (λ f. IsUtf8 text.now → f.line ≤ length (lines text.now))) }
{
    match check(alloc, text)? {
        Verdict::Yes => Ok(None),
        Verdict::No => {
            let flaw = first_flaw(alloc, text)?;
            Ok(Some(flaw))
        }
    }
}

// The first line that is wrong of a text that isn't a print.
fn first_flaw(alloc: Global, text: &[u8]) -> Result<Flaw, OutOfMemory>
    ensures { IfOk result (λ f. IsUtf8 text.now → f.line ≤ length (lines text.now)) }
{
    match str::from_utf8(text) {
        Ok(text) => flaw_of_text(alloc, text),
        Err(error) => Ok(Flaw {
            line: line_feeds(text, error.valid_up_to()),
            cause: Cause::NotUtf8,
        }),
    }
}

// How many line feeds stand before this byte.
fn line_feeds(text: &[u8], end: usize) -> usize {
    text.iter().take(end).filter(|byte| **byte == b'\n').count()
}

// The same of UTF-8.
fn flaw_of_text(alloc: Global, text: &str) -> Result<Flaw, OutOfMemory>
    ensures { IfOk result (λ f. f.line ≤ length (lines text.now)) }
{
    let lines = lines_of(alloc, text)?;
    let (line, cause) = flaw_in_lines(alloc, text.as_bytes(), lines.as_slice())?;
    Ok(Flaw {
        line: line.min(lines.len()),
        cause,
    })
}

// The same of these lines of the text.
fn flaw_in_lines(
    alloc: Global,
    text: &[u8],
    lines: &[&str],
) -> Result<(usize, Cause), OutOfMemory> {
    match lines {
        [first, between @ .., last] => match line_head(alloc, *first) {
            Ok(head) => flaw_of_run(alloc, text, &head, (*first, between, *last)),
            Err(Stop::At(cause)) => Ok((0, cause)),
            Err(Stop::Memory) => Err(OutOfMemory),
        },
        _ => Ok((lines.len(), Cause::Missing)),
    }
}

// Why a line can't be gone past.
#[derive(Drop)]
enum Stop {
    // An allocation was refused.
    Memory,
    // It is wrong.
    At(Cause),
}

impl From<OutOfMemory> for Stop {
    fn from(_error: OutOfMemory) -> Stop {
        Stop::Memory
    }
}

impl From<AllocError> for Stop {
    fn from(_error: AllocError) -> Stop {
        Stop::Memory
    }
}

impl<T: Drop> From<AllocFailed<T>> for Stop {
    fn from(_failed: AllocFailed<T>) -> Stop {
        Stop::Memory
    }
}

// What was read, or else the cause.
fn or_cause<T>(read: Result<T, ReadError>, cause: Cause) -> Result<T, Stop> {
    match read {
        Ok(value) => Ok(value),
        Err(ReadError::Refused) => Err(Stop::At(cause)),
        Err(ReadError::Memory) => Err(Stop::Memory),
    }
}

// What a line is that prints so: nothing is wrong where that is the line.
fn printed_as(line: &str, printed: String) -> Result<(), Stop> {
    if printed.as_str() == line {
        Ok(())
    } else {
        Err(Stop::At(Cause::PrintsAs(printed)))
    }
}

// What the first line tells.
fn line_head(alloc: Global, line: &str) -> Result<RunHead, Stop> {
    let mut arena = Arena::new(alloc);
    let value = or_cause(arena.read_text(line), Cause::NotJson)?;
    let head = or_cause(read_head(alloc, &value), Cause::NotBegin)?;
    let printed = print_run(alloc, &head, &[], &Ending::Unfinished)?;
    printed_as(line, line_at(alloc, printed.as_slice(), 0)?)?;
    Ok(head)
}

// The line of a print behind so many others.
fn line_at(alloc: Global, printed: &[u8], place: usize) -> Result<String, OutOfMemory> {
    let mut found = String::new(alloc);
    if let Ok(text) = str::from_utf8(printed) {
        if let Some(line) = text.lines().nth(place) {
            found.push_str(line)?;
        }
    }
    Ok(found)
}

// A run that a text tells, as far as it was followed.
#[derive(Drop)]
struct Course<'a> {
    // Where it is.
    walk: Walk<'a>,
    // What stands.
    standing: Standing,
    // How many lines were read behind the first one.
    count: usize,
    // How many bytes of the text were gone past.
    offset: usize,
}

impl<'a> Course<'a> {
    // Reads the line of the next entry.
    fn enter(
        &mut self,
        alloc: Global,
        arena: &mut Arena,
        line: &str,
        fuel: u64,
    ) -> Result<(), Stop> {
        self.count = self.count.saturating_add(1);
        let number = self.count as u64;
        let value = or_cause(arena.read_text(line), Cause::NotJson)?;
        let Some(next) = self.walk.asked() else {
            return Err(Stop::At(Cause::Over));
        };
        if number > fuel {
            return Err(Stop::At(Cause::Fuel(fuel)));
        }
        let call = read_entry(alloc, &value, number, next)?;
        let mut entries = Vec::new(alloc);
        if !take(
            alloc,
            &mut self.walk,
            &mut self.standing,
            &mut entries,
            &call,
        )? {
            return Err(Stop::At(Cause::NoAnswer(next)));
        }
        printed_as(line, printed_entry(alloc, number, entries.as_slice())?)
    }

    // Goes past a line, which ends with a line feed alone.
    fn pass(&mut self, text: &[u8], line: &str) -> Result<(), Stop> {
        let end = self.offset.saturating_add(line.len());
        self.offset = end.saturating_add(1);
        match text.get(end) {
            Some(b'\n') => Ok(()),
            _ => Err(Stop::At(Cause::LineEnd)),
        }
    }
}

// The call of the entry of this number, where a question of this kind is next.
fn read_entry(alloc: Global, value: &Value, number: u64, next: Kind) -> Result<Call, Stop> {
    match entry_parts(value) {
        Ok((first, second, third)) => {
            check_number(first, number)?;
            let kind = read_next(second, next)?;
            let answer = or_cause(read_told_answer(alloc, kind, third), Cause::NoAnswer(kind))?;
            Ok(Call { kind, answer })
        }
        Err(_) => Err(Stop::At(Cause::NotEntry)),
    }
}

// The number, the kind and the answer of an entry.
fn entry_parts<'v, 't>(
    value: &'v Value<'t>,
) -> Result<(Item<'v, 't>, Item<'v, 't>, Item<'v, 't>), ReadError> {
    let items = read::items(value)?;
    match items {
        [first, second, third, ..] => Ok((first, second, third)),
        _ => Err(ReadError::Refused),
    }
}

// The kind of a question, where it is the next one.
fn read_next(value: &Value, next: Kind) -> Result<Kind, Stop> {
    let kind = or_cause(read_kind(value), Cause::NoKind)?;
    if kind == next {
        Ok(kind)
    } else {
        Err(Stop::At(Cause::NotNext { kind, next }))
    }
}

// Refuses another number than this.
fn check_number(value: &Value, number: u64) -> Result<(), Stop> {
    if is_number(value, number) {
        Ok(())
    } else {
        Err(Stop::At(Cause::Number(number)))
    }
}

fn is_number(value: &Value, number: u64) -> bool {
    match read::number(value) {
        Ok(found) => found == number,
        Err(_) => false,
    }
}

// How the entry of this number prints.
fn printed_entry(alloc: Global, number: u64, entry: &[Entry]) -> Result<String, OutOfMemory> {
    let mut printed = Vec::new(alloc);
    print_entries(alloc, entry, &mut printed)?;
    let first = line_at(alloc, printed.as_slice(), 0)?;
    let mut line = format!(in alloc; "[{number}")?;
    if let Some(rest) = first.as_str().strip_prefix("[1") {
        line.push_str(rest)?;
    }
    Ok(line)
}

// The number of the first line behind the first one that is wrong, and what is wrong there.
fn flaw_of_run(
    alloc: Global,
    text: &[u8],
    head: &RunHead,
    lines: (&str, &[&str], &str),
) -> Result<(usize, Cause), OutOfMemory> {
    let production = run(alloc, head.stop)?;
    flaw_along(alloc, &production, text, head, lines)
}

// The same of a run of this production.
fn flaw_along(
    alloc: Global,
    production: &Production,
    text: &[u8],
    head: &RunHead,
    lines: (&str, &[&str], &str),
) -> Result<(usize, Cause), OutOfMemory> {
    let (first, between, last) = lines;
    let standing = Standing::new(alloc, head.input.clone()?)?;
    let before = Seen {
        standing: &standing,
        last: None,
    };
    let walk = Walk::begin(alloc, production, before)?;
    let mut course = Course {
        walk,
        standing,
        count: 0,
        offset: 0,
    };
    let stopped = follow_lines(alloc, &mut course, text, head.fuel, first, between);
    let line = course.count;
    match stopped {
        Ok(()) => Ok((
            line.saturating_add(1),
            last_cause(alloc, course, head, last)?,
        )),
        Err(Stop::At(cause)) => Ok((line, cause)),
        Err(Stop::Memory) => Err(OutOfMemory),
    }
}

// Reads the first line, of which the run was begun, and the lines of its entries.
fn follow_lines(
    alloc: Global,
    course: &mut Course<'_>,
    text: &[u8],
    fuel: u64,
    first: &str,
    between: &[&str],
) -> Result<(), Stop> {
    let mut arena = Arena::new(alloc);
    course.pass(text, first)?;
    for line in between {
        course.enter(alloc, &mut arena, *line, fuel)?;
        course.pass(text, *line)?;
    }
    Ok(())
}

// What is wrong in the last line of a text whose other lines are those of a run.
fn last_cause(
    alloc: Global,
    course: Course<'_>,
    head: &RunHead,
    last: &str,
) -> Result<Cause, OutOfMemory> {
    let Course { walk, standing, .. } = course;
    match check_json(alloc, last) {
        Ok(()) => match walk.asked() {
            Some(kind) => Ok(Cause::Unfinished(kind)),
            None => ending_cause(alloc, standing, head, last),
        },
        Err(ReadError::Refused) => Ok(Cause::NotJson),
        Err(ReadError::Memory) => Err(OutOfMemory),
    }
}

// The same of a run that is over.
fn ending_cause(
    alloc: Global,
    standing: Standing,
    head: &RunHead,
    last: &str,
) -> Result<Cause, OutOfMemory> {
    let line = printed_ending(alloc, standing, head)?;
    if line.as_str() == last {
        Ok(Cause::LineEnd)
    } else {
        Ok(Cause::EndsAs(line))
    }
}

// How the answer of a run prints that is over.
fn printed_ending(
    alloc: Global,
    standing: Standing,
    head: &RunHead,
) -> Result<String, OutOfMemory> {
    let ending = whole_ending(head, standing.into_context())?;
    let printed = print_run(alloc, head, &[], &ending)?;
    let line = line_at(alloc, printed.as_slice(), 1)?;
    Ok(line)
}

//! One cell, asked step by step.

use anyhow::Result;
use identity_cell::{Begin, CellCore, Cleared, Clearing};
use smithy_types::Text;
use std::alloc::Global;

/// What is asked of a cell. Moments and expiries are in seconds.
#[derive(Clone, Copy, Debug)]
enum Step {
    /// The value, or a load.
    Begin,
    /// The load of a ticket gave a value, which expires at a second.
    Done(u64, u64, u64),
    /// The load of a ticket failed.
    Failed(u64),
    /// The load of a ticket is given up.
    Abandon(u64),
    /// The unexpired value, for a caller that never asked before.
    Clear(u64),
    /// The unexpired value, for the caller that asks at each step of this kind.
    ClearAgain(u64),
    /// Whether the load of a ticket is open.
    IsOpen(u64),
}

use Step::{Abandon, Begin as Ask, Clear, ClearAgain, Done, Failed, IsOpen};

/// A cell with a buffer of so many seconds, and what is asked of it.
struct Row {
    name: &'static str,
    buffer: u64,
    steps: &'static [Step],
}

const ROWS: &[Row] = &[
    Row {
        name: "expiry at 100 s, asked at 1000 s",
        buffer: 10,
        steps: &[Ask, Done(0, 7, 100), Clear(1000)],
    },
    Row {
        name: "expiry at 100 s, asked at 90 s",
        buffer: 10,
        steps: &[Ask, Done(0, 7, 100), Clear(90)],
    },
    Row {
        name: "expiry at 100 s, asked at 10 s",
        buffer: 10,
        steps: &[Ask, Done(0, 7, 100), Clear(10)],
    },
    Row {
        name: "expiry at 100 s, asked at 500 s",
        buffer: 10,
        steps: &[Ask, Done(0, 7, 100), Clear(500)],
    },
    Row {
        name: "a second caller waits",
        buffer: 10,
        steps: &[
            ClearAgain(100),
            Ask,
            Ask,
            ClearAgain(10),
            Done(1, 8, 100),
            Done(0, 7, 100),
            Ask,
            ClearAgain(10),
            Clear(10),
        ],
    },
    Row {
        name: "loads that fail or are given up",
        buffer: 0,
        steps: &[
            Ask,
            Failed(0),
            Ask,
            Abandon(0),
            IsOpen(1),
            Abandon(1),
            Ask,
            Failed(1),
            IsOpen(2),
        ],
    },
    Row {
        name: "a value that has expired",
        buffer: 10,
        steps: &[Ask, Done(0, 7, 0), Ask, Clear(0), Ask],
    },
    Row {
        name: "moments near the greatest",
        buffer: 10,
        steps: &[
            Ask,
            Done(0, 7, u64::MAX),
            Clear(18446744063),
            Clear(18446744064),
        ],
    },
];

/// So many seconds in nanoseconds, at most `u64::MAX`.
pub fn seconds(count: u64) -> u64 {
    count.saturating_mul(1_000_000_000)
}

fn empty(buffer: u64) -> CellCore<u64> {
    CellCore::new(seconds(buffer))
}

// What the cell answers to a step of a caller that asks again and again.
fn answer(
    alloc: Global,
    cell: &mut CellCore<u64>,
    caller: &mut Clearing,
    step: Step,
) -> Result<String> {
    match step {
        Step::Begin => begun(alloc, cell),
        Step::Done(ticket, value, expiry) => done(alloc, cell, ticket, value, expiry),
        Step::Failed(ticket) => failed(alloc, cell, ticket),
        Step::Abandon(ticket) => abandoned(alloc, cell, ticket),
        Step::Clear(now) => cleared(alloc, cell, now, &mut Clearing::new()),
        Step::ClearAgain(now) => cleared(alloc, cell, now, caller),
        Step::IsOpen(ticket) => Ok(format!(in alloc; "{}", cell.is_open(ticket))?),
    }
}

fn begun(alloc: Global, cell: &mut CellCore<u64>) -> Result<String> {
    match cell.begin(alloc)? {
        Begin::Value(value) => Ok(format!(in alloc; "Value({value})")?),
        Begin::Load(ticket) => Ok(format!(in alloc; "Load({ticket})")?),
        Begin::NotYet => Ok(format!(in alloc; "NotYet")?),
    }
}

fn done(
    alloc: Global,
    cell: &mut CellCore<u64>,
    ticket: u64,
    value: u64,
    expiry: u64,
) -> Result<String> {
    let before = cell.is_open(ticket);
    cell.done(ticket, value, seconds(expiry));
    ended(alloc, before, cell.is_open(ticket))
}

fn failed(alloc: Global, cell: &mut CellCore<u64>, ticket: u64) -> Result<String> {
    let before = cell.is_open(ticket);
    cell.failed(ticket);
    ended(alloc, before, cell.is_open(ticket))
}

fn abandoned(alloc: Global, cell: &mut CellCore<u64>, ticket: u64) -> Result<String> {
    let before = cell.is_open(ticket);
    cell.abandon(ticket);
    ended(alloc, before, cell.is_open(ticket))
}

// Whether a load was open before its end, and is behind it.
fn ended(alloc: Global, before: bool, behind: bool) -> Result<String> {
    Ok(format!(in alloc; "open {before}, then {behind}")?)
}

fn cleared(
    alloc: Global,
    cell: &mut CellCore<u64>,
    now: u64,
    caller: &mut Clearing,
) -> Result<String> {
    let answer = cell.clear(alloc, seconds(now), caller)?;
    told(alloc, answer, caller.has_waited())
}

/// An answer to a caller of `clear`, with whether the caller was ever told to wait.
pub fn told(alloc: Global, answer: Cleared<u64>, has_waited: bool) -> Result<String> {
    match answer {
        Cleared::Value(value) => Ok(format!(in alloc; "Value({value}), waited {has_waited}")?),
        Cleared::None => Ok(format!(in alloc; "None, waited {has_waited}")?),
        Cleared::NotYet => Ok(format!(in alloc; "NotYet, waited {has_waited}")?),
    }
}

// The value once it was loaded, by a caller that knows only that it can be copied.
fn loaded<T: Clone + Drop>(alloc: Global, value: T) -> Result<Option<T>> {
    let mut cell = CellCore::new(0);
    cell.begin(alloc)?;
    cell.done(0, value, 1);
    match cell.begin(alloc)? {
        Begin::Value(copy) => Ok(Some(copy)),
        _ => Ok(None),
    }
}

fn print_row(rt: &HostRuntime, row: &Row) -> Result<()> {
    let mut cell = empty(row.buffer);
    print_steps(rt, row, &mut cell)
}

fn print_steps(rt: &HostRuntime, row: &Row, cell: &mut CellCore<u64>) -> Result<()> {
    println!(rt; "cell: {}", row.name)?;
    let mut caller = Clearing::new();
    for step in row.steps {
        let text = answer(rt.alloc(), cell, &mut caller, *step)?;
        println!(rt; "{step:?}: {text}")?;
    }
    println!(rt; "{} loads, {:?}", cell.loads(), cell.events())?;
    Ok(())
}

/// Prints what cells answer, and all that happened to them.
pub fn print(rt: &HostRuntime) -> Result<()> {
    for row in ROWS {
        print_row(rt, row)?;
    }
    let copy = loaded(rt.alloc(), Text::from_static("token"))?;
    println!(rt; "a text: {copy:?}")?;
    Ok(())
}

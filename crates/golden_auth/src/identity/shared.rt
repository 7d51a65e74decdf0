//! A cell behind a lock, over which two callers load.

use crate::identity::cells::{seconds, told};
use anyhow::Result;
use identity_cell::{CacheAnswer, Clearing, ExpiringCache, LoadPoll, Loading};
use std::alloc::Global;
use std::mem;
use std::sync::Wait;

/// A cache of numbers whose loads fail with a letter.
pub type Shared = ExpiringCache<u64, char>;

/// What a caller's load answers where it is asked. Expiries are in seconds.
#[derive(Clone, Copy, Debug)]
pub enum Told {
    /// It isn't over.
    Pending,
    /// It gave a value, which expires at a second.
    Ready(u64, u64),
    /// It failed.
    Failed(char),
}

impl Told {
    /// The answer of the load.
    pub fn poll(self) -> LoadPoll<u64, char> {
        match self {
            Told::Pending => LoadPoll::Pending,
            Told::Ready(value, expiry) => LoadPoll::Ready(value, seconds(expiry)),
            Told::Failed(letter) => LoadPoll::Failed(letter),
        }
    }
}

/// What a caller does.
#[derive(Clone, Copy, Debug)]
enum Step {
    /// It takes the value or loads one, and its load answers so.
    Load(Told),
    /// It takes the value where it hasn't expired at a second.
    Clear(u64),
    /// It gives its load up.
    Abandon,
}

use Step::{Abandon, Clear, Load};
use Told::{Failed, Pending, Ready};

/// Which of two callers.
#[derive(Clone, Copy, Debug)]
enum Who {
    First,
    Second,
}

use Who::{First, Second};

/// A cache with a buffer of so many seconds, and what its callers do.
struct Row {
    name: &'static str,
    buffer: u64,
    steps: &'static [(Who, Step)],
}

const ROWS: &[Row] = &[
    Row {
        name: "values that expire at 100 s, buffer 10 s",
        buffer: 10,
        steps: &[
            (First, Clear(100)),
            (First, Load(Ready(8, 100))),
            (First, Clear(10)),
            (First, Clear(1000)),
            (First, Load(Ready(9, 100))),
            (First, Clear(10)),
            (First, Clear(90)),
            (First, Load(Ready(10, 100))),
            (First, Clear(10)),
            (First, Clear(500)),
            (First, Load(Ready(1, 100))),
            (First, Load(Ready(2, 100))),
        ],
    },
    Row {
        name: "a second caller during a load",
        buffer: 10,
        steps: &[
            (First, Load(Pending)),
            (Second, Load(Failed('w'))),
            (Second, Clear(10)),
            (First, Load(Ready(7, 100))),
            (Second, Load(Failed('w'))),
            (Second, Clear(10)),
            (First, Clear(10)),
        ],
    },
    Row {
        name: "loads that fail or are given up",
        buffer: 0,
        steps: &[
            (First, Load(Failed('f'))),
            (First, Load(Pending)),
            (First, Abandon),
            (Second, Load(Ready(7, 100))),
            (First, Abandon),
            (First, Load(Failed('x'))),
        ],
    },
];

// A caller with its handle of the cache, and what it remembers.
#[derive(Drop)]
struct Caller {
    cache: Shared,
    loading: Loading<u64, char>,
    clearing: Clearing,
}

fn new_caller(cache: &Shared) -> Result<Caller> {
    Ok(Caller {
        cache: cache.clone()?,
        loading: Loading::new(),
        clearing: Clearing::new(),
    })
}

fn load<R: Wait>(rt: &R, alloc: Global, caller: &mut Caller, told: Told) -> Result<String> {
    let mut asked = false;
    let answer = caller
        .cache
        .get_or_load(rt, alloc, &mut caller.loading, || {
            asked = true;
            told.poll()
        })?;
    let held = caller.loading.held();
    let value = answered(alloc, answer)?;
    Ok(format!(in alloc; "{value}, asked {asked}, holds {held:?}")?)
}

fn answered(alloc: Global, answer: CacheAnswer<u64, char>) -> Result<String> {
    match answer {
        CacheAnswer::Value(value) => Ok(format!(in alloc; "Value({value})")?),
        CacheAnswer::NotYet => Ok(format!(in alloc; "NotYet")?),
        CacheAnswer::Failed(letter) => Ok(format!(in alloc; "Failed({letter})")?),
    }
}

fn clear<R: Wait>(rt: &R, alloc: Global, caller: &mut Caller, now: u64) -> Result<String> {
    let moment = seconds(now);
    let state = &mut caller.clearing;
    let answer = caller
        .cache
        .yield_or_clear_if_expired(rt, alloc, moment, state)?;
    told(alloc, answer, caller.clearing.has_waited())
}

fn abandon<R: Wait>(rt: &R, alloc: Global, caller: &mut Caller) -> Result<String> {
    let loading = mem::replace(&mut caller.loading, Loading::new());
    let held = loading.held();
    caller.cache.abandon(rt, loading);
    Ok(format!(in alloc; "held {held:?}")?)
}

// What the caller is told.
fn answer<R: Wait>(rt: &R, alloc: Global, caller: &mut Caller, step: Step) -> Result<String> {
    match step {
        Step::Load(told) => load(rt, alloc, caller, told),
        Step::Clear(now) => clear(rt, alloc, caller, now),
        Step::Abandon => abandon(rt, alloc, caller),
    }
}

// The callers of a cache, each with a handle of its own.
#[derive(Drop)]
struct Callers {
    first: Caller,
    second: Caller,
}

fn new_callers(alloc: Global, buffer: u64) -> Result<Callers> {
    let cache = Shared::new(alloc, seconds(buffer))?;
    Ok(Callers {
        first: new_caller(&cache)?,
        second: new_caller(&cache)?,
    })
}

fn told_to<R: Wait>(
    rt: &R,
    alloc: Global,
    callers: &mut Callers,
    who: Who,
    step: Step,
) -> Result<String> {
    match who {
        Who::First => answer(rt, alloc, &mut callers.first, step),
        Who::Second => answer(rt, alloc, &mut callers.second, step),
    }
}

fn print_row<R: Print + Wait>(rt: &R, alloc: Global, row: &Row) -> Result<()> {
    println!(rt; "shared: {}", row.name)?;
    let mut callers = new_callers(alloc, row.buffer)?;
    for (who, step) in row.steps {
        let text = told_to(rt, alloc, &mut callers, *who, *step)?;
        println!(rt; "{who:?} {step:?}: {text}")?;
    }
    Ok(())
}

/// Prints what the callers of each cache are told.
pub fn print<R: Print + Wait>(rt: &R, alloc: Global) -> Result<()> {
    for row in ROWS {
        print_row(rt, alloc, row)?;
    }
    Ok(())
}

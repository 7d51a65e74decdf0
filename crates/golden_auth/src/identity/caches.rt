//! Caches by scheme, asked step by step.

use crate::identity::builders::terms_of;
use crate::identity::clients::{Client, identity};
use anyhow::Result;
use identity_cell::{LazyCacheBuilder, LazyCacheTerms};
use smithy_context::Settings;

/// What is asked of a cache. Moments are in seconds.
#[derive(Clone, Copy, Debug)]
enum Step {
    /// A look for a scheme.
    Look(&'static str, u64),
    /// The load of a ticket of `key` is opened, as one that was asked for now.
    Open(u64, u64),
    /// The same of another scheme.
    OpenOf(&'static str, u64, u64),
    /// The open load's sleep is asked.
    Wait(u64),
    /// The open load gave an identity with this expiration in nanoseconds, and this is the random
    /// word.
    Keep(Option<u64>, u64),
    /// The open load gave this token, which expires at 10,000 s.
    KeepAs(&'static str),
    /// The open load failed.
    Fail,
    /// The open load is given up.
    Abandon,
}

use Step::{Abandon, Fail, Keep, KeepAs, Look, Open, OpenOf, Wait};

/// A cache of so many schemes, whose loads may take so long, and what is asked of it.
struct Row {
    name: &'static str,
    load_timeout: Option<u64>,
    max_partitions: u64,
    sleeps: bool,
    steps: &'static [Step],
}

const ROWS: &[Row] = &[
    Row {
        name: "kept until the buffer begins",
        load_timeout: Some(1_000_000_000),
        max_partitions: 64,
        sleeps: true,
        steps: &[
            Look("key", 2),
            Look("key", 2),
            Open(0, 2),
            Wait(2),
            Keep(None, u64::MAX),
            Look("key", 896),
            Look("key", 897),
        ],
    },
    Row {
        name: "loads that take too long, fail or are given up",
        load_timeout: Some(1_000_000_000),
        max_partitions: 64,
        sleeps: true,
        steps: &[
            Look("key", 2),
            Open(0, 2),
            Wait(3),
            Look("key", 3),
            Open(1, 3),
            Fail,
            Look("key", 3),
            Open(2, 3),
            Abandon,
            Look("key", 3),
        ],
    },
    Row {
        name: "two schemes at most",
        load_timeout: Some(1_000_000_000),
        max_partitions: 2,
        sleeps: true,
        steps: &[
            Look("a", 2),
            Look("b", 2),
            Look("a", 2),
            Look("c", 2),
            Look("a", 2),
            Look("c", 2),
        ],
    },
    Row {
        name: "an expiration of its own, the timeout by the settings",
        load_timeout: None,
        max_partitions: 64,
        sleeps: true,
        steps: &[
            Look("key", 2),
            Open(0, 2),
            Wait(23),
            Keep(Some(100_000_000_000), 0),
            Look("key", 89),
            Look("key", 90),
        ],
    },
    Row {
        name: "without sleeps",
        load_timeout: Some(1_000_000_000),
        max_partitions: 64,
        sleeps: false,
        steps: &[Look("key", 2), Open(0, 2), Wait(1000), Look("key", 1000)],
    },
    Row {
        name: "three identities in turn",
        load_timeout: Some(1_000_000_000),
        max_partitions: 64,
        sleeps: true,
        steps: &[
            Look("key", 100),
            Open(0, 100),
            Keep(Some(1_000_000_000_000), 0),
            Look("key", 100),
            Look("key", 1500),
            Open(1, 1500),
            Keep(Some(2_000_000_000_000), 0),
            Look("key", 1500),
            Look("key", 2500),
            Open(2, 2500),
            Keep(Some(3_000_000_000_000), 0),
            Look("key", 2500),
        ],
    },
    Row {
        name: "a load that fails behind a value that has expired",
        load_timeout: Some(1_000_000_000),
        max_partitions: 64,
        sleeps: true,
        steps: &[
            Look("key", 100),
            Open(0, 100),
            Keep(Some(1_000_000_000_000), 0),
            Look("key", 1500),
            Open(1, 1500),
            Fail,
            Look("key", 1500),
        ],
    },
    Row {
        name: "two schemes, each with its own",
        load_timeout: Some(1_000_000_000),
        max_partitions: 64,
        sleeps: true,
        steps: &[
            Look("a", 0),
            OpenOf("a", 0, 0),
            KeepAs("A"),
            Look("a", 0),
            Look("b", 0),
            OpenOf("b", 0, 0),
            KeepAs("B"),
            Look("b", 0),
            Look("a", 0),
        ],
    },
];

fn terms(row: &Row) -> Result<LazyCacheTerms> {
    let mut builder = LazyCacheBuilder::new().max_partitions(row.max_partitions);
    builder.set_load_timeout(row.load_timeout);
    terms_of(builder)
}

// What the cache answers.
fn answer(
    rt: &HostRuntime,
    client: &mut Client,
    settings: &Settings,
    step: Step,
) -> Result<String> {
    let alloc = rt.alloc();
    match step {
        Step::Look(id, second) => client.look(alloc, id, second),
        Step::Open(ticket, second) => client.open(alloc, settings, "key", ticket, second),
        Step::OpenOf(id, ticket, second) => client.open(alloc, settings, id, ticket, second),
        Step::Wait(second) => client.wait(alloc, second),
        Step::Keep(expiration, word) => {
            let identity = identity(alloc, b"abc", expiration)?;
            client.keep(alloc, identity, word)
        }
        Step::KeepAs(token) => {
            let identity = identity(alloc, token.as_bytes(), Some(10_000_000_000_000))?;
            client.keep(alloc, identity, 0)
        }
        Step::Fail => client.fail(alloc),
        Step::Abandon => client.abandon(alloc),
    }
}

fn print_row(rt: &HostRuntime, settings: &Settings, row: &Row) -> Result<()> {
    let mut client = Client::new(rt.alloc(), terms(row)?, row.sleeps);
    print_steps(rt, settings, row, &mut client)
}

fn print_steps(
    rt: &HostRuntime,
    settings: &Settings,
    row: &Row,
    client: &mut Client,
) -> Result<()> {
    println!(rt; "cache: {}, {:?}", row.name, client.cache.terms())?;
    for step in row.steps {
        let text = answer(rt, client, settings, *step)?;
        println!(rt; "{step:?}: {text}")?;
    }
    let loads = client.cache.loads();
    println!(rt;
        "{loads} loads, {} sleeps given up",
        client.sleeper.given_up
    )?;
    Ok(())
}

/// Prints what caches answer.
pub fn print(rt: &HostRuntime) -> Result<()> {
    let settings = Settings::new();
    for row in ROWS {
        print_row(rt, &settings, row)?;
    }
    Ok(())
}

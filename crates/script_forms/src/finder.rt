//! What is kept while a script is walked: where the walk is, and what is wrong there.

use crate::shape::{ScriptKind, TextKind};
use indexmap::IndexSet;
use json::Value;
use smithy_types::OutOfMemory;
use std::alloc::Global;

/// The most fuel of a script, that of all its invocations together.
pub const FUEL_LIMIT: u64 = 100_000;

/// The most invocations of a script.
pub const INVOCATION_LIMIT: u64 = 10_000;

/// A walk over a script, up to the first place that isn't of its form.
#[derive(Drop)]
pub struct Finder {
    /// What memory is taken from.
    pub alloc: Global,
    /// Whether limits count too.
    pub judges_limits: bool,
    /// How many buckets the script has.
    pub buckets: u64,
    /// How many clients the script has.
    pub clients: u64,
    /// What is left of the limit of fuel.
    pub fuel_left: u64,
    /// What is left of the limit of invocations.
    pub invocations_left: u64,
    /// The keys of the layers so far.
    pub keys: IndexSet<String>,
    /// Where the walk is: the place of an item or a member at each depth, from the outermost on.
    pub path: Vec<usize>,
    /// Whether a member's name is meant at the end of the path, and not its value.
    pub at_name: bool,
    /// What is wrong there.
    pub reason: String,
    /// Whether what was found is told behind the reason.
    pub shows_found: bool,
    /// What is told last.
    pub hint: String,
}

impl Finder {
    /// A walk that begins at a script, or at a line of a host.
    pub fn new(alloc: Global, kind: TextKind, script: &Value, judges_limits: bool) -> Finder {
        Finder {
            alloc,
            judges_limits,
            buckets: buckets_of(kind, script),
            clients: count_of(script.get("clients")),
            fuel_left: FUEL_LIMIT,
            invocations_left: INVOCATION_LIMIT,
            keys: IndexSet::new(alloc),
            path: Vec::new(alloc),
            at_name: false,
            reason: String::new(alloc),
            shows_found: false,
            hint: String::new(alloc),
        }
    }

    /// How many different keys the layers had so far.
    pub fn key_count(&self) -> u64 {
        self.keys.len() as u64
    }

    /// Goes to an item or a member at this place.
    pub fn enter(&mut self, place: usize) -> Result<(), OutOfMemory> {
        self.path.push(place)?;
        Ok(())
    }

    /// Goes back to what holds it.
    pub fn leave(&mut self) {
        let _place = self.path.pop();
    }

    /// Ends the walk here: this is wrong.
    pub fn refuse(&mut self, parts: &[&str]) -> Result<bool, OutOfMemory> {
        for part in parts {
            self.reason.push_str(*part)?;
        }
        Ok(false)
    }

    /// Ends the walk here: this is expected, and something else was found.
    pub fn expect(&mut self, wanted: &str) -> Result<bool, OutOfMemory> {
        self.shows_found = true;
        self.refuse(&["expected ", wanted])
    }

    /// Ends the walk at an item or a member: this is wrong there.
    pub fn refuse_at(&mut self, place: usize, parts: &[&str]) -> Result<bool, OutOfMemory> {
        self.enter(place)?;
        self.refuse(parts)
    }

    /// Ends the walk here: so much is above a limit.
    pub fn above(&mut self, number: u64, what: &str, limit: u64) -> Result<bool, OutOfMemory> {
        let number = format!(in self.alloc; "{number}")?;
        let limit = format!(in self.alloc; "{limit}")?;
        self.refuse(&[
            number.as_str(),
            " is above the limit of ",
            what,
            ", which is ",
            limit.as_str(),
        ])
    }
}

// A script of clients has a list of buckets, and one of callers has one bucket.
fn buckets_of(kind: TextKind, script: &Value) -> u64 {
    match kind {
        TextKind::Script(ScriptKind::Fleet) => 1,
        _ => count_of(script.get("buckets")),
    }
}

// How many items an array has. Where there is no array, that is told, and no place of one.
fn count_of(value: Option<&Value>) -> u64 {
    match value {
        Some(Value::Array(items)) => items.len() as u64,
        _ => u64::MAX,
    }
}

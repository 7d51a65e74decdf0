//! The members of objects.

use crate::finder::Finder;
use crate::form::Form;
use crate::names::{listed, nearest};
use crate::shape::{Member, Shape};
use crate::tables::table;
use json::Value;
use smithy_types::OutOfMemory;
use std::alloc::Global;

// The place of a member that isn't there.
const NOWHERE: usize = usize::MAX;

/// The members of an object of this form; none where it isn't an object's.
pub fn known_members(form: Form) -> &'static [Member] {
    match table(form).shape {
        Shape::Object(members) => members,
        _ => &[],
    }
}

// The place of a member in its table.
fn place_of(known: &[Member], name: &str) -> Option<usize> {
    known.iter().position(|member| member.name == name)
}

/// Where each of the known members stands last in the object.
pub fn last_places(
    alloc: Global,
    known: &[Member],
    members: &[(&str, Value)],
) -> Result<Vec<usize>, OutOfMemory> {
    let mut lasts = vec![in alloc; NOWHERE; known.len()]?;
    let mut place = 0usize;
    for member in members {
        if let Some(index) = place_of(known, member.0) {
            if let Some(last) = lasts.get_mut(index) {
                *last = place;
            }
        }
        place = place.saturating_add(1);
    }
    Ok(lasts)
}

/// The form of the member of this name at this place: none where there is no such member, and
/// `Null` where a later one takes its place, so that nothing is looked at.
pub fn known_member(known: &[Member], lasts: &[usize], name: &str, place: usize) -> Option<Form> {
    let index = place_of(known, name)?;
    let member = known.get(index)?;
    match lasts.get(index) {
        Some(last) if *last == place => Some(member.form),
        _ => Some(Form::Null),
    }
}

/// Refuses a member's name: it is none of these.
pub fn refuse_name(finder: &mut Finder, known: &[Member], name: &str) -> Result<bool, OutOfMemory> {
    finder.at_name = true;
    let names = names_of(finder.alloc, known)?;
    let others = match nearest(finder.alloc, &names, name)? {
        Some(near) => told_first(finder, &names, near)?,
        None => all_told(finder, &names)?,
    };
    finder.refuse(&["no such member", others.as_str()])
}

// The nearest name as a question, and the others.
fn told_first(finder: &Finder, names: &[&str], near: &str) -> Result<String, OutOfMemory> {
    let mut others = Vec::new(finder.alloc);
    for name in names {
        if *name != near {
            others.push(*name)?;
        }
    }
    let others = listed(finder.alloc, &others)?;
    Ok(format!(in finder.alloc; "; did you mean \"{near}\"? The others are {others}")?)
}

// All names.
fn all_told(finder: &Finder, names: &[&str]) -> Result<String, OutOfMemory> {
    let names = listed(finder.alloc, names)?;
    Ok(format!(in finder.alloc; "; the members are {names}")?)
}

fn names_of(alloc: Global, known: &[Member]) -> Result<Vec<&'static str>, OutOfMemory> {
    let mut names = Vec::new(alloc);
    for member in known {
        names.push(member.name)?;
    }
    Ok(names)
}

/// Whether each member that is needed is there.
pub fn none_missing(
    finder: &mut Finder,
    known: &[Member],
    lasts: &[usize],
) -> Result<bool, OutOfMemory> {
    let mut missing = None;
    for index in 0..known.len() {
        if missing.is_none() && is_missing(known, lasts, index) {
            missing = Some(known[index].name);
        }
    }
    match missing {
        Some(name) => finder.refuse(&["the member \"", name, "\" is missing"]),
        None => Ok(true),
    }
}

// Whether this member is needed and isn't there.
fn is_missing(known: &[Member], lasts: &[usize], index: usize) -> bool {
    match (known.get(index), lasts.get(index)) {
        (Some(member), Some(last)) => member.is_needed && *last == NOWHERE,
        _ => false,
    }
}

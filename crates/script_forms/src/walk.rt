//! The walk over a script, along the tables.

use crate::finder::Finder;
use crate::form::Form;
use crate::items::{item_form, meant};
use crate::leaves::head_fits;
use crate::limits::within_limits;
use crate::members::{known_member, known_members, last_places, none_missing, refuse_name};
use crate::rules::rules_hold;
use json::Value;
use smithy_types::OutOfMemory;

/// Whether the value is of the form. Where it isn't, the finder stands at the first place that is
/// wrong, in the order of the text, with the reason.
#[cycle(walk)]
pub fn is_of_form(finder: &mut Finder, value: &Value, form: Form) -> Result<bool, OutOfMemory> {
    let form = meant(value, form);
    if !head_fits(finder, value, form)? {
        return Ok(false);
    }
    let parts_fit = match value {
        Value::Array(items) => items_fit(finder, items, form)?,
        Value::Object(members) => members_fit(finder, members, form)?,
        _ => true,
    };
    if !parts_fit || !rules_hold(finder, value, form)? {
        return Ok(false);
    }
    within_limits(finder, value, form)
}

#[cycle(walk)]
fn items_fit(finder: &mut Finder, items: &Vec<Value>, form: Form) -> Result<bool, OutOfMemory> {
    let mut place = 0usize;
    for item in items {
        if let Some(wanted) = item_form(items, place, form) {
            finder.enter(place)?;
            if !is_of_form(finder, item, wanted)? {
                return Ok(false);
            }
            finder.leave();
        }
        place = place.saturating_add(1);
    }
    Ok(true)
}

#[cycle(walk)]
fn members_fit(
    finder: &mut Finder,
    members: &Vec<(&str, Value)>,
    form: Form,
) -> Result<bool, OutOfMemory> {
    let known = known_members(form);
    if known.is_empty() {
        return Ok(true);
    }
    let lasts = last_places(finder.alloc, known, members)?;
    let mut place = 0usize;
    for member in members {
        finder.enter(place)?;
        match known_member(known, &lasts, member.0, place) {
            None => return refuse_name(finder, known, member.0),
            Some(Form::Null) => {}
            Some(wanted) => {
                if !is_of_form(finder, &member.1, wanted)? {
                    return Ok(false);
                }
            }
        }
        finder.leave();
        place = place.saturating_add(1);
    }
    none_missing(finder, known, &lasts)
}

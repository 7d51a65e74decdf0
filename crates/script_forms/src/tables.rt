//! The tables of all forms.

pub mod answers;
pub mod clients;
pub mod hosts;
pub mod scripts;
pub mod settings;
pub mod values;

use crate::form::Form;
use crate::shape::Table;

/// The table of a form.
pub fn table(form: Form) -> Table {
    match listed(values::TABLES, Form::Null, form) {
        Some(table) => table,
        None => above_values(form),
    }
}

// Of forms that aren't plain values.
fn above_values(form: Form) -> Table {
    match listed(settings::TABLES, Form::Timeouts, form) {
        Some(table) => table,
        None => above_settings(form),
    }
}

// Of forms that aren't settings either.
fn above_settings(form: Form) -> Table {
    match listed(answers::TABLES, Form::Absent, form) {
        Some(table) => table,
        None => above_answers(form),
    }
}

// Of forms that aren't answers either.
fn above_answers(form: Form) -> Table {
    match listed(clients::TABLES, Form::Capacity, form) {
        Some(table) => table,
        None => above_clients(form),
    }
}

// Of forms that aren't clients or callers either.
fn above_clients(form: Form) -> Table {
    match listed(hosts::TABLES, Form::Seat, form) {
        Some(table) => table,
        None => above_hosts(form),
    }
}

// Of forms that aren't of a host's lines either.
fn above_hosts(form: Form) -> Table {
    match listed(scripts::TABLES, Form::Span, form) {
        Some(table) => table,
        None => scripts::WAITERS_SCRIPT,
    }
}

// The table of a form among those of the forms from this first one on.
fn listed(tables: &[Table], first: Form, form: Form) -> Option<Table> {
    let place = (form as usize).checked_sub(first as usize)?;
    tables.get(place).copied()
}

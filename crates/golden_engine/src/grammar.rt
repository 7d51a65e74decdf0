//! Prints the tables of questions and answers: for each kind of question what it hands on, which
//! answers fit it, which of them fail, and what stands after each. Every row begins with what
//! stands at one of a few moments of a run. Last comes which error each failure comes to.

mod errors;
mod forms;
mod kinds;
mod moments;
mod parts;
mod told;

use crate::grammar::errors::{FAILING, Failing, PHASES};
use crate::grammar::forms::{FORMS, Form};
use crate::grammar::kinds::{OTHERS, STEPS};
use crate::grammar::moments::{MOMENTS, Moment};
use anyhow::Result;
use run_grammar::Kind;
use smithy_types::Hook;

pub fn print(rt: HostRuntime) -> Result<()> {
    for moment in MOMENTS {
        println!(rt; "{moment:?}")?;
        print_kinds(&rt, moment, STEPS)?;
        print_hooks(&rt, moment)?;
        print_kinds(&rt, moment, OTHERS)?;
    }
    for failing in FAILING {
        print_errors(&rt, failing)?;
    }
    Ok(())
}

fn print_hooks(rt: &HostRuntime, moment: Moment) -> Result<()> {
    for hook in Hook::ALL {
        print_kind(rt, moment, Kind::Hook(hook))?;
    }
    Ok(())
}

fn print_kinds(rt: &HostRuntime, moment: Moment, kinds: &[Kind]) -> Result<()> {
    for kind in kinds {
        print_kind(rt, moment, *kind)?;
    }
    Ok(())
}

// The errors of such a failure, with a response that is held, and without.
fn print_errors(rt: &HostRuntime, failing: Failing) -> Result<()> {
    for phase in PHASES {
        let held = errors::name_of(failing, phase, true);
        let alone = errors::name_of(failing, phase, false);
        println!(rt; "{failing:?} {phase:?}: {held}, {alone}")?;
    }
    Ok(())
}

// What a question of the kind hands on at the moment, and the rows of its answers.
fn print_kind(rt: &HostRuntime, moment: Moment, kind: Kind) -> Result<()> {
    let parts = parts_at(rt, moment, kind)?;
    println!(rt; "{kind:?}{parts}")?;
    for form in FORMS {
        print_row(rt, moment, kind, form)?;
    }
    Ok(())
}

fn parts_at(rt: &HostRuntime, moment: Moment, kind: Kind) -> Result<String> {
    let standing = moments::standing(rt.alloc(), moment)?;
    let question = standing.question(kind)?;
    parts::told(rt.alloc(), &question)
}

// The row of an answer that fits.
fn print_row(rt: &HostRuntime, moment: Moment, kind: Kind, form: Form) -> Result<()> {
    let alloc = rt.alloc();
    let answer = forms::answer(alloc, form)?;
    if !answer.fits(kind) {
        return Ok(());
    }
    let mut standing = moments::standing(alloc, moment)?;
    moments::take_in(alloc, &mut standing, kind, &answer)?;
    let fails = if answer.fails(kind, standing.context.view.attempt) {
        " fails"
    } else {
        ""
    };
    let text = told::standing(alloc, &standing)?;
    println!(rt; "    {form:?}{fails}: {text}")?;
    Ok(())
}

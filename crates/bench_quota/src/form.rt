//! What the words of the command line ask for.
ghost use Rattle.std.specs.Prelude.{◌≤◌, IfOk};

use anyhow::{Context, Result, bail};
use std::env;

/// How the bucket is kept.
#[derive(Clone, Copy, Debug, PartialEq, Eq)]
pub enum Form {
    /// In a cell, with a pass for each caller.
    Cell,
    /// Behind a lock, with a handle for each caller.
    Shared,
    /// In a registry of one caller, in one thread.
    Plain,
}

/// Who spends from the bucket.
#[derive(Clone, Copy, Debug)]
pub struct Load {
    pub form: Form,
    /// How many callers there are, 1 to 16.
    pub callers: u32,
    /// How many rounds each makes.
    pub rounds: u32,
}

impl Load {
    /// Reads the three words.
    pub fn from_words(rt: &HostRuntime) -> Result<Load>
        ensures { IfOk result (λ load. (1 ≤ load.callers) × (load.callers ≤ 16)) }
    {
        let mut words = env::args(rt)?.skip(1);
        let form = words.next().context("the form is missing")?;
        let callers = words.next().context("the number of callers is missing")?;
        let rounds = words.next().context("the number of rounds is missing")?;
        let callers: u32 = callers.parse().context("reading the number of callers")?;
        if callers < 1 || callers > 16 {
            bail!("there are 1 to 16 callers");
        }
        Ok(Load {
            form: form_named(&form)?,
            callers,
            rounds: rounds.parse().context("reading the number of rounds")?,
        })
    }
}

fn form_named(name: &str) -> Result<Form> {
    match name {
        "cell" => Ok(Form::Cell),
        "shared" => Ok(Form::Shared),
        "plain" => Ok(Form::Plain),
        _ => bail!("the form is cell, shared or plain"),
    }
}

//! Prints what the engine answers over a script of retries and over short runs, what rewinds come
//! to, the texts of its errors, what the guards of bodies go by, and the tables of the grammar, to
//! be compared with a print that was made without it.
//!
//! The words are the number of delays and the fuel of the runs that are measured (`cost`).
#![tactic(auto)]

mod cost;
mod crossing;
mod grammar;
mod guards;
mod rewinds;
mod short;
mod texts;

use anyhow::Result;

fn main(rt: HostRuntime) -> Result<()> {
    cost::print(rt)?;
    short::print(rt)?;
    rewinds::print(&rt)?;
    texts::print(&rt)?;
    guards::print(&rt)?;
    grammar::print(rt)
}

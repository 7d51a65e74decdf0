//! Prints what keeps identities and what signs by them, to be compared with a print that was made
//! without them: cells and caches of identities, choices of schemes, endpoints, and signed requests.
//!
//! With the word `identities` it prints the rows of kept identities alone.
#![tactic(auto)]

mod identity;
mod schemes;

use anyhow::Result;
use std::env;

fn main(rt: HostRuntime) -> Result<()> {
    identity::print(rt, &rt)?;
    if env::args(&rt)?.skip(1).next().is_some() {
        return Ok(());
    }
    schemes::print(&rt)
}

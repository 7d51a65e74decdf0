//! The waiters of a script.
ghost use Rattle.std.specs.Prelude.{◌≡◌, IfOk};
ghost use Rattle.cli_waiters.specs.Fleet.Waiters.{plans_of};

use cli_wait::ScriptedPoll;
use cli_wait::polls::poll_at;
use smithy_types::{List, OutOfMemory};
use std::alloc::Global;
use waiter_fleet::Plan;

/// A waiter of a script.
#[derive(Drop)]
pub struct ScriptedWaiter {
    /// Its delays.
    pub plan: Plan,
    /// The polls of its operation. Behind the last that one comes again.
    pub polls: List<ScriptedPoll>,
}

impl ScriptedWaiter {
    ghost use Rattle.std.specs.Option.{option_copied};
    ghost use Rattle.cli_wait.specs.Polls.{poll_at};

    /// The poll of this number, counted from 1: behind the last one that one again.
    pub fn poll_at(&self, number: u32) -> Option<&ScriptedPoll>
        ensures { option_copied result ≡ poll_at self.now.polls number }
    {
        poll_at(&self.polls, number)
    }
}

/// The plans of these waiters.
pub fn plans_of(alloc: Global, waiters: &[ScriptedWaiter]) -> Result<Vec<Plan>, OutOfMemory>
    ensures { IfOk result (λ plans. plans.items ≡ plans_of waiters.now) }
{
    let mut plans = Vec::new(alloc);
    for waiter in waiters {
        plans.push(waiter.plan)?;
    }
    Ok(plans)
}

//! Invocations are counted by how they come out.
ghost use Rattle.std.specs.Prelude.{◌≡◌, ◌<◌, ◌+◌, All, cond, length, IfOk};
ghost use Rattle.cli_client_runs.specs.Means.{ServedBy};
ghost use Rattle.cli_client_runs.specs.Running.{InvokedIn};
ghost use Rattle.json_scripts.specs.Client.Placed.{HasClient};
ghost use Rattle.cli_client.specs.Tally.{Tallies, TalliesOne, is_output};

use cli_client_runs::ClientSet;
use client_retries::{InterceptorMeaning, TakeOffer};
use json_print::Ending;
use json_scripts::client::InvocationRecord;
use retry_policy::ClassifyRetry;
use smithy_types::{List, OutOfMemory};
use std::alloc::Global;

/// How many invocations came to an output, how many to anything else, and how many calls they made.
#[derive(Clone, Copy, Debug, PartialEq, Eq)]
pub struct Tally {
    /// Invocations that came to an output.
    pub outputs: u64,
    /// Invocations that came to anything else.
    pub errors: u64,
    /// The calls of all invocations.
    pub calls: u64,
}

impl Tally {
    /// Nothing was counted.
    pub fn new() -> Tally
        ensures { result ≡ record { outputs = 0; errors = 0; calls = 0 } }
    {
        Tally {
            outputs: 0,
            errors: 0,
            calls: 0,
        }
    }

    // With one invocation more, which made so many calls.
    fn with(self, is_output: bool, calls: usize) -> Result<Tally, OutOfMemory>
        ensures { IfOk result (λ t. t ≡
            record {
              outputs = self.outputs + cond is_output 1 0;
              errors = self.errors
                  + cond is_output 0 1;
              calls = self.calls + calls;
            }) }
    {
        Ok(Tally {
            outputs: sum(self.outputs, is_output as u64)?,
            errors: sum(self.errors, !is_output as u64)?,
            calls: sum(self.calls, calls as u64)?,
        })
    }
}

/// Makes these invocations in their order, and counts them.
pub fn count_runs<C: ClassifyRetry, I: TakeOffer>(
    alloc: Global,
    set: &mut ClientSet<C, I>,
    invocations: List<InvocationRecord>,
) -> Result<Tally, OutOfMemory>
    requires { All (HasClient (length set.old.clients.items)) invocations }
    ensures { IfOk result (λ t. Tallies
        (ServedBy C.says ⟦<I as InterceptorMeaning>⟧.means) set.old invocations t
        set.new) }
{
    let mut tally = Tally::new();
    for invocation in invocations.into_vec(alloc) {
        tally = tally_one(alloc, set, invocation, tally)?;
    }
    Ok(tally)
}

// Makes an invocation, and counts it.
fn tally_one<C: ClassifyRetry, I: TakeOffer>(
    alloc: Global,
    set: &mut ClientSet<C, I>,
    invocation: InvocationRecord,
    earlier: Tally,
) -> Result<Tally, OutOfMemory>
    requires { invocation.client < length set.old.clients.items }
    ensures { IfOk result (λ t. TalliesOne
        (ServedBy C.says ⟦<I as InterceptorMeaning>⟧.means) set.old invocation earlier t
        set.new) }
{
    let (log, ending) = set.invoke(alloc, invocation)?;
    let counted = earlier.with(came_to_output(&ending), log.len())?;
    Ok(counted)
}

// Whether this is an output.
fn came_to_output(ending: &Ending) -> bool
    ensures { result ≡ is_output ending.now }
{
    matches!(ending, Ending::Output(_))
}

// The sum of two counts. A sum that no u64 holds counts more than any memory does.
fn sum(a: u64, b: u64) -> Result<u64, OutOfMemory>
    ensures { IfOk result (λ s. s ≡ a + b) }
{
    match a.checked_add(b) {
        Some(sum) => Ok(sum),
        None => Err(OutOfMemory),
    }
}

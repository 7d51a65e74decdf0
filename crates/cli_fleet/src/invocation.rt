//! The invocations of a caller's client, one after another, and their print.
ghost use Rattle.std.specs.Prelude.{◌≡◌, [], IfOk, OnOk};
ghost use Rattle.client_components.specs.Serving.{Served};
ghost use Rattle.json_print.specs.Endings.{Ends};
ghost use Rattle.orchestrate.specs.Handing.{HandedOn};
ghost use Rattle.cli_fleet.specs.Invoking.{InvokedOver, RunsAll, RunsOne};
ghost use Rattle.cli_fleet.specs.Means.{world_means};

use crate::caller_outside::CallerOutside;
use crate::gate::Gate;
use cli_client_runs::invocation::head_of;
use cli_client_runs::print::print_invocation;
use cli_shell::status::PrintStatus;
use client_components::{ClientMeans, ClientTypes, RuntimeComponents};
use client_retries::{InterceptorMeaning, QuotaMeaning, TakeOffer};
use client_scripted::client::ServiceTypes;
use json_print::print::next_number;
use json_print::world::{PayloadOperation, outcome_of, run_over};
use json_print::{Ending, RunHead};
use json_scripts::client::InvocationRecord;
use outside_scripted::IdentityRecord;
use retry_policy::ClassifyRetry;
use retry_quota::Quota;
use run_grammar::Entry;
use smithy_types::{List, OutOfMemory, Shared};
use std::alloc::Global;
use std::mem;

/// The client of a caller. Q is its quota, C a classifier and I an interceptor.
pub type CallerWorld<'g, G, Q, C, I> = RuntimeComponents<
    ServiceTypes<CallerOutside<'g, G>, Q, C, I>,
>;

/// What a client calls, and what the outside answers to its loads of identities.
#[derive(Drop)]
pub struct CallerTarget {
    /// The operation.
    pub operation: PayloadOperation,
    /// The client's identities.
    pub identities: Shared<List<IdentityRecord>>,
}

/// Invokes the operation over the client. Answers the run's entries and how it ended; nothing stays
/// open.
pub fn invoke<'g, G: Gate, Q: Quota + Drop, C: ClassifyRetry, I: TakeOffer>(
    alloc: Global,
    target: &CallerTarget,
    world: &mut CallerWorld<'g, G, Q, C, I>,
    invocation: InvocationRecord,
) -> Result<(List<Entry>, Ending), OutOfMemory>
    ensures { IfOk result (λ ran. InvokedOver
        (world_means
        ⟦<Q as QuotaMeaning>⟧.means
        C.says
        ⟦<I as InterceptorMeaning>⟧.means)
        target.now.identities world.old.parts invocation ran.0 ran.1 world.new.parts) }
{
    let InvocationRecord {
        input,
        fuel,
        stop,
        responses,
        ..
    } = invocation;
    let head = head_of(input, fuel, stop);
    let identities = target.identities.clone()?;
    world
        .parts
        .outside
        .begin_invocation(alloc, responses, identities);
    world.log = List::new();
    let ending = run_client(alloc, &target.operation, &head, world)?;
    world.parts.end_open();
    let log = mem::replace(&mut world.log, List::new());
    Ok((log, ending))
}

// Runs the operation over the client, and tells how the run ended.
fn run_client<T: ClientTypes>(
    alloc: Global,
    operation: &PayloadOperation,
    head: &RunHead,
    client: &mut RuntimeComponents<T>,
) -> Result<Ending, OutOfMemory>
    ensures ends { IfOk result (λ e. Ends head.now client.old.log client.new.log e) }
    ensures related { OnOk result (HandedOn
        (λ old log new. Served ⟦<T as ClientMeans>⟧.means old.parts log new.parts) client.old
        client.new client.old.log client.new.log) }
{
    run_over(alloc, operation, head, client)
}

// Makes an invocation, and prints it behind what is there. Answers what it came to.
fn run_one<'g, G: Gate, Q: Quota + Drop, C: ClassifyRetry, I: TakeOffer>(
    alloc: Global,
    target: &CallerTarget,
    world: &mut CallerWorld<'g, G, Q, C, I>,
    number: u64,
    invocation: InvocationRecord,
    out: &mut Vec<u8>,
) -> Result<PrintStatus, OutOfMemory>
    ensures { IfOk result (λ outcome. RunsOne
        (world_means
        ⟦<Q as QuotaMeaning>⟧.means
        C.says
        ⟦<I as InterceptorMeaning>⟧.means)
        target.now.identities number world.old.parts invocation out.old.items world.new.parts
        out.new.items outcome) }
{
    let client = invocation.client;
    let (log, ending) = invoke(alloc, target, world, invocation)?;
    print_invocation(alloc, number, client, log.as_slice(), &ending, out)?;
    Ok(outcome_of(&ending))
}

/// Makes these invocations in their order, and prints each behind what is there. Answers what the
/// last one came to, none where there is none.
pub fn run_all<'g, G: Gate, Q: Quota + Drop, C: ClassifyRetry, I: TakeOffer>(
    alloc: Global,
    target: &CallerTarget,
    world: &mut CallerWorld<'g, G, Q, C, I>,
    invocations: List<InvocationRecord>,
    out: &mut Vec<u8>,
) -> Result<Option<PrintStatus>, OutOfMemory>
    ensures { IfOk result (λ outcome. RunsAll
        (world_means
        ⟦<Q as QuotaMeaning>⟧.means
        C.says
        ⟦<I as InterceptorMeaning>⟧.means)
        target.now.identities world.old.parts invocations out.old.items world.new.parts
        out.new.items outcome) }
{
    let mut number = 0;
    let mut outcome = None;
    for invocation in invocations.into_vec(alloc) {
        outcome = Some(run_one(alloc, target, world, number, invocation, out)?);
        number = next_number(number)?;
    }
    Ok(outcome)
}

//! What a caller does with its pass: its client is built, its invocations are made, and its
//! strategy is closed.
ghost use Rattle.std.specs.Prelude.{◌≡◌, IfOk};
ghost use Rattle.retry_quota_cell.specs.Callers.{HasMade, IsUnused, own};
ghost use Rattle.retry_quota_cell.specs.Known.{IsOf};
ghost use Rattle.cli_fleet.specs.Invoking.{RunsAll};
ghost use Rattle.cli_fleet.specs.Means.{cell_means, world_means};
ghost use Rattle.cli_fleet.specs.Working.{PlaysAll, Worked, caller_partition, partition_for};

use crate::caller_outside::CallerOutside;
use crate::gate::Gate;
use crate::invocation::{CallerTarget, CallerWorld, run_all};
use cli_shell::status::PrintStatus;
use client_builder::BuildRefusal;
use client_retries::{InterceptorMeaning, QuotaMeaning, TakeOffer};
use client_scripted::client::{operation_of, prepare};
use json_print::world::PayloadOperation;
use json_scripts::client::{ClientObject, InvocationRecord};
use outside_scripted::IdentityRecord;
use rate_limit::ClientRateLimiter;
use retry_policy::ClassifyRetry;
use retry_quota::{Limiter, Quota};
use retry_quota_cell::{At, CellBucket, CellQuota, Pass};
use smithy_types::{CustomPartition, List, OutOfMemory, RetryPartition, Shared, Text};
use std::alloc::Global;
use std::sync::Wait;

/// What a caller is to do.
#[derive(Drop)]
pub struct CallerWork {
    /// The caller's number, from 0.
    pub number: u32,
    /// Its client.
    pub client: ClientObject,
    /// The invocations of the client's operation, in order.
    pub invocations: List<InvocationRecord>,
    /// The first moment of its clock, in nanoseconds.
    pub start: u64,
    /// The random words of its outside.
    pub words: List<u64>,
}

/// What is told of a caller's invocations.
#[derive(Drop)]
pub struct Told {
    /// Their print.
    pub text: Vec<u8>,
    /// What the last one came to, if there is one.
    pub outcome: Option<PrintStatus>,
}

// The partition of a client of this service. Each bucket that it may name is the one that all
// share; its limiter is the caller's own.
fn caller_partition(
    service: &Text,
    bucket: Option<usize>,
) -> Result<Option<RetryPartition>, OutOfMemory>
    ensures { IfOk result (λ partition. partition ≡ caller_partition service.now bucket) }
{
    match bucket {
        None => Ok(None),
        Some(_) => Ok(Some(RetryPartition {
            name: service.clone()?,
            custom: Some(CustomPartition {
                bucket: 0,
                limiter: 0,
            }),
        })),
    }
}

// The operation of a caller's client, and the partition of the client.
fn named(object: &ClientObject) -> Result<(PayloadOperation, Option<RetryPartition>), OutOfMemory>
    ensures { IfOk result (λ made. made.1 ≡ partition_for object.now) }
{
    let operation = operation_of(&object.target)?;
    let partition = caller_partition(&object.target.service, object.rules.bucket)?;
    Ok((operation, partition))
}

// What is told, where the invocations were made.
fn make_told(
    outcome: Result<Option<PrintStatus>, OutOfMemory>,
    text: Vec<u8>,
) -> Result<Told, OutOfMemory>
    ensures { IfOk result (λ told. (told.text ≡ text) × (outcome ≡ Ok told.outcome)) }
{
    Ok(Told {
        text,
        outcome: outcome?,
    })
}

// Makes the invocations over the client, and prints them behind what is there.
fn run_target<'g, G: Gate, Q: Quota + Drop, C: ClassifyRetry, I: TakeOffer>(
    alloc: Global,
    operation: PayloadOperation,
    identities: List<IdentityRecord>,
    world: &mut CallerWorld<'g, G, Q, C, I>,
    invocations: List<InvocationRecord>,
    out: &mut Vec<u8>,
) -> Result<Option<PrintStatus>, OutOfMemory>
    ensures { IfOk result (λ outcome. RunsAll
        (world_means
        ⟦<Q as QuotaMeaning>⟧.means
        C.says
        ⟦<I as InterceptorMeaning>⟧.means)
        identities world.old.parts invocations out.old.items world.new.parts out.new.items
        outcome) }
{
    let identities = Shared::new(alloc, identities)?;
    let target = CallerTarget {
        operation,
        identities,
    };
    run_all(alloc, &target, world, invocations, out)
}

// Makes the invocations over the client, closes its strategy and gives its pass back.
fn make_all<'w, B: At, G: Gate, R: Wait, C: ClassifyRetry, I: TakeOffer>(
    alloc: Global,
    operation: PayloadOperation,
    identities: List<IdentityRecord>,
    mut world: CallerWorld<'w, G, CellQuota<'w, B, ClientRateLimiter, R>, C, I>,
    invocations: List<InvocationRecord>,
) -> (Result<Told, OutOfMemory>, Pass)
    ensures own { IsOf B.place result.1 }
    ensures made { HasMade (own result.1.view) result.1.view }
    ensures told { IfOk result.0 (λ told. PlaysAll B.place
        (world_means (cell_means B.place) C.says ⟦<I as InterceptorMeaning>⟧.means)
        identities world.entry.parts invocations told.text.items told.outcome
        (own result.1.view)) }
{
    let mut text = Vec::new(alloc);
    let outcome = run_target(
        alloc,
        operation,
        identities,
        &mut world,
        invocations,
        &mut text,
    );
    world.close();
    (make_told(outcome, text), pass_of(world))
}

// The pass of a client that is done.
fn pass_of<'w, B: At, G: Gate, R: Wait, C: ClassifyRetry, I: TakeOffer>(
    world: CallerWorld<'w, G, CellQuota<'w, B, ClientRateLimiter, R>, C, I>,
) -> Pass
    ensures pass { result ≡ world.entry.parts.quota.pass }
    ensures own { IsOf B.place result }
    ensures made { HasMade (own result.view) result.view }
{
    let parts = world.into_parts();
    let quota = parts.quota;
    quota.into_pass()
}

/// Does a caller's work with a pass that has made no step, and gives the pass back.
pub fn do_work<'w, B: At, G: Gate, R: Wait>(
    rt: &'w R,
    bucket: &'w CellBucket,
    pass: Pass,
    alloc: Global,
    gate: &'w G,
    work: CallerWork,
) -> (Result<Told, OutOfMemory>, Pass)
    requires place { bucket.now ≡ B.place }
    requires own { IsOf bucket.now pass }
    requires unused { IsUnused pass.view }
    ensures own { IsOf bucket.now result.1 }
    ensures made { HasMade (own result.1.view) result.1.view }
    ensures told { IfOk result.0 (λ told. Worked bucket.now work told.text.items told.outcome
        (own result.1.view)) }
{
    let CallerWork {
        number,
        client,
        invocations,
        start,
        words,
    } = work;
    let (operation, partition) = match named(&client) {
        Ok(named) => named,
        Err(error) => return (Err(error), pass),
    };
    let (builder, identities) = match prepare(alloc, client, partition) {
        Ok(prepared) => prepared,
        Err(error) => return (Err(error), pass),
    };
    let outside = CallerOutside::new(alloc, start, words, gate, number);
    let limiter = ClientRateLimiter::zero();
    let quota = CellQuota::<B, ClientRateLimiter, R>::new(rt, bucket, pass, limiter);
    match builder.build(alloc, outside, quota) {
        Ok((_, world)) => make_all(alloc, operation, identities, world, invocations),
        Err((builder, outside, quota, refusal)) => {
            drop(builder);
            drop(outside);
            (Err(want_of(refusal)), quota.into_pass())
        }
    }
}

// A build that lacks nothing is refused for want of memory alone.
fn want_of(refusal: BuildRefusal) -> OutOfMemory
    requires { refusal ≡ BuildRefusal.OutOfMemory }
{
    match refusal {
        BuildRefusal::OutOfMemory => OutOfMemory,
        BuildRefusal::Refused(_) => unreachable!(),
    }
}

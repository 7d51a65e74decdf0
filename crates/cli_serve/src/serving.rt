//! A host over a source and a sink. Its first line is the description.
ghost use Rattle.std.specs.Prelude.{◌≡◌, ◌≤◌, IfErr, IfOk, OnErr, OnOk};
ghost use Rattle.cli_serve.specs.Conversing.{Converses, IsUntold, ServesDescription, ServesHost};
ghost use Rattle.cli_serve.specs.Conversing.{ServesLine, ServesSession, place};
ghost use Rattle.cli_shell.specs.Sink.{Adds};
ghost use Rattle.json_forms.specs.Lines.{line};
ghost use Rattle.json_host.specs.Replies.{opened_data};

use crate::description::{HostDescription, SeatDescription, description_fits, read_description};
use crate::opening::{build, first_outside, served};
use cli_client::opening::open_quota;
use cli_shell::sink::Sink;
use cli_shell::source::Source;
use cli_shell::status::{Ended, Refusal, ShellStatus};
use cli_shell::streams::{SinkFault, write_all};
use client_scripted::client::prepare;
use client_scripted::partition::partition_of;
use host_session::service::{ERROR_KIND, OUTPUT_KIND};
use host_session::{HostedMeans, HostedWorld, Lines, Seat, SeatTerms, Session, talk};
use json_forms::{Arena, ReadError};
use json_host::write_opened;
use retry_quota::Registry;
use smithy_types::OutOfMemory;
use std::alloc::Global;

/// Serves a host until it closes the session or says no more.
#[tactic(auto, using(crate::proofs::ServeLemmas::took_first, crate::proofs::ServeLemmas::no_first, crate::proofs::ServeLemmas::lost_first))]
pub fn serve_host<S: Source, K: Sink>(alloc: Global, source: &mut S, sink: &mut K) -> Ended
    ensures converses { Converses result (S.view source.old) (S.view source.new) (K.view sink.old)
        (K.view sink.new) }
    ensures source_count { (S.view source.old).faults ≤ (S.view source.new).faults }
    ensures sink_count { (K.view sink.old).faults ≤ (K.view sink.new).faults }
{
    let mut lines = Lines::new(alloc);
    match lines.next(alloc, source) {
        Ok(Some(first)) => begin(alloc, first.as_slice(), &mut lines, source, sink),
        Ok(None) => Ended::Refused(Refusal::BadScript),
        Err(status) => Ended::Shell(status),
    }
}

// Reads the description, and serves its client.
#[tactic(auto, using(crate::proofs::ServeLemmas::described, crate::proofs::ServeLemmas::no_description, crate::proofs::ServeLemmas::no_memory))]
fn begin<S: Source, K: Sink>(
    alloc: Global,
    first: &[u8],
    lines: &mut Lines,
    source: &mut S,
    sink: &mut K,
) -> Ended
    ensures serves { ServesLine first.now result
        (place lines.old.unread.items (S.view source.old) (K.view sink.old))
        (place lines.new.unread.items (S.view source.new) (K.view sink.new)) }
    ensures source_count { (S.view source.old).faults ≤ (S.view source.new).faults }
    ensures sink_count { (K.view sink.old).faults ≤ (K.view sink.new).faults }
{
    let mut arena = Arena::new(alloc);
    match read_description(alloc, &mut arena, first) {
        Ok(description) => serve_described(alloc, description, &mut arena, lines, source, sink),
        Err(ReadError::Refused) => Ended::Refused(Refusal::BadScript),
        Err(ReadError::Memory) => Ended::Shell(ShellStatus::OutOfMemory),
    }
}

// Serves the host of a description, if that is within its limits.
#[tactic(auto, using(crate::proofs::ServeLemmas::served, crate::proofs::ServeLemmas::no_session, crate::proofs::ServeLemmas::too_large))]
fn serve_described<S: Source, K: Sink>(
    alloc: Global,
    description: HostDescription,
    arena: &mut Arena,
    lines: &mut Lines,
    source: &mut S,
    sink: &mut K,
) -> Ended
    ensures serves { ServesDescription description result
        (place lines.old.unread.items (S.view source.old) (K.view sink.old))
        (place lines.new.unread.items (S.view source.new) (K.view sink.new)) }
    ensures source_count { (S.view source.old).faults ≤ (S.view source.new).faults }
    ensures sink_count { (K.view sink.old).faults ≤ (K.view sink.new).faults }
{
    if !description_fits(&description) {
        return Ended::Refused(Refusal::TooLarge);
    }
    match open_and_serve(alloc, description, arena, lines, source, sink) {
        Ok(ended) => ended,
        Err(OutOfMemory) => Ended::Shell(ShellStatus::OutOfMemory),
    }
}

// Opens the session of a description, and serves it. Without memory for it nothing was read or
// written.
fn open_and_serve<S: Source, K: Sink>(
    alloc: Global,
    description: HostDescription,
    arena: &mut Arena,
    lines: &mut Lines,
    source: &mut S,
    sink: &mut K,
) -> Result<Ended, OutOfMemory>
    ensures serves { IfOk result (λ ended. ServesHost description ended
        (place lines.old.unread.items (S.view source.old) (K.view sink.old))
        (place lines.new.unread.items (S.view source.new) (K.view sink.new))) }
    ensures stays { OnErr result (place lines.new.unread.items (S.view source.new) (K.view sink.new)
        ≡ place lines.old.unread.items (S.view source.old) (K.view sink.old)) }
    ensures source_count { (S.view source.old).faults ≤ (S.view source.new).faults }
    ensures sink_count { (K.view sink.old).faults ≤ (K.view sink.new).faults }
{
    let HostDescription {
        buckets,
        start,
        seats: described,
    } = description;
    let mut quota = open_quota(alloc, buckets.as_slice())?;
    let mut seats = Vec::new(alloc);
    for seat in described.into_vec(alloc) {
        let SeatDescription {
            client,
            errors,
            retry_after,
            seed,
        } = seat;
        let service = &client.target.service;
        let partition = partition_of(alloc, service, client.rules.bucket, &mut quota)?;
        let (builder, _identities) = prepare(alloc, client, partition)?;
        let outside = first_outside(alloc, start, seed);
        let own_quota = Registry::new(alloc)?;
        let world = build(
            alloc,
            served(builder, errors),
            outside,
            own_quota,
            retry_after,
        )?;
        let terms = terms_of(seats.len() as u64);
        seats.reserve(1)?;
        seats.push_reserved(Seat {
            world,
            run: None,
            terms,
        });
    }
    let mut session = Session { seats, quota };
    Ok(greet_and_talk(alloc, &mut session, arena, lines, source, sink))
}

// What the seat of this number keeps.
fn terms_of(number: u64) -> SeatTerms
    ensures { result ≡ record { number = number; output_kind = 1; error_kind = 2 } }
{
    SeatTerms {
        number,
        output_kind: OUTPUT_KIND as u64,
        error_kind: ERROR_KIND as u64,
    }
}

// Tells the host how many seats are open, and goes on with the session.
#[tactic(auto, using(crate::proofs::ServeLemmas::mute))]
fn greet_and_talk<W: HostedWorld + Drop, S: Source, K: Sink>(
    alloc: Global,
    session: &mut Session<W>,
    arena: &mut Arena,
    lines: &mut Lines,
    source: &mut S,
    sink: &mut K,
) -> Ended
    ensures serves { ServesSession ⟦<W as HostedMeans>⟧.means session.old result
        (place lines.old.unread.items (S.view source.old) (K.view sink.old))
        (place lines.new.unread.items (S.view source.new) (K.view sink.new)) }
    ensures source_count { (S.view source.old).faults ≤ (S.view source.new).faults }
    ensures sink_count { (K.view sink.old).faults ≤ (K.view sink.new).faults }
{
    match greet(alloc, session.seats.len() as u64, sink) {
        Ok(()) => talk(alloc, session, arena, lines, source, sink),
        Err(status) => Ended::Shell(status),
    }
}

// Tells the host how many seats are open.
fn greet<K: Sink>(alloc: Global, seats: u64, sink: &mut K) -> Result<(), ShellStatus>
    ensures told { OnOk result (Adds (K.view sink.old) (line (opened_data seats))
        (K.view sink.new)) }
    ensures untold { IfErr result (λ status. IsUntold seats status (K.view sink.old)
        (K.view sink.new)) }
    ensures count { (K.view sink.old).faults ≤ (K.view sink.new).faults }
{
    let mut text = Vec::new(alloc);
    match write_opened(alloc, seats, &mut text) {
        Ok(()) => match write_all(sink, text.as_slice()) {
            Ok(()) => Ok(()),
            Err(SinkFault) => Err(ShellStatus::WriteFault),
        },
        Err(OutOfMemory) => Err(ShellStatus::OutOfMemory),
    }
}

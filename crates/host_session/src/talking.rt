//! A conversation with a host: line after line is fed to the session, and what the host is told of
//! it is written before the next one is read.
ghost use Rattle.std.specs.Prelude.{◌≡◌, ◌≤◌, IfOk, IfErr};
ghost use Rattle.host_session.specs.Talking.{Breaks, Goes, IsTold, Talks, Untold, stand};

use crate::lines::Lines;
use crate::session::{Fed, Session};
use crate::world::{HostedMeans, HostedWorld};
use cli_shell::sink::Sink;
use cli_shell::source::Source;
use cli_shell::status::{Ended, PrintStatus, ShellStatus};
use cli_shell::streams::{SinkFault, write_all};
use json_forms::Arena;
use smithy_types::OutOfMemory;
use std::alloc::Global;

/// Feeds line after line to the session, until the host closes it or says no more.
#[tactic(auto, using(crate::proofs::TalkLemmas::told_none, crate::proofs::TalkLemmas::told_more, crate::proofs::TalkLemmas::stopped_end, crate::proofs::TalkLemmas::stopped_closed, crate::proofs::TalkLemmas::broken_by, crate::proofs::TalkLemmas::stopped_full))]
pub fn talk<W: HostedWorld + Drop, S: Source, K: Sink>(
    alloc: Global,
    session: &mut Session<W>,
    arena: &mut Arena,
    lines: &mut Lines,
    source: &mut S,
    sink: &mut K,
) -> Ended
    ensures talks { Talks ⟦<W as HostedMeans>⟧.means result
        (stand session.old lines.old.unread.items (S.view source.old) (K.view sink.old))
        (stand session.new lines.new.unread.items (S.view source.new) (K.view sink.new)) }
    ensures source_count { (S.view source.old).faults ≤ (S.view source.new).faults }
    ensures sink_count { (K.view sink.old).faults ≤ (K.view sink.new).faults }
{
    for turns in 0..u64::MAX {
        match turn(alloc, session, arena, lines, source, sink) {
            Ok(Some(Fed::Open)) => {}
            Ok(Some(Fed::Closed)) => return Ended::Printed(PrintStatus::Ok),
            Ok(None) => return Ended::Printed(PrintStatus::Ok),
            Err(status) => return Ended::Shell(status),
        }
    }
    Ended::Printed(PrintStatus::Ok)
}

// Takes a line, feeds it, and writes what the host is told. None where there is no line.
#[tactic(auto, using(crate::proofs::TalkLemmas::turned, crate::proofs::TalkLemmas::ended, crate::proofs::TalkLemmas::not_read, crate::proofs::TalkLemmas::not_told))]
fn turn<W: HostedWorld + Drop, S: Source, K: Sink>(
    alloc: Global,
    session: &mut Session<W>,
    arena: &mut Arena,
    lines: &mut Lines,
    source: &mut S,
    sink: &mut K,
) -> Result<Option<Fed>, ShellStatus>
    ensures goes { IfOk result (λ come. Goes ⟦<W as HostedMeans>⟧.means come
        (stand session.old lines.old.unread.items (S.view source.old) (K.view sink.old))
        (stand session.new lines.new.unread.items (S.view source.new) (K.view sink.new))) }
    ensures breaks { IfErr result (λ status. Breaks ⟦<W as HostedMeans>⟧.means status
        (stand session.old lines.old.unread.items (S.view source.old) (K.view sink.old))
        (stand session.new lines.new.unread.items (S.view source.new) (K.view sink.new))) }
    ensures source_count { (S.view source.old).faults ≤ (S.view source.new).faults }
    ensures sink_count { (K.view sink.old).faults ≤ (K.view sink.new).faults }
{
    match lines.next(alloc, source) {
        Ok(Some(line)) => match answer(alloc, session, arena, line.as_slice(), sink) {
            Ok(come) => Ok(Some(come)),
            Err(status) => Err(status),
        },
        Ok(None) => Ok(None),
        Err(status) => Err(status),
    }
}

// Feeds a line, and writes what the host is told.
#[tactic(auto, using(crate::proofs::TalkLemmas::told, crate::proofs::TalkLemmas::lost, crate::proofs::TalkLemmas::no_memory))]
fn answer<W: HostedWorld + Drop, K: Sink>(
    alloc: Global,
    session: &mut Session<W>,
    arena: &mut Arena,
    line: &[u8],
    sink: &mut K,
) -> Result<Fed, ShellStatus>
    ensures told { IfOk result (λ come. IsTold ⟦<W as HostedMeans>⟧.means line.now session.old
        (K.view sink.old) come session.new (K.view sink.new)) }
    ensures untold { IfErr result (λ status. Untold ⟦<W as HostedMeans>⟧.means status line.now
        session.old (K.view sink.old) session.new (K.view sink.new)) }
    ensures count { (K.view sink.old).faults ≤ (K.view sink.new).faults }
{
    let mut told = Vec::new(alloc);
    match session.feed(alloc, arena, line, &mut told) {
        Ok(come) => match write_all(sink, told.as_slice()) {
            Ok(()) => Ok(come),
            Err(SinkFault) => Err(ShellStatus::WriteFault),
        },
        Err(OutOfMemory) => Err(ShellStatus::OutOfMemory),
    }
}

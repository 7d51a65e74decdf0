//! A script is played: its clients are built, its invocations are made, and something is told of
//! them.
ghost use Rattle.std.specs.Prelude.{IfOk};
ghost use Rattle.cli_client.specs.Client.{IsToldOf};
ghost use Rattle.json_scripts.specs.Client.Placed.{IsPlaced};

use crate::opening::open_quota;
use crate::report::{Report, report_on};
use cli_client_runs::{ClientSet, Notes};
use cli_shell::status::PrintStatus;
use client_scripted::build_clients;
use json_scripts::client::ClientScript;
use outside_scripted::ScriptedOutside;
use smithy_types::{List, OutOfMemory};
use std::alloc::Global;

/// What a script that was played comes to.
#[derive(Drop)]
pub(crate) struct Played {
    /// What is told of its invocations.
    pub text: Vec<u8>,
    /// What that comes to.
    pub outcome: PrintStatus,
    /// The moment of each entry, in nanoseconds, where the moments were asked for.
    pub moments: List<u64>,
}

/// Makes the script's invocations, and notes the moments of their entries where they are asked for.
pub(crate) fn play_script(
    alloc: Global,
    script: ClientScript,
    report: Report,
    notes: Notes,
) -> Result<Played, OutOfMemory>
    requires { IsPlaced script }
    ensures { IfOk result (λ played. IsToldOf report script played.text.items played.outcome) }
{
    let ClientScript {
        buckets,
        start,
        words,
        clients,
        invocations,
    } = script;
    let mut quota = open_quota(alloc, buckets.as_slice())?;
    let mut built = Vec::new(alloc);
    build_clients(alloc, clients, &mut quota, &mut built)?;
    let mut set = ClientSet {
        outside: ScriptedOutside::new(alloc, start, words),
        quota,
        clients: built,
        notes,
    };
    let (text, outcome) = report_on(alloc, &mut set, invocations, report)?;
    let ClientSet { notes, .. } = set;
    Ok(Played {
        text,
        outcome,
        moments: notes.moments,
    })
}

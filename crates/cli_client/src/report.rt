//! What is told of a script's invocations.
ghost use Rattle.std.specs.Prelude.{◌≡◌, All, length, option_map, slice_get, IfOk};
ghost use Rattle.cli_client_runs.specs.Means.{ServedBy};
ghost use Rattle.json_scripts.specs.Client.Placed.{HasClient};
ghost use Rattle.json_forms.specs.JsonData.{data_of};
ghost use Rattle.retry_quota.specs.Book.{sums_of};
ghost use Rattle.json_print.specs.Print.{line};
ghost use Rattle.cli_client.specs.Report.{Counts, Reports, made_data};

use crate::tally::{Tally, count_runs};
use cli_client_runs::ClientSet;
use cli_client_runs::print::sums_of;
use cli_shell::status::PrintStatus;
use client_retries::{InterceptorMeaning, TakeOffer};
use client_scripted::ClientQuota;
use json_forms::{Json, Row};
use json_scripts::client::InvocationRecord;
use json_values::note::print_optional_sums;
use retry_policy::ClassifyRetry;
use smithy_types::{List, OutOfMemory, Sums};
use std::alloc::Global;

/// What is told of a script's invocations.
#[derive(Clone, Copy, Debug)]
pub enum Report {
    /// All that they asked, and what is left behind them.
    Print,
    /// How many came out well, of a script that was made.
    Counts {
        /// Of so many invocations.
        count: u64,
        /// Of this seed.
        seed: u64,
    },
}

/// Makes these invocations in their order. Answers what is told of them, and what it comes to.
pub fn report_on<C: ClassifyRetry, I: TakeOffer>(
    alloc: Global,
    set: &mut ClientSet<C, I>,
    invocations: List<InvocationRecord>,
    report: Report,
) -> Result<(Vec<u8>, PrintStatus), OutOfMemory>
    requires { All (HasClient (length set.old.clients.items)) invocations }
    ensures { IfOk result (λ told. Reports
        (ServedBy C.says ⟦<I as InterceptorMeaning>⟧.means) report set.old invocations
        set.new told.0.items told.1) }
{
    match report {
        Report::Print => print(alloc, set, invocations),
        Report::Counts { count, seed } => count_all(alloc, set, invocations, count, seed),
    }
}

// Their print, with what is left behind them.
fn print<C: ClassifyRetry, I: TakeOffer>(
    alloc: Global,
    set: &mut ClientSet<C, I>,
    invocations: List<InvocationRecord>,
) -> Result<(Vec<u8>, PrintStatus), OutOfMemory>
    requires { All (HasClient (length set.old.clients.items)) invocations }
    ensures { IfOk result (λ told. Reports
        (ServedBy C.says ⟦<I as InterceptorMeaning>⟧.means) Report.Print set.old
        invocations set.new told.0.items told.1) }
{
    let mut out = Vec::new(alloc);
    let outcome = set.play(alloc, invocations, &mut out)?;
    Ok((out, outcome))
}

// Their counts.
fn count_all<C: ClassifyRetry, I: TakeOffer>(
    alloc: Global,
    set: &mut ClientSet<C, I>,
    invocations: List<InvocationRecord>,
    count: u64,
    seed: u64,
) -> Result<(Vec<u8>, PrintStatus), OutOfMemory>
    requires { All (HasClient (length set.old.clients.items)) invocations }
    ensures { IfOk result (λ told. Counts
        (ServedBy C.says ⟦<I as InterceptorMeaning>⟧.means) count seed set.old
        invocations set.new told.0.items told.1) }
{
    let tally = count_runs(alloc, set, invocations)?;
    let text = made_line(alloc, count, seed, tally, &set.quota)?;
    Ok((text, PrintStatus::Ok))
}

// The line of a made script.
fn made_line(
    alloc: Global,
    count: u64,
    seed: u64,
    tally: Tally,
    quota: &ClientQuota,
) -> Result<Vec<u8>, OutOfMemory>
    ensures { IfOk result (λ text. text.items ≡
        line (made_data count seed tally (option_map sums_of (slice_get quota.now.books 0)))) }
{
    let mut text = Vec::new(alloc);
    print_made(alloc, count, seed, tally, sums_of(quota, 0))?.write_line(alloc, &mut text)?;
    Ok(text)
}

// The counts of a made script, and the sums of its bucket.
#[tactic(auto, unfolding(crate::specs::Report::made_data))]
fn print_made(
    alloc: Global,
    count: u64,
    seed: u64,
    tally: Tally,
    sums: Option<Sums>,
) -> Result<Json, OutOfMemory>
    ensures { IfOk result (λ j. data_of j ≡ made_data count seed tally sums) }
{
    let mut row = Row::new(alloc);
    row.push(Json::text(alloc, "made")?)?;
    row.push(Json::number(count))?;
    row.push(Json::number(seed))?;
    row.push(Json::number(tally.outputs))?;
    row.push(Json::number(tally.errors))?;
    row.push(Json::number(tally.calls))?;
    row.push(print_optional_sums(alloc, sums)?)?;
    Ok(row.finish())
}

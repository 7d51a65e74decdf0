//! The print of callers, and of the bucket that they leave.
ghost use Rattle.std.specs.Prelude.{◌≡◌, ◌++◌, All, OnOk, IfOk, map};
ghost use Rattle.json_forms.specs.JsonData.{data_of};
ghost use Rattle.cli_fleet.specs.Print.{IsEnded, IsTold, TellsAll, TellsOne, caller_data};
ghost use Rattle.cli_fleet.specs.Print.{history_data, left_text, outcome_in, text_in};

use crate::caller::{CallerState, FleetCaller};
use crate::gate::Gate;
use crate::work::Told;
use cli_client_runs::print::print_bucket;
use cli_shell::status::PrintStatus;
use json_forms::Json;
use json_print::print::next_number;
use smithy_types::{OutOfMemory, Sums};
use std::alloc::Global;

// The line before a caller's invocations.
#[tactic(auto, unfolding(crate::specs::Print::caller_data))]
fn print_caller(alloc: Global, number: u64) -> Result<Json, OutOfMemory>
    ensures { IfOk result (λ j. data_of j ≡ caller_data number) }
{
    Json::pair(alloc, Json::text(alloc, "caller")?, Json::number(number))
}

// How many steps the bucket made.
#[tactic(auto, unfolding(crate::specs::Print::history_data))]
fn print_history(alloc: Global, length: u64) -> Result<Json, OutOfMemory>
    ensures { IfOk result (λ j. data_of j ≡ history_data length) }
{
    Json::pair(alloc, Json::text(alloc, "history")?, Json::number(length))
}

/// The bucket's sums behind the last step, and the number of all steps.
pub fn print_left(
    alloc: Global,
    sums: Sums,
    length: u64,
    out: &mut Vec<u8>,
) -> Result<(), OutOfMemory>
    ensures { OnOk result (out.new.items ≡ out.old.items ++ left_text sums length) }
{
    print_bucket(alloc, 0, sums)?.write_line(alloc, out)?;
    print_history(alloc, length)?.write_line(alloc, out)
}

// What is told of a caller that has ended.
fn told_of<'g, G: Gate>(caller: FleetCaller<'g, G>) -> Result<Told, OutOfMemory>
    requires { IsEnded caller.state }
    ensures told { OnOk result (IsTold caller.entry.state) }
    ensures text { IfOk result (λ told. told.text.items ≡ text_in caller.entry.state) }
    ensures outcome { IfOk result (λ told. told.outcome ≡ outcome_in caller.entry.state) }
{
    match caller.state {
        CallerState::Ended(told, _) => told,
        CallerState::Ready(_) => unreachable!(),
    }
}

// Prints a caller. Answers what the last invocation so far came to.
fn tell<'g, G: Gate>(
    alloc: Global,
    number: u64,
    caller: FleetCaller<'g, G>,
    before: PrintStatus,
    out: &mut Vec<u8>,
) -> Result<PrintStatus, OutOfMemory>
    requires { IsEnded caller.state }
    ensures { IfOk result (λ came. TellsOne number caller.entry.state before out.old.items
        out.new.items came) }
{
    let told = told_of(caller)?;
    print_caller(alloc, number)?.write_line(alloc, out)?;
    out.extend_from_slice(told.text.as_slice())?;
    Ok(told.outcome.unwrap_or(before))
}

/// Prints the callers in their order, each with its invocations. Answers what the last invocation
/// of the last caller that has one came to.
pub fn print_callers<'g, G: Gate>(
    alloc: Global,
    callers: Vec<FleetCaller<'g, G>>,
    out: &mut Vec<u8>,
) -> Result<PrintStatus, OutOfMemory>
    requires { All (λ c. IsEnded c.state) callers.items }
    ensures { IfOk result (λ came. TellsAll (map (λ c. c.state) callers.entry.items) out.old.items
        out.new.items came) }
{
    let mut number = 0;
    let mut came = PrintStatus::Ok;
    for caller in callers {
        came = tell(alloc, number, caller, came, out)?;
        number = next_number(number)?;
    }
    Ok(came)
}

//! How a run of a seat ends, and what the host is told of it.
ghost use Rattle.std.specs.Prelude.{◌≡◌, ◌++◌, ◌-◌, [], IfOk, OnOk};
ghost use Rattle.json_forms.specs.JsonData.{data_of};
ghost use Rattle.json_print.specs.Print.{ending_data};
ghost use Rattle.host_session.specs.Ending.{EndsBy, done_data, given_up_data, log_text};
ghost use Rattle.json_forms.specs.Lines.{line};

use crate::seat::SeatRun;
use json_forms::{Json, Row};
use json_print::Ending;
use json_print::ending::print_ending;
use json_print::print::print_entries;
use run_grammar::Entry;
use smithy_types::{OutOfMemory, StopPoint};
use std::alloc::Global;

/// How a run that is over ended.
#[tactic(auto, using(crate::proofs::EndingLemmas::ended, crate::proofs::EndingLemmas::stopped))]
pub fn ending_of(run: SeatRun) -> Result<Ending, OutOfMemory>
    ensures { IfOk result (λ ending. EndsBy run ending) }
{
    let SeatRun { driven, head, .. } = run;
    match head.stop {
        StopPoint::None => {
            let ending = Ending::of(driven.finish(), &head)?;
            Ok(ending)
        }
        StopPoint::BeforeTransmit => {
            let ending = Ending::of_stopped(driven.finish_stopped(), &head)?;
            Ok(ending)
        }
    }
}

/// Writes the entries, where they are asked for.
#[tactic(auto, using(json_host::proofs::Nothing::nothing_more))]
pub fn write_log(
    alloc: Global,
    is_logged: bool,
    entries: &[Entry],
    out: &mut Vec<u8>,
) -> Result<(), OutOfMemory>
    ensures { OnOk result (out.new.items ≡ out.old.items ++ log_text is_logged entries.now) }
{
    if is_logged {
        print_entries(alloc, entries, out)
    } else {
        Ok(())
    }
}

/// Writes that the run of this seat is over, behind so many calls, and how it ended.
pub fn write_done(
    alloc: Global,
    seat: u64,
    calls: u64,
    ending: &Ending,
    out: &mut Vec<u8>,
) -> Result<(), OutOfMemory>
    ensures { OnOk result (out.new.items ≡ out.old.items
        ++ line (done_data seat calls (ending_data ending.now))) }
{
    let ending = print_ending(alloc, ending)?;
    print_done(alloc, seat, calls, ending)?.write_line(alloc, out)
}

/// Writes that the run of this seat was given up, behind so many calls.
pub fn write_given_up(
    alloc: Global,
    seat: u64,
    calls: u64,
    out: &mut Vec<u8>,
) -> Result<(), OutOfMemory>
    ensures { OnOk result (out.new.items ≡ out.old.items
        ++ line (done_data seat calls given_up_data)) }
{
    let ending = print_given_up(alloc)?;
    print_done(alloc, seat, calls, ending)?.write_line(alloc, out)
}

#[tactic(auto, unfolding(crate::specs::Ending::given_up_data))]
fn print_given_up(alloc: Global) -> Result<Json, OutOfMemory>
    ensures { IfOk result (λ j. data_of j ≡ given_up_data) }
{
    Json::single(alloc, Json::text(alloc, "GivenUp")?)
}

#[tactic(auto, unfolding(crate::specs::Ending::done_data))]
fn print_done(alloc: Global, seat: u64, calls: u64, ending: Json) -> Result<Json, OutOfMemory>
    ensures { IfOk result (λ j. data_of j ≡ done_data seat calls (data_of ending)) }
{
    let mut row = Row::new(alloc);
    row.push(Json::text(alloc, "done")?)?;
    row.push(Json::number(seat))?;
    row.push(Json::number(calls))?;
    row.push(ending)?;
    Ok(row.finish())
}

//! What a host is told, a line each.
ghost use Rattle.std.specs.Prelude.{◌≡◌, ◌++◌, OnOk, IfOk};
ghost use Rattle.json_forms.specs.JsonData.{data_of};
ghost use Rattle.json_forms.specs.Prints.{null_or};
ghost use Rattle.json_values.specs.SettingForms.{timeouts_data};
ghost use Rattle.json_host.specs.Replies.{begin_data, end_data, load_data, load_text, opened_data};
ghost use Rattle.json_host.specs.Replies.{open_id, order_text, park_data, poison_data};
ghost use Rattle.json_host.specs.Replies.{poison_text, refused_data, scheme_data, told_text};
ghost use Rattle.json_forms.specs.Lines.{line};

use json_forms::forms::print_optional_number;
use json_forms::{Json, Row};
use json_values::http::print_request;
use json_values::setting::print_timeouts;
use outside_hosted::{Order, Told, ToldLoad};
use smithy_types::{OutOfMemory, TimeoutConfig};
use std::alloc::Global;

fn print_optional_timeouts(
    alloc: Global,
    timeouts: Option<TimeoutConfig>,
) -> Result<Json, OutOfMemory>
    ensures { IfOk result (λ j. data_of j ≡ null_or timeouts_data timeouts) }
{
    match timeouts {
        Some(timeouts) => print_timeouts(alloc, timeouts),
        None => Ok(Json::null()),
    }
}

// A request that is to be sent.
#[tactic(auto, unfolding(crate::specs::Replies::begin_data))]
fn print_begin(
    alloc: Global,
    seat: u64,
    call: Option<u64>,
    order: &Order,
) -> Result<Json, OutOfMemory>
    ensures { IfOk result (λ j. data_of j ≡ begin_data seat call order.now) }
{
    let mut row = Row::new(alloc);
    row.push(Json::text(alloc, "begin")?)?;
    row.push(Json::number(seat))?;
    row.push(print_optional_number(call))?;
    row.push(print_request(alloc, &order.request)?)?;
    row.push(print_optional_timeouts(alloc, order.timeouts)?)?;
    row.push(print_optional_number(order.capture))?;
    Ok(row.finish())
}

// A load that is new.
#[tactic(auto, unfolding(crate::specs::Replies::load_data))]
fn print_load(alloc: Global, seat: u64, load: &ToldLoad) -> Result<Json, OutOfMemory>
    ensures { IfOk result (λ j. data_of j ≡ load_data seat load.now.id) }
{
    let word = Json::text(alloc, "load")?;
    let id = Json::text(alloc, load.id.as_str())?;
    Json::triple(alloc, word, Json::number(seat), id)
}

// An attempt whose connection isn't used again.
#[tactic(auto, unfolding(crate::specs::Replies::poison_data))]
fn print_poison(alloc: Global, seat: u64, attempt: u64) -> Result<Json, OutOfMemory>
    ensures { IfOk result (λ j. data_of j ≡ poison_data seat attempt) }
{
    let word = Json::text(alloc, "poison")?;
    Json::triple(alloc, word, Json::number(seat), Json::number(attempt))
}

// The scheme of the open load, or null.
fn print_scheme(alloc: Global, load: &Option<ToldLoad>) -> Result<Json, OutOfMemory>
    ensures { IfOk result (λ j. data_of j ≡ scheme_data (open_id load.now)) }
{
    match load {
        Some(load) => Json::text(alloc, load.id.as_str()),
        None => Ok(Json::null()),
    }
}

// What is open, and when to wake at the latest.
#[tactic(auto, unfolding(crate::specs::Replies::park_data))]
fn print_park(alloc: Global, seat: u64, told: &Told) -> Result<Json, OutOfMemory>
    ensures { IfOk result (λ j. data_of j ≡ park_data seat told.now) }
{
    let mut row = Row::new(alloc);
    row.push(Json::text(alloc, "park")?)?;
    row.push(Json::number(seat))?;
    row.push(print_optional_number(told.call))?;
    row.push(print_scheme(alloc, &told.load)?)?;
    row.push(print_optional_number(told.wake))?;
    Ok(row.finish())
}

/// Writes whose connection isn't used again, where there is such an attempt.
#[tactic(auto, using(crate::proofs::Nothing::nothing_more))]
pub fn write_poison(
    alloc: Global,
    seat: u64,
    poisoned: Option<u64>,
    out: &mut Vec<u8>,
) -> Result<(), OutOfMemory>
    ensures { OnOk result (out.new.items ≡ out.old.items ++ poison_text seat poisoned) }
{
    match poisoned {
        Some(attempt) => print_poison(alloc, seat, attempt)?.write_line(alloc, out),
        None => Ok(()),
    }
}

#[tactic(auto, using(crate::proofs::Nothing::nothing_more))]
fn write_order(
    alloc: Global,
    seat: u64,
    call: Option<u64>,
    order: &Option<Order>,
    out: &mut Vec<u8>,
) -> Result<(), OutOfMemory>
    ensures { OnOk result (out.new.items ≡ out.old.items ++ order_text seat call order.now) }
{
    match order {
        Some(order) => print_begin(alloc, seat, call, order)?.write_line(alloc, out),
        None => Ok(()),
    }
}

#[tactic(auto, using(crate::proofs::Nothing::nothing_more))]
fn write_load(
    alloc: Global,
    seat: u64,
    load: &Option<ToldLoad>,
    out: &mut Vec<u8>,
) -> Result<(), OutOfMemory>
    ensures { OnOk result (out.new.items ≡ out.old.items ++ load_text seat load.now) }
{
    match load {
        Some(load) => {
            if load.is_new {
                print_load(alloc, seat, load)?.write_line(alloc, out)
            } else {
                Ok(())
            }
        }
        None => Ok(()),
    }
}

/// Writes what is open outside of a client that waits: what of it is new, a line each, and then the
/// line that says what is open.
#[tactic(auto, unfolding(crate::specs::Replies::told_text))]
pub fn write_told(
    alloc: Global,
    seat: u64,
    told: &Told,
    out: &mut Vec<u8>,
) -> Result<(), OutOfMemory>
    ensures { OnOk result (out.new.items ≡ out.old.items ++ told_text seat told.now) }
{
    write_poison(alloc, seat, told.poisoned, out)?;
    write_order(alloc, seat, told.call, &told.order, out)?;
    write_load(alloc, seat, &told.load, out)?;
    print_park(alloc, seat, told)?.write_line(alloc, out)
}

/// Writes that a line is refused, and why.
#[tactic(auto, unfolding(crate::specs::Replies::refused_data))]
pub fn write_refused(alloc: Global, why: &str, out: &mut Vec<u8>) -> Result<(), OutOfMemory>
    ensures { OnOk result (out.new.items ≡ out.old.items ++ line (refused_data why.now)) }
{
    Json::tagged(alloc, "refused", Json::text(alloc, why)?)?.write_line(alloc, out)
}

/// Writes how many seats there are.
#[tactic(auto, unfolding(crate::specs::Replies::opened_data))]
pub fn write_opened(alloc: Global, seats: u64, out: &mut Vec<u8>) -> Result<(), OutOfMemory>
    ensures { OnOk result (out.new.items ≡ out.old.items ++ line (opened_data seats)) }
{
    Json::tagged(alloc, "opened", Json::number(seats))?.write_line(alloc, out)
}

/// Writes that nothing more is told of the buckets.
#[tactic(auto, unfolding(crate::specs::Replies::end_data))]
pub fn write_end(alloc: Global, out: &mut Vec<u8>) -> Result<(), OutOfMemory>
    ensures { OnOk result (out.new.items ≡ out.old.items ++ line end_data) }
{
    Json::single(alloc, Json::text(alloc, "end")?)?.write_line(alloc, out)
}

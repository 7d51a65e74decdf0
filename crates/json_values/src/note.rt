//! What a world notes beside its answers.
ghost use Rattle.std.specs.Prelude.{◌≡◌, IfOk};
ghost use Rattle.json_values.specs.AnswerReadings.{choose_note_at, choice_at, indicated_at};
ghost use Rattle.json_values.specs.AnswerReadings.{action_at, reason_at, sums_at, note_at};
ghost use Rattle.json_forms.specs.Forms.{optional_at};
ghost use Rattle.json_forms.specs.JsonData.{data_of};
ghost use Rattle.json_forms.specs.Reading.{Reads};
ghost use Rattle.json_forms.specs.Prints.{null_or};
ghost use Rattle.json_values.specs.Values.{sums_data};
ghost use Rattle.json_forms.specs.View.{view};

use crate::fault::read_error_kind;
use json_forms::forms::{read_optional_number, read_tagged, read_word, says, starts};
use json_forms::{Json, ReadError, Row, Value, read};
use smithy_types::{Choice, ChooseNote, DecideNote, OutOfMemory, Reason, RetryAction, Sums};
use std::alloc::Global;

/// The sums of a bucket.
#[tactic(auto, unfolding(crate::specs::Values::sums_data))]
pub fn print_sums(alloc: Global, sums: Sums) -> Result<Json, OutOfMemory>
    ensures { IfOk result (λ j. data_of j ≡ sums_data sums) }
{
    let mut row = Row::new(alloc);
    row.push(Json::number(sums.capacity))?;
    row.push(Json::number(sums.granted))?;
    row.push(Json::number(sums.available))?;
    row.push(Json::number(sums.held))?;
    row.push(Json::number(sums.forgotten))?;
    Ok(row.finish())
}

/// Null where the quota doesn't tell its sums.
pub fn print_optional_sums(alloc: Global, sums: Option<Sums>) -> Result<Json, OutOfMemory>
    ensures { IfOk result (λ j. data_of j ≡ null_or sums_data sums) }
{
    match sums {
        Some(sums) => print_sums(alloc, sums),
        None => Ok(Json::null()),
    }
}

/// Where an identity came from.
#[tactic(auto, unfolding(crate::specs::AnswerReadings::choose_note_at))]
pub fn read_choose_note(value: &Value) -> Result<ChooseNote, ReadError>
    ensures { Reads result (choose_note_at (view value.now)) }
{
    if says("Hit", value) {
        return Ok(ChooseNote::Hit);
    }
    if says("Load", value) {
        return Ok(ChooseNote::Load);
    }
    read_word("Uncached", value)?;
    Ok(ChooseNote::Uncached)
}

/// Where an identity came from, or null.
#[tactic(auto, unfolding(json_forms::specs::View::view, json_forms::specs::Forms::optional_at))]
pub fn read_optional_choose_note(value: &Value) -> Result<Option<ChooseNote>, ReadError>
    ensures { Reads result (optional_at choose_note_at (view value.now)) }
{
    match value {
        Value::Null => Ok(None),
        _ => Ok(Some(read_choose_note(value)?)),
    }
}

/// Whether a further attempt is made.
#[tactic(auto, unfolding(crate::specs::AnswerReadings::choice_at))]
pub fn read_choice(value: &Value) -> Result<Choice, ReadError>
    ensures { Reads result (choice_at (view value.now)) }
{
    if says("Yes", value) {
        return Ok(Choice::Yes);
    }
    if says("No", value) {
        return Ok(Choice::No);
    }
    if starts("NoAfter", value) {
        let nanos = read_tagged("NoAfter", value)?;
        return Ok(Choice::NoAfter(read::number(nanos)?));
    }
    let nanos = read_tagged("Delay", value)?;
    Ok(Choice::Delay(read::number(nanos)?))
}

// A classifier's wish to try again.
#[tactic(auto, unfolding(crate::specs::AnswerReadings::indicated_at))]
fn read_indicated(value: &Value) -> Result<RetryAction, ReadError>
    ensures { Reads result (indicated_at (view value.now)) }
{
    let (tag, kind, retry_after) = read::triple(value)?;
    read_word("RetryIndicated", tag)?;
    let kind = read_error_kind(kind)?;
    let retry_after = read_optional_number(retry_after)?;
    Ok(RetryAction::RetryIndicated { kind, retry_after })
}

/// What a classifier says.
#[tactic(auto, unfolding(crate::specs::AnswerReadings::action_at))]
pub fn read_action(value: &Value) -> Result<RetryAction, ReadError>
    ensures { Reads result (action_at (view value.now)) }
{
    if says("NoActionIndicated", value) {
        return Ok(RetryAction::NoActionIndicated);
    }
    if says("RetryForbidden", value) {
        return Ok(RetryAction::RetryForbidden);
    }
    read_indicated(value)
}

/// Why a strategy chose so.
#[tactic(auto, unfolding(crate::specs::AnswerReadings::reason_at))]
pub fn read_reason(value: &Value) -> Result<Reason, ReadError>
    ensures { Reads result (reason_at (view value.now)) }
{
    if says("NotIndicated", value) {
        return Ok(Reason::NotIndicated);
    }
    if says("OutOfAttempts", value) {
        return Ok(Reason::OutOfAttempts);
    }
    if starts("NoQuota", value) {
        let cost = read::number_32(read_tagged("NoQuota", value)?)?;
        return Ok(Reason::NoQuota { cost });
    }
    let amount = read::number_32(read_tagged("Granted", value)?)?;
    Ok(Reason::Granted { amount })
}

/// The sums of a bucket.
#[tactic(auto, unfolding(crate::specs::AnswerReadings::sums_at))]
pub fn read_sums(value: &Value) -> Result<Sums, ReadError>
    ensures { Reads result (sums_at (view value.now)) }
{
    let (capacity, granted, available, held, forgotten) = read::quintuple(value)?;
    let capacity = read::number(capacity)?;
    let granted = read::number(granted)?;
    let available = read::number(available)?;
    let held = read::number(held)?;
    let forgotten = read::number(forgotten)?;
    Ok(Sums {
        capacity,
        granted,
        available,
        held,
        forgotten,
    })
}

/// The sums of a bucket, or null.
#[tactic(auto, unfolding(json_forms::specs::View::view, json_forms::specs::Forms::optional_at))]
pub fn read_optional_sums(value: &Value) -> Result<Option<Sums>, ReadError>
    ensures { Reads result (optional_at sums_at (view value.now)) }
{
    match value {
        Value::Null => Ok(None),
        _ => Ok(Some(read_sums(value)?)),
    }
}

/// What a decision was made from.
#[tactic(auto, unfolding(crate::specs::AnswerReadings::note_at))]
pub fn read_decide_note(value: &Value) -> Result<DecideNote, ReadError>
    ensures { Reads result (note_at (view value.now)) }
{
    let (verdict, moment, word, reason, sums) = read::quintuple(value)?;
    let verdict = read_action(verdict)?;
    let moment = read_optional_number(moment)?;
    let word = read::number(word)?;
    let reason = read_reason(reason)?;
    let sums = read_optional_sums(sums)?;
    Ok(DecideNote {
        verdict,
        moment,
        word,
        reason,
        sums,
    })
}

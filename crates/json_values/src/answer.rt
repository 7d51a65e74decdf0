//! Kinds of question, and answers.
ghost use Rattle.std.specs.Prelude.{◌≡◌, IfOk, Some};
ghost use Rattle.json_values.specs.AnswerReadings.{unless_done, hooked_at, hook_answer_at};
ghost use Rattle.json_values.specs.AnswerReadings.{absent_at, absence_at, waiting_at, configured_at};
ghost use Rattle.json_values.specs.AnswerReadings.{requested_at, loaded_at, initial_at, started_at};
ghost use Rattle.json_values.specs.AnswerReadings.{waited_at, chosen_at, choosing_at, resolved_at};
ghost use Rattle.json_values.specs.AnswerReadings.{connector_failed_at, transmitted_at};
ghost use Rattle.json_values.specs.AnswerReadings.{outcome_answer_at, streamed_at, body_read_at};
ghost use Rattle.json_values.specs.AnswerReadings.{noted_at, plainly_decided_at, decided_at};
ghost use Rattle.json_values.specs.AnswerReadings.{said_at, answer_at, kind_at};
ghost use Rattle.json_forms.specs.JsonData.{data_of};
ghost use Rattle.json_forms.specs.Reading.{Reads};
ghost use Rattle.json_forms.specs.View.{view};
ghost use Rattle.json_values.specs.Values.{does_nothing, hook_answer_data};

use crate::fault::{
    print_optional_change, read_connector_kind, read_optional_change, read_outcome,
};
use crate::http::{
    read_endpoint, read_identity, read_optional_endpoint, read_request, read_response,
};
use crate::names::kind_named;
use crate::note::{read_choice, read_decide_note, read_optional_choose_note};
use crate::setting::{print_layer, read_layer};
use json_forms::forms::{
    print_optional_text, read_blob, read_optional_text, read_tagged, read_word, says, starts,
};
use json_forms::{Json, ReadError, Value, read};
use run_grammar::{Answer, Chosen, Kind};
use smithy_context::{HookAnswer, HookReply};
use smithy_types::{OutOfMemory, Shared};
use std::alloc::Global;

// Whether the hook writes nothing, sets nothing and doesn't fail.
fn does_nothing(answer: &HookAnswer) -> bool
    ensures { result ≡ does_nothing answer.now }
{
    answer.does_nothing()
}

/// A hook's answer: `Done` where it does nothing.
#[tactic(auto, unfolding(crate::specs::Values::hook_answer_data))]
pub fn print_hook_answer(alloc: Global, answer: &HookAnswer) -> Result<Json, OutOfMemory>
    ensures { IfOk result (λ j. data_of j ≡ hook_answer_data answer.now) }
{
    if does_nothing(answer) {
        return Json::text(alloc, "Done");
    }
    let tag = Json::text(alloc, "Hook")?;
    let change = print_optional_change(alloc, &answer.change)?;
    let settings = print_layer(alloc, &answer.settings)?;
    let failure = print_optional_text(alloc, &answer.failure)?;
    Json::quadruple(alloc, tag, change, settings, failure)
}

// A hook's answer that does something.
#[tactic(auto, unfolding(crate::specs::AnswerReadings::hooked_at))]
fn read_hooked(alloc: Global, value: &Value) -> Result<HookAnswer, ReadError>
    ensures { Reads result (hooked_at (view value.now)) }
{
    let (tag, change, settings, failure) = read::quadruple(value)?;
    read_word("Hook", tag)?;
    let change = read_optional_change(alloc, change)?;
    let settings = read_layer(alloc, settings)?;
    let failure = read_optional_text(alloc, failure)?;
    unless_done(HookAnswer {
        change,
        settings,
        failure,
    })
}

// An answer that does nothing is written `Done`.
fn unless_done(answer: HookAnswer) -> Result<HookAnswer, ReadError>
    ensures { Reads result (unless_done answer) }
{
    if does_nothing(&answer) {
        return Err(ReadError::Refused);
    }
    Ok(answer)
}

/// A hook's answer.
#[tactic(auto, unfolding(crate::specs::AnswerReadings::hook_answer_at))]
pub fn read_hook_answer(alloc: Global, value: &Value) -> Result<HookReply, ReadError>
    ensures { Reads result (hook_answer_at (view value.now)) }
{
    if says("Done", value) {
        return Ok(HookReply::done());
    }
    Ok(HookReply::of(alloc, read_hooked(alloc, value)?)?)
}

// The answer that there is no such part.
#[tactic(auto, unfolding(crate::specs::AnswerReadings::absent_at))]
fn read_absent(value: &Value) -> Result<Answer, ReadError>
    ensures { Reads result (absent_at (view value.now)) }
{
    read_word("Absent", value)?;
    Ok(Answer::Absent)
}

// Absent, or failed with a text.
#[tactic(auto, unfolding(crate::specs::AnswerReadings::absence_at))]
fn read_absence(alloc: Global, value: &Value) -> Result<Answer, ReadError>
    ensures { Reads result (absence_at (view value.now)) }
{
    if starts("Failed", value) {
        let text = read_tagged("Failed", value)?;
        return Ok(Answer::Failed(read::text(alloc, text)?));
    }
    read_absent(value)
}

// The same, or pending.
#[tactic(auto, unfolding(crate::specs::AnswerReadings::waiting_at))]
fn read_waiting(alloc: Global, value: &Value) -> Result<Answer, ReadError>
    ensures { Reads result (waiting_at (view value.now)) }
{
    if says("Pending", value) {
        return Ok(Answer::Pending);
    }
    read_absence(alloc, value)
}

// A layer, or none.
#[tactic(auto, unfolding(crate::specs::AnswerReadings::configured_at))]
fn read_configured(alloc: Global, value: &Value) -> Result<Answer, ReadError>
    ensures { Reads result (configured_at (view value.now)) }
{
    if starts("Layer", value) {
        let part = read_tagged("Layer", value)?;
        return Ok(Answer::Layer(read_layer(alloc, part)?));
    }
    read_absence(alloc, value)
}

// A request, or none.
#[tactic(auto, unfolding(crate::specs::AnswerReadings::requested_at))]
fn read_requested(alloc: Global, value: &Value) -> Result<Answer, ReadError>
    ensures { Reads result (requested_at (view value.now)) }
{
    if starts("Request", value) {
        let part = read_tagged("Request", value)?;
        let part = read_request(alloc, part)?;
        return Ok(Answer::Request(Shared::new(alloc, part)?));
    }
    read_absence(alloc, value)
}

// A request's body, or none yet, or none.
#[tactic(auto, unfolding(crate::specs::AnswerReadings::loaded_at))]
fn read_loaded(alloc: Global, value: &Value) -> Result<Answer, ReadError>
    ensures { Reads result (loaded_at (view value.now)) }
{
    if starts("Loaded", value) {
        let part = read_tagged("Loaded", value)?;
        return Ok(Answer::Loaded(read_blob(alloc, part)?));
    }
    read_waiting(alloc, value)
}

// Whether a first attempt is made.
#[tactic(auto, unfolding(crate::specs::AnswerReadings::initial_at))]
fn read_initial(alloc: Global, value: &Value) -> Result<Answer, ReadError>
    ensures { Reads result (initial_at (view value.now)) }
{
    if says("Go", value) {
        return Ok(Answer::Go);
    }
    if says("No", value) {
        return Ok(Answer::No);
    }
    if starts("Delay", value) {
        let nanos = read_tagged("Delay", value)?;
        return Ok(Answer::Delay(read::number(nanos)?));
    }
    read_absence(alloc, value)
}

// Whether a sleep was started.
#[tactic(auto, unfolding(crate::specs::AnswerReadings::started_at))]
fn read_started(value: &Value) -> Result<Answer, ReadError>
    ensures { Reads result (started_at (view value.now)) }
{
    if says("Started", value) {
        return Ok(Answer::Started);
    }
    read_absent(value)
}

// Whether a sleep is over.
#[tactic(auto, unfolding(crate::specs::AnswerReadings::waited_at))]
fn read_waited(value: &Value) -> Result<Answer, ReadError>
    ensures { Reads result (waited_at (view value.now)) }
{
    if says("Pending", value) {
        return Ok(Answer::Pending);
    }
    read_word("Ready", value)?;
    Ok(Answer::Ready)
}

/// A scheme, an identity and what goes with them.
#[tactic(auto, unfolding(crate::specs::AnswerReadings::chosen_at))]
pub fn read_chosen(alloc: Global, value: &Value) -> Result<Chosen, ReadError>
    ensures { Reads result (chosen_at (view value.now)) }
{
    let (tag, scheme, identity, endpoint, settings, note) = read::sextuple(value)?;
    read_word("Chosen", tag)?;
    let scheme = read::text(alloc, scheme)?;
    let identity = Shared::new(alloc, read_identity(alloc, identity)?)?;
    let endpoint = read_optional_endpoint(alloc, endpoint)?;
    let settings = read_layer(alloc, settings)?;
    let note = read_optional_choose_note(note)?;
    Ok(Chosen {
        scheme,
        identity,
        endpoint,
        settings,
        note,
    })
}

// A choice, or none yet, or none.
#[tactic(auto, unfolding(crate::specs::AnswerReadings::choosing_at))]
fn read_choosing(alloc: Global, value: &Value) -> Result<Answer, ReadError>
    ensures { Reads result (choosing_at (view value.now)) }
{
    if starts("Chosen", value) {
        let chosen = read_chosen(alloc, value)?;
        return Ok(Answer::Chosen(Shared::new(alloc, chosen)?));
    }
    read_waiting(alloc, value)
}

// An endpoint, or none yet, or none.
#[tactic(auto, unfolding(crate::specs::AnswerReadings::resolved_at))]
fn read_resolved(alloc: Global, value: &Value) -> Result<Answer, ReadError>
    ensures { Reads result (resolved_at (view value.now)) }
{
    if starts("Endpoint", value) {
        let part = read_tagged("Endpoint", value)?;
        let part = read_endpoint(alloc, part)?;
        return Ok(Answer::Endpoint(Shared::new(alloc, part)?));
    }
    read_waiting(alloc, value)
}

// A failure of a connector.
#[tactic(auto, unfolding(crate::specs::AnswerReadings::connector_failed_at))]
fn read_connector_failed(alloc: Global, value: &Value) -> Result<Answer, ReadError>
    ensures { Reads result (connector_failed_at (view value.now)) }
{
    let (tag, kind, text) = read::triple(value)?;
    read_word("Failed", tag)?;
    let kind = read_connector_kind(kind)?;
    let text = read::text(alloc, text)?;
    Ok(Answer::ConnectorFailed(kind, text))
}

// A response, or none yet, or why there is none.
#[tactic(auto, unfolding(crate::specs::AnswerReadings::transmitted_at))]
fn read_transmitted(alloc: Global, value: &Value) -> Result<Answer, ReadError>
    ensures { Reads result (transmitted_at (view value.now)) }
{
    if says("Pending", value) {
        return Ok(Answer::Pending);
    }
    if starts("Response", value) {
        let response = read_tagged("Response", value)?;
        let response = read_response(alloc, response)?;
        return Ok(Answer::Response(Shared::new(alloc, response)?));
    }
    if starts("Failed", value) {
        return read_connector_failed(alloc, value);
    }
    read_absent(value)
}

// An outcome, or none.
#[tactic(auto, unfolding(crate::specs::AnswerReadings::outcome_answer_at))]
fn read_outcome_answer(alloc: Global, value: &Value) -> Result<Answer, ReadError>
    ensures { Reads result (outcome_answer_at (view value.now)) }
{
    if starts("Outcome", value) {
        let part = read_tagged("Outcome", value)?;
        let part = read_outcome(alloc, part)?;
        return Ok(Answer::Outcome(Shared::new(alloc, part)?));
    }
    read_absent(value)
}

// An outcome by the response's head alone, or that the operation doesn't stream.
#[tactic(auto, unfolding(crate::specs::AnswerReadings::streamed_at))]
fn read_streamed(alloc: Global, value: &Value) -> Result<Answer, ReadError>
    ensures { Reads result (streamed_at (view value.now)) }
{
    if says("NotStreaming", value) {
        return Ok(Answer::NotStreaming);
    }
    read_outcome_answer(alloc, value)
}

// A response's body, or none yet, or none.
#[tactic(auto, unfolding(crate::specs::AnswerReadings::body_read_at))]
fn read_body_read(alloc: Global, value: &Value) -> Result<Answer, ReadError>
    ensures { Reads result (body_read_at (view value.now)) }
{
    if starts("Read", value) {
        let part = read_tagged("Read", value)?;
        return Ok(Answer::Read(read_blob(alloc, part)?));
    }
    read_waiting(alloc, value)
}

// A decision with its note.
#[tactic(auto, unfolding(crate::specs::AnswerReadings::noted_at))]
fn read_noted(alloc: Global, value: &Value) -> Result<Answer, ReadError>
    ensures { Reads result (noted_at (view value.now)) }
{
    let (tag, choice, note) = read::triple(value)?;
    read_word("Noted", tag)?;
    let choice = read_choice(choice)?;
    let note = read_decide_note(note)?;
    Ok(Answer::Decided(choice, Some(Shared::new(alloc, note)?)))
}

// A decision without a note.
#[tactic(auto, unfolding(crate::specs::AnswerReadings::plainly_decided_at))]
fn read_plainly_decided(value: &Value) -> Result<Answer, ReadError>
    ensures { Reads result (plainly_decided_at (view value.now)) }
{
    Ok(Answer::Decided(read_choice(value)?, None))
}

// A decision, or why there is none.
#[tactic(auto, unfolding(crate::specs::AnswerReadings::decided_at))]
fn read_decided(alloc: Global, value: &Value) -> Result<Answer, ReadError>
    ensures { Reads result (decided_at (view value.now)) }
{
    if starts("Noted", value) {
        return read_noted(alloc, value);
    }
    if starts("Failed", value) || says("Absent", value) {
        return read_absence(alloc, value);
    }
    read_plainly_decided(value)
}

// That something was given up, or that a caller was parked.
fn read_done(word: &str, answer: Answer, value: &Value) -> Result<Answer, ReadError>
    ensures { Reads result (said_at word.now answer (view value.now)) }
{
    read_word(word, value)?;
    Ok(answer)
}

/// The answer to a question of this kind. One that doesn't fit the kind is refused.
#[tactic(auto, unfolding(crate::specs::AnswerReadings::answer_at))]
pub fn read_answer(alloc: Global, kind: Kind, value: &Value) -> Result<Answer, ReadError>
    ensures { Reads result (answer_at kind (view value.now)) }
{
    match kind {
        Kind::Configure(_) => read_configured(alloc, value),
        Kind::Hook(_) => Ok(Answer::Hooked(read_hook_answer(alloc, value)?)),
        Kind::Serialize => read_requested(alloc, value),
        Kind::Load => read_loaded(alloc, value),
        Kind::Initial => read_initial(alloc, value),
        Kind::Start(_) => read_started(value),
        Kind::Wait(_) => read_waited(value),
        Kind::Choose => read_choosing(alloc, value),
        Kind::Endpoint => read_resolved(alloc, value),
        Kind::Apply => read_requested(alloc, value),
        Kind::Sign => read_requested(alloc, value),
        Kind::Transmit => read_transmitted(alloc, value),
        Kind::Stream => read_streamed(alloc, value),
        Kind::Body => read_body_read(alloc, value),
        Kind::Deserialize => read_outcome_answer(alloc, value),
        Kind::Decide => read_decided(alloc, value),
        Kind::Abandon(_) => read_done("Abandoned", Answer::Abandoned, value),
        Kind::Park => read_done("Parked", Answer::Parked, value),
    }
}

/// The kind of question that is printed so.
#[tactic(auto, unfolding(crate::specs::AnswerReadings::kind_at))]
pub fn read_kind(value: &Value) -> Result<Kind, ReadError>
    ensures { Reads result (kind_at (view value.now)) }
{
    match kind_named(read::str(value)?) {
        Some(kind) => Ok(kind),
        None => Err(ReadError::Refused),
    }
}

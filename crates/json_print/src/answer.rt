//! Answers as compact JSON text.
ghost use Rattle.std.specs.Prelude.{[], ◌∷◌, OnOk, codes};
ghost use Rattle.json_forms.specs.Prints.{row, null_or};
ghost use Rattle.json_print.specs.Written.{IsWritten};
ghost use Rattle.json_values.specs.Values.{choice_data, action_data, reason_data, sums_data};
ghost use Rattle.json_values.specs.Values.{note_data, decided_data, choose_note_data, layer_data};
ghost use Rattle.json_values.specs.Values.{chosen_data, hook_answer_data, answer_data};
ghost use Rattle.json_values.specs.Values.{connector_data, request_data, response_data};
ghost use Rattle.json_values.specs.Values.{endpoint_data, outcome_data};
ghost use Rattle.serde_json.specs.Data.{string};

use crate::forms::{
    begin_tagged, write_json, write_null, write_number, write_optional_number, write_tagged_blob,
    write_tagged_number, write_tagged_text, write_text, write_word,
};
use crate::parts::{
    write_connector_kind, write_endpoint, write_error_kind, write_identity,
    write_optional_endpoint, write_outcome, write_request, write_response,
};
use json_values::answer::print_hook_answer;
use json_values::setting::print_layer;
use run_grammar::{Answer, Chosen};
use smithy_context::{HookAnswer, HookReply, Layer};
use smithy_types::{
    Choice, ChooseNote, ConnectorKind, DecideNote, Endpoint, HttpRequest, HttpResponse,
    OutOfMemory, Outcome, Reason, RetryAction, Shared, Sums, Text,
};
use std::alloc::Global;

/// An answer. What sets something is printed by a value of JSON, as it is rare.
#[tactic(auto, unfolding(json_values::specs::Values::answer_data, json::specs::Print::escape_byte))]
pub(crate) fn write_answer(
    alloc: Global,
    answer: &Answer,
    out: &mut Vec<u8>,
) -> Result<(), OutOfMemory>
    ensures { OnOk result (IsWritten (answer_data answer.now) out.old.items out.new.items) }
{
    match answer {
        Answer::Pending => write_word("Pending", out),
        Answer::Absent => write_word("Absent", out),
        Answer::Failed(text) => write_tagged_text("Failed", text, out),
        Answer::ConnectorFailed(kind, text) => write_connector_failed(*kind, text, out),
        Answer::Layer(layer) => write_layer_answer(alloc, layer, out),
        Answer::Hooked(reply) => write_hook_reply(alloc, reply, out),
        Answer::Request(request) => write_request_answer(alloc, request.get(), out),
        Answer::Loaded(bytes) => write_tagged_blob(alloc, "Loaded", bytes, out),
        Answer::Go => write_word("Go", out),
        Answer::No => write_word("No", out),
        Answer::Delay(nanos) => write_tagged_number("Delay", *nanos, out),
        Answer::Started => write_word("Started", out),
        Answer::Ready => write_word("Ready", out),
        Answer::Chosen(chosen) => write_chosen(alloc, chosen.get(), out),
        Answer::Endpoint(endpoint) => write_endpoint_answer(endpoint.get(), out),
        Answer::Response(response) => write_response_answer(alloc, response.get(), out),
        Answer::NotStreaming => write_word("NotStreaming", out),
        Answer::Outcome(outcome) => write_outcome_answer(alloc, outcome.get(), out),
        Answer::Read(bytes) => write_tagged_blob(alloc, "Read", bytes, out),
        Answer::Decided(choice, note) => write_decided(*choice, note, out),
        Answer::Abandoned => write_word("Abandoned", out),
        Answer::Parked => write_word("Parked", out),
        Answer::NoMemory => write_word("NoMemory", out),
    }
}

// What failed in a connector, and its text.
#[tactic(auto, unfolding(json::specs::Print::escape_byte))]
fn write_connector_failed(
    kind: ConnectorKind,
    text: &Text,
    out: &mut Vec<u8>,
) -> Result<(), OutOfMemory>
    ensures { OnOk result (IsWritten (row (string (codes "Failed") ∷ connector_data kind
        ∷ string text.now ∷ [])) out.old.items out.new.items) }
{
    begin_tagged("Failed", out)?;
    write_connector_kind(kind, out)?;
    out.push(b',')?;
    write_text(text.as_str(), out)?;
    out.push(b']')?;
    Ok(())
}

// The settings of a step of the configuration.
#[tactic(auto, unfolding(json::specs::Print::escape_byte))]
fn write_layer_answer(alloc: Global, layer: &Layer, out: &mut Vec<u8>) -> Result<(), OutOfMemory>
    ensures { OnOk result (IsWritten (row (string (codes "Layer") ∷ layer_data layer.now ∷ []))
        out.old.items out.new.items) }
{
    begin_tagged("Layer", out)?;
    write_layer(alloc, layer, out)?;
    out.push(b']')?;
    Ok(())
}

// A layer. Most are empty.
#[tactic(auto, unfolding(json_values::specs::Values::layer_data))]
fn write_layer(alloc: Global, layer: &Layer, out: &mut Vec<u8>) -> Result<(), OutOfMemory>
    ensures { OnOk result (IsWritten (layer_data layer.now) out.old.items out.new.items) }
{
    if layer.is_empty() {
        out.extend_from_slice(b"[]")?;
        return Ok(());
    }
    let json = print_layer(alloc, layer)?;
    write_json(alloc, &json, out)?;
    Ok(())
}

// What the interceptors of a hook did. Most do nothing.
#[tactic(auto, unfolding(json_values::specs::Values::hook_answer_data, json::specs::Print::escape_byte))]
fn write_hook_reply(alloc: Global, reply: &HookReply, out: &mut Vec<u8>) -> Result<(), OutOfMemory>
    ensures { OnOk result (IsWritten (hook_answer_data reply.now) out.old.items out.new.items) }
{
    match reply.did() {
        Some(answer) => write_hook_answer(alloc, answer, out),
        None => write_word("Done", out),
    }
}

// What a hook did.
fn write_hook_answer(
    alloc: Global,
    answer: &HookAnswer,
    out: &mut Vec<u8>,
) -> Result<(), OutOfMemory>
    ensures { OnOk result (IsWritten (hook_answer_data answer.now) out.old.items out.new.items) }
{
    let json = print_hook_answer(alloc, answer)?;
    write_json(alloc, &json, out)?;
    Ok(())
}

// The request, made or rewritten.
#[tactic(auto, unfolding(json::specs::Print::escape_byte))]
fn write_request_answer(
    alloc: Global,
    request: &HttpRequest,
    out: &mut Vec<u8>,
) -> Result<(), OutOfMemory>
    ensures { OnOk result (IsWritten (row (string (codes "Request") ∷ request_data request.now
        ∷ [])) out.old.items out.new.items) }
{
    begin_tagged("Request", out)?;
    write_request(alloc, request, out)?;
    out.push(b']')?;
    Ok(())
}

// A scheme, an identity and what goes with them.
#[tactic(auto, unfolding(json_values::specs::Values::chosen_data, json::specs::Print::escape_byte))]
fn write_chosen(alloc: Global, chosen: &Chosen, out: &mut Vec<u8>) -> Result<(), OutOfMemory>
    ensures { OnOk result (IsWritten (chosen_data chosen.now) out.old.items out.new.items) }
{
    begin_tagged("Chosen", out)?;
    write_text(chosen.scheme.as_str(), out)?;
    out.push(b',')?;
    write_identity(alloc, chosen.identity.get(), out)?;
    out.push(b',')?;
    write_optional_endpoint(&chosen.endpoint, out)?;
    out.push(b',')?;
    write_layer(alloc, &chosen.settings, out)?;
    out.push(b',')?;
    write_optional_choose_note(chosen.note, out)?;
    out.push(b']')?;
    Ok(())
}

// Null where there is no note.
#[tactic(auto, unfolding(json_values::specs::Values::choose_note_data, json::specs::Print::escape_byte))]
fn write_optional_choose_note(
    note: Option<ChooseNote>,
    out: &mut Vec<u8>,
) -> Result<(), OutOfMemory>
    ensures { OnOk result (IsWritten (null_or choose_note_data note) out.old.items out.new.items) }
{
    match note {
        Some(ChooseNote::Hit) => write_word("Hit", out),
        Some(ChooseNote::Load) => write_word("Load", out),
        Some(ChooseNote::Uncached) => write_word("Uncached", out),
        None => write_null(out),
    }
}

// Where the request goes.
#[tactic(auto, unfolding(json::specs::Print::escape_byte))]
fn write_endpoint_answer(endpoint: &Endpoint, out: &mut Vec<u8>) -> Result<(), OutOfMemory>
    ensures { OnOk result (IsWritten (row (string (codes "Endpoint") ∷ endpoint_data endpoint.now
        ∷ [])) out.old.items out.new.items) }
{
    begin_tagged("Endpoint", out)?;
    write_endpoint(endpoint, out)?;
    out.push(b']')?;
    Ok(())
}

// The response's head, with the body as far as it is there.
#[tactic(auto, unfolding(json::specs::Print::escape_byte))]
fn write_response_answer(
    alloc: Global,
    response: &HttpResponse,
    out: &mut Vec<u8>,
) -> Result<(), OutOfMemory>
    ensures { OnOk result (IsWritten (row (string (codes "Response") ∷ response_data response.now
        ∷ [])) out.old.items out.new.items) }
{
    begin_tagged("Response", out)?;
    write_response(alloc, response, out)?;
    out.push(b']')?;
    Ok(())
}

// What the attempt came to.
#[tactic(auto, unfolding(json::specs::Print::escape_byte))]
fn write_outcome_answer(
    alloc: Global,
    outcome: &Outcome,
    out: &mut Vec<u8>,
) -> Result<(), OutOfMemory>
    ensures { OnOk result (IsWritten (row (string (codes "Outcome") ∷ outcome_data outcome.now
        ∷ [])) out.old.items out.new.items) }
{
    begin_tagged("Outcome", out)?;
    write_outcome(alloc, outcome, out)?;
    out.push(b']')?;
    Ok(())
}

// A decision, with its note where it has one.
#[tactic(auto, unfolding(json_values::specs::Values::decided_data, json::specs::Print::escape_byte))]
fn write_decided(
    choice: Choice,
    note: &Option<Shared<DecideNote>>,
    out: &mut Vec<u8>,
) -> Result<(), OutOfMemory>
    ensures { OnOk result (IsWritten (decided_data choice note.now) out.old.items out.new.items) }
{
    let Some(note) = note else {
        return write_choice(choice, out);
    };
    begin_tagged("Noted", out)?;
    write_choice(choice, out)?;
    out.push(b',')?;
    write_decide_note(note.get(), out)?;
    out.push(b']')?;
    Ok(())
}

// Whether a further attempt is made.
#[tactic(auto, unfolding(json_values::specs::Values::choice_data, json::specs::Print::escape_byte))]
fn write_choice(choice: Choice, out: &mut Vec<u8>) -> Result<(), OutOfMemory>
    ensures { OnOk result (IsWritten (choice_data choice) out.old.items out.new.items) }
{
    match choice {
        Choice::Yes => write_word("Yes", out),
        Choice::No => write_word("No", out),
        Choice::NoAfter(nanos) => write_tagged_number("NoAfter", nanos, out),
        Choice::Delay(nanos) => write_tagged_number("Delay", nanos, out),
    }
}

// What a decision was made from.
#[tactic(auto, unfolding(json_values::specs::Values::note_data))]
fn write_decide_note(note: &DecideNote, out: &mut Vec<u8>) -> Result<(), OutOfMemory>
    ensures { OnOk result (IsWritten (note_data note.now) out.old.items out.new.items) }
{
    out.push(b'[')?;
    write_action(note.verdict, out)?;
    out.push(b',')?;
    write_optional_number(note.moment, out)?;
    out.push(b',')?;
    write_number(note.word, out)?;
    out.push(b',')?;
    write_reason(note.reason, out)?;
    out.push(b',')?;
    write_optional_sums(note.sums, out)?;
    out.push(b']')?;
    Ok(())
}

// What a classifier says.
#[tactic(auto, unfolding(json_values::specs::Values::action_data, json::specs::Print::escape_byte))]
fn write_action(action: RetryAction, out: &mut Vec<u8>) -> Result<(), OutOfMemory>
    ensures { OnOk result (IsWritten (action_data action) out.old.items out.new.items) }
{
    match action {
        RetryAction::NoActionIndicated => write_word("NoActionIndicated", out),
        RetryAction::RetryIndicated { kind, retry_after } => {
            begin_tagged("RetryIndicated", out)?;
            write_error_kind(kind, out)?;
            out.push(b',')?;
            write_optional_number(retry_after, out)?;
            out.push(b']')?;
            Ok(())
        }
        RetryAction::RetryForbidden => write_word("RetryForbidden", out),
    }
}

// Why a strategy chose so.
#[tactic(auto, unfolding(json_values::specs::Values::reason_data, json::specs::Print::escape_byte))]
fn write_reason(reason: Reason, out: &mut Vec<u8>) -> Result<(), OutOfMemory>
    ensures { OnOk result (IsWritten (reason_data reason) out.old.items out.new.items) }
{
    match reason {
        Reason::NotIndicated => write_word("NotIndicated", out),
        Reason::OutOfAttempts => write_word("OutOfAttempts", out),
        Reason::NoQuota { cost } => write_tagged_number("NoQuota", cost as u64, out),
        Reason::Granted { amount } => write_tagged_number("Granted", amount as u64, out),
    }
}

// Null where the quota doesn't tell its sums.
fn write_optional_sums(sums: Option<Sums>, out: &mut Vec<u8>) -> Result<(), OutOfMemory>
    ensures { OnOk result (IsWritten (null_or sums_data sums) out.old.items out.new.items) }
{
    match sums {
        Some(sums) => write_sums(sums, out),
        None => write_null(out),
    }
}

// The sums of a bucket.
#[tactic(auto, unfolding(json_values::specs::Values::sums_data))]
fn write_sums(sums: Sums, out: &mut Vec<u8>) -> Result<(), OutOfMemory>
    ensures { OnOk result (IsWritten (sums_data sums) out.old.items out.new.items) }
{
    out.push(b'[')?;
    write_number(sums.capacity, out)?;
    out.push(b',')?;
    write_number(sums.granted, out)?;
    out.push(b',')?;
    write_number(sums.available, out)?;
    out.push(b',')?;
    write_number(sums.held, out)?;
    out.push(b',')?;
    write_number(sums.forgotten, out)?;
    out.push(b']')?;
    Ok(())
}

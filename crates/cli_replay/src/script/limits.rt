//! Limits of what a script may hold.
ghost use Rattle.std.specs.Prelude.{◌≡◌, OnOk};
ghost use Rattle.std.specs.List.{list_all, list_any};
ghost use Rattle.smithy_context.specs.Setting.{same_key};
ghost use Rattle.json_scripts.specs.Texts.{fits_or_none};
ghost use Rattle.cli_replay.specs.Script.Limits.{bytes_fit, body_fits, request_fits, response_fits};
ghost use Rattle.cli_replay.specs.Script.Limits.{endpoint_header_fits, endpoint_fits, outcome_fits};
ghost use Rattle.cli_replay.specs.Script.Limits.{change_fits, setting_fits, key_fits, layer_entry_fits};
ghost use Rattle.cli_replay.specs.Script.Limits.{layer_fits, hook_answer_fits, chosen_fits, answer_fits};
ghost use Rattle.cli_replay.specs.Script.Limits.{layer_keys, with_key, with_keys, layer_of_answer};

use json_scripts::{head_fits, optional_text_fits, optional_texts_fit, text_fits, texts_fit};
use run_grammar::{Answer, Chosen};
use smithy_context::{Change, HookAnswer, HookReply, Layer, LayerEntry, Setting, SettingKey};
use smithy_types::{
    Blob, Body, Endpoint, EndpointHeader, HttpRequest, HttpResponse, List, OutOfMemory, Outcome,
    Shared,
};
use std::alloc::Global;

/// The most bytes that a body may have.
const BODY_LIMIT: usize = 16384;

#[tactic(auto, unfolding(crate::specs::Script::Limits::bytes_fit))]
fn bytes_fit(bytes: &Blob) -> bool
    ensures { result ≡ bytes_fit bytes.now }
{
    bytes.len() <= BODY_LIMIT
}

#[tactic(auto, unfolding(crate::specs::Script::Limits::body_fits))]
fn body_fits(body: &Body) -> bool
    ensures { result ≡ body_fits body.now }
{
    match body {
        Body::Bytes(bytes) => bytes_fit(bytes),
        Body::Once(bytes) => bytes_fit(bytes),
        Body::Taken => true,
    }
}

#[tactic(auto, unfolding(crate::specs::Script::Limits::request_fits))]
fn request_fits(request: &HttpRequest) -> bool
    ensures { result ≡ request_fits request.now }
{
    text_fits(&request.method)
        && text_fits(&request.uri)
        && head_fits(&request.headers)
        && body_fits(&request.body)
}

#[tactic(auto, unfolding(crate::specs::Script::Limits::response_fits))]
fn response_fits(response: &HttpResponse) -> bool
    ensures { result ≡ response_fits response.now }
{
    head_fits(&response.headers) && body_fits(&response.body)
}

fn endpoint_headers_fit(headers: &[EndpointHeader]) -> bool
    ensures { result ≡ list_all endpoint_header_fits headers.now }
{
    headers.iter().all(|header| texts_fit(&header.values))
}

#[tactic(auto, unfolding(crate::specs::Script::Limits::endpoint_fits))]
fn endpoint_fits(endpoint: &Endpoint) -> bool
    ensures { result ≡ endpoint_fits endpoint.now }
{
    text_fits(&endpoint.url)
        && endpoint_headers_fit(endpoint.headers.as_slice())
        && optional_texts_fit(&endpoint.schemes)
}

fn optional_endpoint_fits(endpoint: &Option<Shared<Endpoint>>) -> bool
    ensures { result ≡ fits_or_none endpoint_fits endpoint.now }
{
    match endpoint {
        Some(endpoint) => endpoint_fits(endpoint.get()),
        None => true,
    }
}

#[tactic(auto, unfolding(crate::specs::Script::Limits::outcome_fits))]
fn outcome_fits(outcome: &Outcome) -> bool
    ensures { result ≡ outcome_fits outcome.now }
{
    match outcome {
        Outcome::Output(_) => true,
        Outcome::Failed(fault) => text_fits(&fault.text),
    }
}

#[tactic(auto, unfolding(crate::specs::Script::Limits::change_fits))]
fn change_fits(change: &Change) -> bool
    ensures { result ≡ change_fits change.now }
{
    match change {
        Change::Input(_) => true,
        Change::Request(request) => request_fits(request.get()),
        Change::Response(response) => response_fits(response.get()),
        Change::Outcome(outcome) => outcome_fits(outcome.get()),
    }
}

fn optional_change_fits(change: &Option<Change>) -> bool
    ensures { result ≡ fits_or_none change_fits change.now }
{
    match change {
        Some(change) => change_fits(change),
        None => true,
    }
}

#[tactic(auto, unfolding(crate::specs::Script::Limits::setting_fits))]
fn setting_fits(setting: &Setting) -> bool
    ensures { result ≡ setting_fits setting.now }
{
    match setting {
        Setting::Partition(partition) => text_fits(&partition.name),
        Setting::Prefix(text) => text_fits(text),
        Setting::Preference(texts) => texts_fit(texts),
        Setting::Disable(texts) => texts_fit(texts),
        Setting::User(name, _) => text_fits(name),
        _ => true,
    }
}

#[tactic(auto, unfolding(crate::specs::Script::Limits::key_fits))]
fn key_fits(key: &SettingKey) -> bool
    ensures { result ≡ key_fits key.now }
{
    match key {
        SettingKey::User(name) => text_fits(name),
        _ => true,
    }
}

fn optional_setting_fits(setting: &Option<Shared<Setting>>) -> bool
    ensures { result ≡ fits_or_none setting_fits setting.now }
{
    match setting {
        Some(setting) => setting_fits(setting.get()),
        None => true,
    }
}

fn layer_entry_fits(entry: &LayerEntry) -> bool
    ensures { result ≡ layer_entry_fits entry.now }
{
    key_fits(&entry.key) && optional_setting_fits(&entry.value)
}

fn layer_fits(layer: &Layer) -> bool
    ensures { result ≡ layer_fits layer.now }
{
    let entries = layer.entries();
    entries.iter().all(|entry| layer_entry_fits(entry))
}

#[tactic(auto, unfolding(crate::specs::Script::Limits::hook_answer_fits))]
fn hook_answer_fits(answer: &HookAnswer) -> bool
    ensures { result ≡ hook_answer_fits answer.now }
{
    optional_change_fits(&answer.change)
        && layer_fits(&answer.settings)
        && optional_text_fits(&answer.failure)
}

// A hook that did nothing is within all limits.
#[tactic(auto, unfolding(crate::specs::Script::Limits::hook_answer_fits))]
fn hook_reply_fits(reply: &HookReply) -> bool
    ensures { result ≡ hook_answer_fits reply.now }
{
    match reply.did() {
        Some(answer) => hook_answer_fits(answer),
        None => true,
    }
}

#[tactic(auto, unfolding(crate::specs::Script::Limits::chosen_fits))]
fn chosen_fits(chosen: &Chosen) -> bool
    ensures { result ≡ chosen_fits chosen.now }
{
    text_fits(&chosen.scheme)
        && optional_endpoint_fits(&chosen.endpoint)
        && layer_fits(&chosen.settings)
}

/// Whether an answer's texts, bodies and heads are within their limits.
#[tactic(auto, unfolding(crate::specs::Script::Limits::answer_fits))]
pub fn answer_fits(answer: &Answer) -> bool
    ensures { result ≡ answer_fits answer.now }
{
    match answer {
        Answer::Failed(text) => text_fits(text),
        Answer::ConnectorFailed(_, text) => text_fits(text),
        Answer::Layer(layer) => layer_fits(layer),
        Answer::Hooked(reply) => hook_reply_fits(reply),
        Answer::Request(request) => request_fits(request.get()),
        Answer::Loaded(bytes) => bytes_fit(bytes),
        Answer::Chosen(chosen) => chosen_fits(chosen.get()),
        Answer::Endpoint(endpoint) => endpoint_fits(endpoint.get()),
        Answer::Response(response) => response_fits(response.get()),
        Answer::Outcome(outcome) => outcome_fits(outcome.get()),
        Answer::Read(bytes) => bytes_fit(bytes),
        _ => true,
    }
}

fn has_key(keys: &[SettingKey], key: &SettingKey) -> bool
    ensures { result ≡ list_any (same_key key.now) keys.now }
{
    keys.iter().any(|other| *key == *other)
}

// Adds a key, where it isn't there.
fn add_key(alloc: Global, keys: &mut List<SettingKey>, key: &SettingKey) -> Result<(), OutOfMemory>
    ensures { OnOk result (keys.new ≡ with_key keys.old key.now) }
{
    if has_key(keys.as_slice(), key) {
        return Ok(());
    }
    keys.push(alloc, key.clone()?)
}

#[tactic(auto, using(crate::proofs::script::Keys::key_adding))]
fn add_entries(
    alloc: Global,
    keys: &mut List<SettingKey>,
    entries: &[LayerEntry],
) -> Result<(), OutOfMemory>
    ensures { OnOk result (keys.new ≡ with_keys keys.old (layer_keys entries.now)) }
{
    for entry in entries {
        add_key(alloc, keys, &entry.key)?;
    }
    Ok(())
}

/// Adds the keys of the layer that an answer sets, where they aren't there.
pub fn add_keys(
    alloc: Global,
    keys: &mut List<SettingKey>,
    answer: &Answer,
) -> Result<(), OutOfMemory>
    ensures { OnOk result (keys.new ≡
        with_keys keys.old (layer_keys (layer_of_answer answer.now))) }
{
    match answer {
        Answer::Layer(layer) => add_entries(alloc, keys, layer.entries()),
        Answer::Hooked(reply) => match reply.did() {
            Some(answer) => add_entries(alloc, keys, answer.settings.entries()),
            None => Ok(()),
        },
        Answer::Chosen(chosen) => add_entries(alloc, keys, chosen.get().settings.entries()),
        _ => Ok(()),
    }
}

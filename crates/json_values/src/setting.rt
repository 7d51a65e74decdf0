//! Settings and layers.
ghost use Rattle.std.specs.Prelude.{◌≡◌, IfOk, IfErr, OnOk};
ghost use Rattle.json_forms.specs.Forms.{optional_at};
ghost use Rattle.json_forms.specs.JsonData.{data_of};
ghost use Rattle.json_forms.specs.Lists.{list_of};
ghost use Rattle.json_forms.specs.Reading.{Reads};
ghost use Rattle.json_values.specs.SettingForms.{timeouts_data, spec_data, retry_data, stall_data};
ghost use Rattle.json_values.specs.SettingForms.{value_data, timeouts_at, version_at, spec_at};
ghost use Rattle.json_values.specs.SettingForms.{mode_at, reconnect_at, retry_at, stall_at};
ghost use Rattle.json_values.specs.SettingForms.{marked, setting_at};
ghost use Rattle.json_values.specs.SettingReadings.{user_key, key_of_text};
ghost use Rattle.json_values.specs.SettingReadings.{layer_entry_at, layer_at};
ghost use Rattle.json_forms.specs.declared.read.ReadError.TheVariants.{Memory};
ghost use Rattle.json_forms.specs.View.{view, items_view};
ghost use Rattle.json_forms.specs.Prints.{null_or};
ghost use Rattle.json_values.specs.Values.{key_text, layer_entry_data, layer_data};
ghost use Rattle.serde_json.specs.Data.{string};

use crate::names::{
    mode_name, mode_named, reconnect_name, reconnect_named, version_name, version_named,
};
use json_forms::forms::{
    print_blob, print_optional_number, print_texts, read_blob, read_optional_number, read_texts,
    read_true, read_word,
};
use json_forms::lists::named_once;
use json_forms::{Json, ReadError, Row, Value, read};
use smithy_context::{Layer, LayerEntry, Setting, SettingKey};
use smithy_types::{
    List, OutOfMemory, ReconnectMode, RetryConfig, RetryMode, RetryPartition, RetrySpec,
    RetrySpecVersion, Shared, StalledStreamProtectionConfig, Text, TimeoutConfig,
};
use std::alloc::Global;

/// The four deadlines.
#[tactic(auto, unfolding(crate::specs::SettingForms::timeouts_data))]
pub fn print_timeouts(alloc: Global, timeouts: TimeoutConfig) -> Result<Json, OutOfMemory>
    ensures { IfOk result (λ j. data_of j ≡ timeouts_data timeouts) }
{
    Json::quadruple(
        alloc,
        print_optional_number(timeouts.connect),
        print_optional_number(timeouts.read),
        print_optional_number(timeouts.operation),
        print_optional_number(timeouts.attempt),
    )
}

/// Null where there is no specification.
#[tactic(auto, unfolding(crate::specs::SettingForms::spec_data))]
pub fn print_optional_spec(alloc: Global, spec: Option<RetrySpec>) -> Result<Json, OutOfMemory>
    ensures { IfOk result (λ j. data_of j ≡ null_or spec_data spec) }
{
    match spec {
        Some(spec) => Json::triple(
            alloc,
            Json::text(alloc, version_name(spec.version))?,
            Json::boolean(spec.long_polling),
            Json::number(spec.non_throttling_initial_backoff),
        ),
        None => Ok(Json::null()),
    }
}

/// How an operation is retried.
#[tactic(auto, unfolding(crate::specs::SettingForms::retry_data))]
pub fn print_retry(alloc: Global, retry: RetryConfig) -> Result<Json, OutOfMemory>
    ensures { IfOk result (λ j. data_of j ≡ retry_data retry) }
{
    let mut row = Row::new(alloc);
    row.push(Json::text(alloc, mode_name(retry.mode))?)?;
    row.push(Json::number(retry.max_attempts as u64))?;
    row.push(Json::number(retry.initial_backoff))?;
    row.push(Json::number(retry.max_backoff))?;
    row.push(Json::text(alloc, reconnect_name(retry.reconnect))?)?;
    row.push(Json::boolean(retry.static_base))?;
    row.push(print_optional_spec(alloc, retry.spec)?)?;
    Ok(row.finish())
}

/// Whether streams that stall are given up.
#[tactic(auto, unfolding(crate::specs::SettingForms::stall_data))]
pub fn print_stall(alloc: Global, stall: StalledStreamProtectionConfig) -> Result<Json, OutOfMemory>
    ensures { IfOk result (λ j. data_of j ≡ stall_data stall) }
{
    let upload = Json::boolean(stall.upload);
    let download = Json::boolean(stall.download);
    Json::triple(alloc, upload, download, Json::number(stall.grace_period))
}

/// A setting's value. A mark's is true.
#[tactic(auto, unfolding(crate::specs::SettingForms::value_data))]
pub fn print_value(alloc: Global, setting: &Setting) -> Result<Json, OutOfMemory>
    ensures { IfOk result (λ j. data_of j ≡ value_data setting.now) }
{
    match setting {
        Setting::Timeouts(value) => print_timeouts(alloc, *value),
        Setting::Retry(value) => print_retry(alloc, *value),
        Setting::Stall(value) => print_stall(alloc, *value),
        Setting::LoadBody(value) => Ok(Json::boolean(*value)),
        Setting::Partition(value) => Json::text(alloc, value.name.as_str()),
        Setting::Bucket(value) => Ok(Json::number(*value as u64)),
        Setting::Prefix(value) => Json::text(alloc, value.as_str()),
        Setting::Preference(value) => print_texts(alloc, value),
        Setting::V2 => Ok(Json::boolean(true)),
        Setting::EndpointParams => Ok(Json::boolean(true)),
        Setting::AuthParams => Ok(Json::boolean(true)),
        Setting::EnforceLength => Ok(Json::boolean(true)),
        Setting::Disable(value) => print_texts(alloc, value),
        Setting::Capture(value) => Ok(Json::number(*value)),
        Setting::Poisoned(value) => Ok(Json::number(*value)),
        Setting::Upload => Ok(Json::boolean(true)),
        Setting::User(_, value) => print_blob(alloc, value),
    }
}

/// A setting's key.
pub fn print_key(alloc: Global, key: &SettingKey) -> Result<Json, OutOfMemory>
    ensures { IfOk result (λ j. data_of j ≡ string (key_text key.now)) }
{
    match key {
        SettingKey::User(name) => Json::joined(alloc, "user.", name.as_str()),
        key => Json::text(alloc, key.name()),
    }
}

/// Null where the key is marked as unset.
pub fn print_optional_value(
    alloc: Global,
    value: &Option<Shared<Setting>>,
) -> Result<Json, OutOfMemory>
    ensures { IfOk result (λ j. data_of j ≡ null_or value_data value.now) }
{
    match value {
        Some(value) => print_value(alloc, value.get()),
        None => Ok(Json::null()),
    }
}

/// What a layer says of one key.
#[tactic(auto, unfolding(crate::specs::Values::layer_entry_data))]
pub fn print_layer_entry(alloc: Global, entry: &LayerEntry) -> Result<Json, OutOfMemory>
    ensures { IfOk result (λ j. data_of j ≡ layer_entry_data entry.now) }
{
    let key = print_key(alloc, &entry.key)?;
    Json::pair(alloc, key, print_optional_value(alloc, &entry.value)?)
}

/// A layer, in the order in which its keys were first put.
#[tactic(auto, unfolding(crate::specs::Values::layer_data))]
pub fn print_layer(alloc: Global, layer: &Layer) -> Result<Json, OutOfMemory>
    ensures { IfOk result (λ j. data_of j ≡ layer_data layer.now) }
{
    let entries = layer.entries();
    let mut row = Row::new(alloc);
    for entry in entries {
        row.push(print_layer_entry(alloc, entry)?)?;
    }
    Ok(row.finish())
}

/// The four deadlines.
#[tactic(auto, unfolding(crate::specs::SettingForms::timeouts_at))]
pub fn read_timeouts(value: &Value) -> Result<TimeoutConfig, ReadError>
    ensures { Reads result (timeouts_at (view value.now)) }
{
    let (connect, reading, operation, attempt) = read::quadruple(value)?;
    let connect = read_optional_number(connect)?;
    let reading = read_optional_number(reading)?;
    let operation = read_optional_number(operation)?;
    let attempt = read_optional_number(attempt)?;
    Ok(TimeoutConfig {
        connect,
        read: reading,
        operation,
        attempt,
    })
}

/// A specification of retries.
#[tactic(auto, unfolding(crate::specs::SettingForms::spec_at))]
pub fn read_spec(value: &Value) -> Result<RetrySpec, ReadError>
    ensures { Reads result (spec_at (view value.now)) }
{
    let (version, long_polling, backoff) = read::triple(value)?;
    let version = read_version(version)?;
    let long_polling = read::boolean(long_polling)?;
    let non_throttling_initial_backoff = read::number(backoff)?;
    Ok(RetrySpec {
        version,
        long_polling,
        non_throttling_initial_backoff,
    })
}

/// A specification of retries, or null.
#[tactic(auto, unfolding(json_forms::specs::View::view, json_forms::specs::Forms::optional_at))]
pub fn read_optional_spec(value: &Value) -> Result<Option<RetrySpec>, ReadError>
    ensures { Reads result (optional_at spec_at (view value.now)) }
{
    match value {
        Value::Null => Ok(None),
        _ => Ok(Some(read_spec(value)?)),
    }
}

#[tactic(auto, unfolding(crate::specs::SettingForms::version_at))]
fn read_version(value: &Value) -> Result<RetrySpecVersion, ReadError>
    ensures { Reads result (version_at (view value.now)) }
{
    match version_named(read::str(value)?) {
        Some(version) => Ok(version),
        None => Err(ReadError::Refused),
    }
}

#[tactic(auto, unfolding(crate::specs::SettingForms::mode_at))]
fn read_mode(value: &Value) -> Result<RetryMode, ReadError>
    ensures { Reads result (mode_at (view value.now)) }
{
    match mode_named(read::str(value)?) {
        Some(mode) => Ok(mode),
        None => Err(ReadError::Refused),
    }
}

#[tactic(auto, unfolding(crate::specs::SettingForms::reconnect_at))]
fn read_reconnect(value: &Value) -> Result<ReconnectMode, ReadError>
    ensures { Reads result (reconnect_at (view value.now)) }
{
    match reconnect_named(read::str(value)?) {
        Some(mode) => Ok(mode),
        None => Err(ReadError::Refused),
    }
}

/// How an operation is retried.
#[tactic(auto, unfolding(crate::specs::SettingForms::retry_at))]
pub fn read_retry(value: &Value) -> Result<RetryConfig, ReadError>
    ensures { Reads result (retry_at (view value.now)) }
{
    let (mode, attempts, initial, longest, reconnect, base, spec) = read::septuple(value)?;
    let mode = read_mode(mode)?;
    let max_attempts = read::number_32(attempts)?;
    let initial_backoff = read::number(initial)?;
    let max_backoff = read::number(longest)?;
    let reconnect = read_reconnect(reconnect)?;
    let static_base = read::boolean(base)?;
    let spec = read_optional_spec(spec)?;
    Ok(RetryConfig {
        mode,
        max_attempts,
        initial_backoff,
        max_backoff,
        reconnect,
        static_base,
        spec,
    })
}

/// Whether streams that stall are given up.
#[tactic(auto, unfolding(crate::specs::SettingForms::stall_at))]
pub fn read_stall(value: &Value) -> Result<StalledStreamProtectionConfig, ReadError>
    ensures { Reads result (stall_at (view value.now)) }
{
    let (upload, download, grace_period) = read::triple(value)?;
    let upload = read::boolean(upload)?;
    let download = read::boolean(download)?;
    let grace_period = read::number(grace_period)?;
    Ok(StalledStreamProtectionConfig {
        upload,
        download,
        grace_period,
    })
}

// A mark.
fn read_mark(mark: Setting, value: &Value) -> Result<Setting, ReadError>
    ensures { Reads result (marked mark (view value.now)) }
{
    read_true(value)?;
    Ok(mark)
}

/// The value of a key's setting.
#[tactic(auto, unfolding(crate::specs::SettingForms::setting_at))]
pub fn read_setting(alloc: Global, key: &SettingKey, value: &Value) -> Result<Setting, ReadError>
    ensures { Reads result (setting_at key.now (view value.now)) }
{
    match key {
        SettingKey::Timeouts => Ok(Setting::Timeouts(read_timeouts(value)?)),
        SettingKey::Retry => Ok(Setting::Retry(read_retry(value)?)),
        SettingKey::Stall => Ok(Setting::Stall(read_stall(value)?)),
        SettingKey::LoadBody => Ok(Setting::LoadBody(read::boolean(value)?)),
        SettingKey::Partition => {
            let name = read::text(alloc, value)?;
            Ok(Setting::Partition(RetryPartition::new(name)))
        }
        SettingKey::Bucket => Ok(Setting::Bucket(read::number_32(value)?)),
        SettingKey::Prefix => Ok(Setting::Prefix(read::text(alloc, value)?)),
        SettingKey::Preference => Ok(Setting::Preference(read_texts(alloc, value)?)),
        SettingKey::V2 => read_mark(Setting::V2, value),
        SettingKey::EndpointParams => read_mark(Setting::EndpointParams, value),
        SettingKey::AuthParams => read_mark(Setting::AuthParams, value),
        SettingKey::EnforceLength => read_mark(Setting::EnforceLength, value),
        SettingKey::Disable => Ok(Setting::Disable(read_texts(alloc, value)?)),
        SettingKey::Capture => Ok(Setting::Capture(read::number(value)?)),
        SettingKey::Poisoned => Ok(Setting::Poisoned(read::number(value)?)),
        SettingKey::Upload => read_mark(Setting::Upload, value),
        SettingKey::User(name) => {
            let bytes = read_blob(alloc, value)?;
            Ok(Setting::User(name.clone()?, bytes))
        }
    }
}

/// The value of a key's setting, or null for the mark that the key is unset.
#[tactic(auto, unfolding(json_forms::specs::View::view, json_forms::specs::Forms::optional_at))]
pub fn read_optional_setting(
    alloc: Global,
    key: &SettingKey,
    value: &Value,
) -> Result<Option<Shared<Setting>>, ReadError>
    ensures { Reads result (optional_at (setting_at key.now) (view value.now)) }
{
    match value {
        Value::Null => Ok(None),
        _ => {
            let setting = read_setting(alloc, key, value)?;
            Ok(Some(Shared::new(alloc, setting)?))
        }
    }
}

// A key of the caller's own.
#[tactic(auto, unfolding(crate::specs::SettingReadings::user_key))]
fn user_key(alloc: Global, text: &str) -> Result<SettingKey, ReadError>
    ensures { Reads result (user_key text.now) }
{
    match text.strip_prefix("user.") {
        Some(name) => Ok(SettingKey::User(Text::from_str(alloc, name)?)),
        None => Err(ReadError::Refused),
    }
}

/// The key that is printed so.
#[tactic(auto, unfolding(crate::specs::SettingReadings::key_of_text))]
pub fn key_named(alloc: Global, text: &str) -> Result<SettingKey, ReadError>
    ensures { Reads result (key_of_text text.now) }
{
    match SettingKey::named(text) {
        Some(key) => Ok(key),
        None => user_key(alloc, text),
    }
}

/// What a layer says of one key.
#[tactic(auto, unfolding(crate::specs::SettingReadings::layer_entry_at))]
pub fn read_layer_entry(alloc: Global, value: &Value) -> Result<LayerEntry, ReadError>
    ensures { Reads result (layer_entry_at (view value.now)) }
{
    let (key, value) = read::pair(value)?;
    let key = key_named(alloc, read::str(key)?)?;
    let value = read_optional_setting(alloc, &key, value)?;
    Ok(LayerEntry { key, value })
}

/// A layer, each key of which stands once.
#[tactic(auto, unfolding(crate::specs::SettingReadings::layer_at), using(crate::proofs::LayerReading::entries_differ))]
pub fn read_layer(alloc: Global, value: &Value) -> Result<Layer, ReadError>
    ensures { Reads result (layer_at (view value.now)) }
{
    let items = read::items(value)?;
    named_once(alloc, items)?;
    let entries = layer_entries(alloc, items)?;
    Ok(Layer::of_entries(entries))
}

#[tactic(auto, using(json_forms::proofs::ReadLists::list_reading))]
fn layer_entries(alloc: Global, items: &[Value]) -> Result<List<LayerEntry>, ReadError>
    ensures { Reads result (list_of layer_entry_at (items_view items.now)) }
{
    let mut list = List::new();
    for value in items {
        match read_layer_entry(alloc, value) {
            Ok(entry) => list.push(alloc, entry)?,
            Err(error) => return Err(error),
        }
    }
    Ok(list)
}

//! The plugins of a client: what it sets beside what its builder does.
ghost use Rattle.std.specs.Prelude.{◌≡◌, ◌∷◌, [], IfOk, OnOk, option_map};
ghost use Rattle.client_builder.specs.ClientLayer.{putting};
ghost use Rattle.client_builder.specs.Plugins.{no_draft};
ghost use Rattle.client_scripted.specs.Parts.{plugin_layer, plugins_of, with_v2};

use client_builder::Plugin;
use json_scripts::client::ClientFlags;
use smithy_base::ComponentsDraft;
use smithy_context::{Layer, Setting, SettingKey};
use smithy_types::{List, OutOfMemory, RetryPartition, Text};
use std::alloc::Global;

/// The plugins of a client with this partition, prefix and preference.
pub(crate) fn own_plugins(
    alloc: Global,
    partition: Option<RetryPartition>,
    prefix: Option<Text>,
    preference: Option<List<Text>>,
    flags: ClientFlags,
) -> Result<List<Plugin>, OutOfMemory>
    ensures { IfOk result (λ list. list ≡
        plugins_of (plugin_layer partition prefix preference flags.v2) flags.enforce) }
{
    let layer = plugin_layer(alloc, partition, prefix, preference, flags.v2)?;
    plugins_of(alloc, layer, flags)
}

// The plugins of a client: its own settings, and that the length of responses is held to their
// headers, where it is.
fn plugins_of(alloc: Global, layer: Layer, flags: ClientFlags) -> Result<List<Plugin>, OutOfMemory>
    ensures { IfOk result (λ list. list ≡ plugins_of layer flags.enforce) }
{
    let mut list = List::new();
    list.push(alloc, Plugin::Static(layer, no_parts()))?;
    if flags.enforce {
        list.push(alloc, Plugin::EnforceContentLength)?;
    }
    Ok(list)
}

// A plugin's draft without any part.
fn no_parts() -> ComponentsDraft
    ensures { result ≡ no_draft }
{
    ComponentsDraft {
        sleep: false,
        time: false,
        client: false,
    }
}

// A client's own settings: its custom partition, its prefix and its preference, where it has them,
// and V2 unset, where it is off.
#[tactic(auto, unfolding(crate::specs::Parts::plugin_layer))]
fn plugin_layer(
    alloc: Global,
    partition: Option<RetryPartition>,
    prefix: Option<Text>,
    preference: Option<List<Text>>,
    v2: bool,
) -> Result<Layer, OutOfMemory>
    ensures { IfOk result (λ layer. layer ≡ plugin_layer partition prefix preference v2) }
{
    let mut layer = Layer::new();
    put_partition(alloc, &mut layer, partition)?;
    put_prefix(alloc, &mut layer, prefix)?;
    put_preference(alloc, &mut layer, preference)?;
    put_v2(alloc, &mut layer, v2)?;
    Ok(layer)
}

fn put_partition(
    alloc: Global,
    layer: &mut Layer,
    partition: Option<RetryPartition>,
) -> Result<(), OutOfMemory>
    ensures { OnOk result (layer.new ≡ putting (option_map Setting.Partition partition) layer.old) }
{
    match partition {
        Some(partition) => layer.put(alloc, Setting::Partition(partition)),
        None => Ok(()),
    }
}

fn put_prefix(alloc: Global, layer: &mut Layer, prefix: Option<Text>) -> Result<(), OutOfMemory>
    ensures { OnOk result (layer.new ≡ putting (option_map Setting.Prefix prefix) layer.old) }
{
    match prefix {
        Some(prefix) => layer.put(alloc, Setting::Prefix(prefix)),
        None => Ok(()),
    }
}

fn put_preference(
    alloc: Global,
    layer: &mut Layer,
    preference: Option<List<Text>>,
) -> Result<(), OutOfMemory>
    ensures { OnOk result (layer.new ≡
        putting (option_map Setting.Preference preference) layer.old) }
{
    match preference {
        Some(preference) => layer.put(alloc, Setting::Preference(preference)),
        None => Ok(()),
    }
}

// Unsets V2 where it is off.
fn put_v2(alloc: Global, layer: &mut Layer, v2: bool) -> Result<(), OutOfMemory>
    ensures { OnOk result (layer.new ≡ with_v2 v2 layer.old) }
{
    if v2 {
        return Ok(());
    }
    layer.unset(alloc, SettingKey::V2)
}

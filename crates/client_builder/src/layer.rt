//! What a client's step of the configuration sets.
ghost use Rattle.std.specs.Prelude.{◌≡◌, [], IfOk, OnOk, option_map};
ghost use Rattle.std.specs.List.{flat_map};
ghost use Rattle.smithy_context.specs.Layer.{merged};
ghost use Rattle.client_builder.specs.ClientLayer.{mark, merged_layer, putting, with_own};
ghost use Rattle.client_builder.specs.ClientLayer.{with_set};
ghost use Rattle.client_builder.specs.Plugins.{entries_of};

use crate::{OperationBuilder, Plugin};
use auth_endpoint::AuthScheme;
use identity_cell::ResolveIdentity;
use smithy_context::{Layer, LayerEntry, Setting};
use smithy_types::{
    OutOfMemory, RetryConfig, RetryPartition, StalledStreamProtectionConfig, Text, TimeoutConfig,
};
use std::alloc::Global;

impl<I, O, E, A: AuthScheme, R: ResolveIdentity, Z, D> OperationBuilder<I, O, E, A, R, Z, D> {
    /// What the setters, the build and the plugins set, in the order in which they do.
    #[tactic(auto, unfolding(crate::specs::ClientLayer::merged_layer))]
    pub(crate) fn merged_layer(&self, alloc: Global, name: &Text) -> Result<Layer, OutOfMemory>
        ensures { IfOk result (λ layer. layer ≡ merged_layer name.now self.now) }
    {
        let mut layer = Layer::new();
        self.put_own(&mut layer, alloc, name)?;
        put_plugins(&mut layer, alloc, self.plugins.as_slice())?;
        Ok(layer)
    }

    fn put_own(&self, layer: &mut Layer, alloc: Global, name: &Text) -> Result<(), OutOfMemory>
        ensures { OnOk result (layer.new ≡ with_own name.now self.now layer.old) }
    {
        self.put_set(layer, alloc)?;
        let partition = RetryPartition::new(name.clone()?);
        put_setting(layer, alloc, Some(Setting::Partition(partition)))?;
        put_setting(layer, alloc, Some(Setting::V2))?;
        Ok(())
    }

    // Puts what the setters set.
    fn put_set(&self, layer: &mut Layer, alloc: Global) -> Result<(), OutOfMemory>
        ensures { OnOk result (layer.new ≡ with_set self.now layer.old) }
    {
        put_setting(layer, alloc, timeouts(self.timeouts))?;
        put_setting(layer, alloc, retry(self.retry))?;
        put_setting(layer, alloc, stall(self.stall))?;
        let has_endpoint = self.endpoint_url.is_some();
        put_setting(layer, alloc, mark(Setting::EndpointParams, has_endpoint))?;
        put_setting(layer, alloc, mark(Setting::AuthParams, self.no_auth))?;
        Ok(())
    }
}

fn timeouts(timeouts: Option<TimeoutConfig>) -> Option<Setting>
    ensures { result ≡ option_map Setting.Timeouts timeouts }
{
    match timeouts {
        Some(timeouts) => Some(Setting::Timeouts(timeouts)),
        None => None,
    }
}

fn retry(retry: Option<RetryConfig>) -> Option<Setting>
    ensures { result ≡ option_map Setting.Retry retry }
{
    match retry {
        Some(retry) => Some(Setting::Retry(retry)),
        None => None,
    }
}

fn stall(stall: Option<StalledStreamProtectionConfig>) -> Option<Setting>
    ensures { result ≡ option_map Setting.Stall stall }
{
    match stall {
        Some(stall) => Some(Setting::Stall(stall)),
        None => None,
    }
}

// A mark, where it is wanted.
fn mark(setting: Setting, wanted: bool) -> Option<Setting>
    ensures { result ≡ mark setting wanted }
{
    if wanted { Some(setting) } else { None }
}

// Puts the setting, where there is one.
fn put_setting(
    layer: &mut Layer,
    alloc: Global,
    setting: Option<Setting>,
) -> Result<(), OutOfMemory>
    ensures { OnOk result (layer.new ≡ putting setting layer.old) }
{
    match setting {
        Some(setting) => layer.put(alloc, setting),
        None => Ok(()),
    }
}

// Puts what the plugins set, in their order.
fn put_plugins(layer: &mut Layer, alloc: Global, plugins: &[Plugin]) -> Result<(), OutOfMemory>
    ensures { OnOk result (layer.new ≡ merged layer.old (flat_map entries_of plugins.now)) }
{
    for plugin in plugins {
        put_entries(layer, alloc, entries_of(plugin))?;
    }
    Ok(())
}

// What a plugin says of settings.
fn entries_of(plugin: &Plugin) -> &[LayerEntry]
    ensures { result.now ≡ entries_of plugin.now }
{
    match plugin {
        Plugin::Static(layer, _) => layer.entries(),
        _ => &[],
    }
}

// Puts these entries, in their order.
fn put_entries(layer: &mut Layer, alloc: Global, entries: &[LayerEntry]) -> Result<(), OutOfMemory>
    ensures { OnOk result (layer.new ≡ merged layer.old entries.now) }
{
    for entry in entries {
        layer.set(alloc, entry.clone()?)?;
    }
    Ok(())
}

//! The settings of a run: layers, and the run's own state above them.
ghost use Rattle.std.specs.Prelude.{◌≡◌, [], ◌∷◌, ◌++◌, length, IfOk, OnOk, OnErr, option_and_then};
ghost use Rattle.std.specs.Prelude.{option_copied};
ghost use Rattle.smithy_context.specs.Settings.{no_layers, with_layer, with_merged, last_entry};
ghost use Rattle.smithy_context.specs.Settings.{loaded};
ghost use Rattle.smithy_context.specs.Layer.{mentioned, merged};

use crate::{Layer, LayerEntry, Setting, SettingKey};
use smithy_types::{List, OutOfMemory, Shared};
use std::alloc::{AllocError, Global};
use std::marker::Model;

/// A layer that is no longer written.
#[derive(Debug, Drop)]
pub struct FrozenLayer {
    layer: Layer,
}

impl Model for FrozenLayer {
    ghost use Rattle.std.specs.Prelude.{List};
    ghost use Rattle.smithy_context.specs.declared.layer.LayerEntry.{LayerEntry};

    ghost Value = { List LayerEntry };

    ghost view = { λ f. f.layer };
}

impl Layer {
    /// The same layer, no longer writable. It takes no memory.
    pub fn freeze(self) -> FrozenLayer
        ensures { result ≡ self }
    {
        FrozenLayer { layer: self }
    }
}

impl FrozenLayer {
    /// The key's value. None where the key is unset or not mentioned.
    pub fn load(&self, key: &SettingKey) -> Option<&Setting>
        ensures { option_copied result ≡ option_and_then (λ v. v) (mentioned self.now key.now) }
    {
        self.layer.load(key)
    }
}

#[derive(Debug, Drop)]
struct Layers {
    pushed: List<Shared<Layer>>,
    state: Layer,
}

/// Layers of settings with a state layer on top. It is shared: a copy costs the same however much
/// is set.
#[derive(Debug, Drop)]
pub struct Settings {
    held: Option<Shared<Layers>>,
}

impl Model for Settings {
    ghost use Rattle.smithy_context.specs.StandingLayers.{StandingLayers};

    ghost Value = { StandingLayers };

    ghost use Rattle.smithy_context.specs.SettingsView.{standing_of};

    ghost view = { λ s. standing_of s.held };
}

impl Settings {
    /// No settings. It takes no memory.
    pub fn new() -> Settings
        ensures { result ≡ no_layers }
    {
        Settings { held: None }
    }

    /// Puts the layer last below the state layer.
    pub fn push_layer(&mut self, alloc: Global, layer: FrozenLayer) -> Result<(), OutOfMemory>
        ensures ok { OnOk result (self.new ≡ with_layer self.old layer) }
        ensures err { OnErr result (self.new ≡ self.old) }
    {
        let (mut pushed, state) = self.copies()?;
        pushed.push(alloc, Shared::new(alloc, layer.layer)?)?;
        self.held = Some(Shared::new(alloc, Layers { pushed, state })?);
        Ok(())
    }

    /// Makes each key that the layer mentions stand so in the state layer.
    pub fn merge(&mut self, alloc: Global, layer: &Layer) -> Result<(), OutOfMemory>
        ensures ok { OnOk result (self.new ≡ with_merged self.old layer.now) }
        ensures err { OnErr result (self.new ≡ self.old) }
    {
        if layer.is_empty() {
            return Ok(());
        }
        let (pushed, mut state) = self.copies()?;
        put_all(alloc, &mut state, layer.entries())?;
        self.held = Some(Shared::new(alloc, Layers { pushed, state })?);
        Ok(())
    }

    /// The value of the last layer that mentions the key, the state layer being the last of all.
    /// None where that layer holds the key unset, or no layer mentions it.
    pub fn load(&self, key: &SettingKey) -> Option<&Setting>
        ensures { option_copied result ≡ loaded self.now key.now }
    {
        let Some(layers) = &self.held else {
            return None;
        };
        let layers = layers.get();
        let found = match layers.state.find(key) {
            Some(entry) => Some(entry),
            None => find_last(layers.pushed.as_slice(), key),
        };
        value_of(found)
    }

    // Copies that may be written.
    fn copies(&self) -> Result<(List<Shared<Layer>>, Layer), OutOfMemory>
        ensures { IfOk result (λ p. (p.0 ≡ self.now.pushed) × (p.1 ≡ self.now.state)) }
    {
        match &self.held {
            Some(layers) => {
                let layers = layers.get();
                Ok((layers.pushed.clone()?, layers.state.clone()?))
            }
            None => Ok((List::new(), Layer::new())),
        }
    }
}

impl Clone for Settings {
    ghost is_clone = { λ settings copy. copy ≡ settings };

    fn clone(&self) -> Result<Settings, AllocError> {
        match &self.held {
            Some(layers) => Ok(Settings {
                held: Some(layers.clone()?),
            }),
            None => Ok(Settings { held: None }),
        }
    }
}

// Puts the entries into the layer, in their order.
fn put_all(alloc: Global, layer: &mut Layer, entries: &[LayerEntry]) -> Result<(), OutOfMemory>
    ensures { OnOk result (layer.new ≡ merged layer.old entries.now) }
{
    for entry in entries {
        layer.set(alloc, entry.clone()?)?;
    }
    Ok(())
}

// What the last of the layers that mentions the key says of it.
fn find_last<'a>(layers: &'a [Shared<Layer>], key: &SettingKey) -> Option<&'a LayerEntry>
    ensures { option_copied result ≡ last_entry layers.now key.now }
{
    let mut rest = layers;
    while let Some((last, below)) = rest.split_last() {
        if let Some(entry) = last.get().find(key) {
            return Some(entry);
        }
        rest = below;
    }
    None
}

fn value_of(entry: Option<&LayerEntry>) -> Option<&Setting>
    ensures { option_copied result ≡ option_and_then (λ e. e.value) (option_copied entry.entry) }
{
    match &entry?.value {
        Some(value) => Some(value.get()),
        None => None,
    }
}

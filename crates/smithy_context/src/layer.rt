//! Layers of settings.
ghost use Rattle.std.specs.Prelude.{◌≡◌, [], ◌==◌, true, length, IfSome, ◌<◌, IfOk, OnOk, OnErr};
ghost use Rattle.std.specs.Prelude.{option_and_then, option_map, option_copied, Some, None, find};
ghost use Rattle.std.specs.Prelude.{position};
ghost use Rattle.smithy_context.specs.Setting.{key_of};
ghost use Rattle.smithy_context.specs.Layer.{mentioned, put_entry, entry, entry_at, is_at};
ghost use Rattle.smithy_context.specs.Layer.{keys_once, merged};

use crate::{Setting, SettingKey};
use smithy_types::{List, OutOfMemory, Shared};
use std::alloc::{AllocError, Global};
use std::marker::Model;

/// What a layer says of one key: a value, or that the key is unset.
#[derive(Debug, Drop)]
pub struct LayerEntry {
    /// The key.
    pub key: SettingKey,
    /// None is the mark Unset, which hides what lower layers say.
    pub value: Option<Shared<Setting>>,
}

impl Clone for LayerEntry {
    ghost is_clone = { λ entry copy. copy ≡ entry };

    fn clone(&self) -> Result<LayerEntry, AllocError> {
        let value = match &self.value {
            Some(value) => Some(value.clone()?),
            None => None,
        };
        Ok(LayerEntry {
            key: self.key.clone()?,
            value,
        })
    }
}

/// Settings by their keys, in the order in which the keys were first put. Each key stands once.
#[derive(Debug, Drop)]
pub struct Layer {
    entries: List<LayerEntry>,
}

impl Model for Layer {
    ghost use Rattle.std.specs.Prelude.{List};
    ghost use Rattle.smithy_context.specs.declared.layer.LayerEntry.{LayerEntry};

    ghost Value = { List LayerEntry };

    ghost use Rattle.std.specs.Prelude.{◌≡◌, true};
    ghost use Rattle.smithy_context.specs.Layer.{keys_once};

    ghost view = { λ l. l.entries };

    ghost invariant = { λ l. keys_once l.entries ≡ true };
}

impl Layer {
    /// The layer that mentions no key. It takes no memory.
    pub fn new() -> Layer
        ensures { result ≡ [] }
    {
        Layer {
            entries: List::new(),
        }
    }

    /// The layer of these entries, no key of which stands twice: put one after another, they are
    /// this list. It takes no memory.
    #[tactic(auto, using(crate::proofs::LookingLemmas::merged_keys_once))]
    pub fn of_entries(entries: List<LayerEntry>) -> Layer
        requires { merged [] entries ≡ entries }
        ensures { result ≡ entries }
    {
        Layer { entries }
    }

    /// What the layer says, in the order in which the keys were first put. Each key stands once.
    pub fn entries(&self) -> &[LayerEntry]
        ensures value { result.now ≡ self.now }
        ensures once { keys_once self.now ≡ true }
    {
        self.entries.as_slice()
    }

    /// Whether the layer mentions no key.
    pub fn is_empty(&self) -> bool
        ensures { result ≡ (length self.now == 0) }
    {
        self.entries.is_empty()
    }

    /// Gives the setting's key this value. Other keys stay as they are.
    pub fn put(&mut self, alloc: Global, setting: Setting) -> Result<(), OutOfMemory>
        ensures ok { OnOk result (self.new ≡
            put_entry self.old (entry (key_of setting) (Some setting))) }
        ensures err { OnErr result (self.new ≡ self.old) }
    {
        let key = setting.key()?;
        let value = Some(Shared::new(alloc, setting)?);
        self.set(alloc, LayerEntry { key, value })
    }

    /// Marks the key as unset. Other keys stay as they are.
    pub fn unset(&mut self, alloc: Global, key: SettingKey) -> Result<(), OutOfMemory>
        ensures ok { OnOk result (self.new ≡ put_entry self.old (entry key None)) }
        ensures err { OnErr result (self.new ≡ self.old) }
    {
        self.set(alloc, LayerEntry { key, value: None })
    }

    /// The key's value. None where the key is unset or not mentioned.
    pub fn load(&self, key: &SettingKey) -> Option<&Setting>
        ensures { option_copied result ≡ option_and_then (λ v. v) (mentioned self.now key.now) }
    {
        match self.find(key) {
            Some(entry) => match &entry.value {
                Some(value) => Some(value.get()),
                None => None,
            },
            None => None,
        }
    }

    /// What the layer says of the key, where it mentions it.
    pub fn find(&self, key: &SettingKey) -> Option<&LayerEntry>
        ensures { option_copied result ≡ entry_at self.now key.now }
    {
        self.entries().iter().find(|entry| entry.key == *key)
    }

    /// Puts an entry in the place of its key's, or at the end.
    #[tactic(auto, using(crate::proofs::LookingLemmas::keeps_once))]
    pub fn set(&mut self, alloc: Global, entry: LayerEntry) -> Result<(), OutOfMemory>
        ensures ok { OnOk result (self.new ≡ put_entry self.old entry) }
        ensures err { OnErr result (self.new ≡ self.old) }
    {
        match put_into(&mut self.entries, alloc, entry) {
            Ok(()) => Ok(()),
            Err(error) => Err(error),
        }
    }
}

// Puts an entry in the place of its key's, or at the end.
fn put_into(
    entries: &mut List<LayerEntry>,
    alloc: Global,
    entry: LayerEntry,
) -> Result<(), OutOfMemory>
    ensures ok { OnOk result (entries.new ≡ put_entry entries.old entry) }
    ensures err { OnErr result (entries.new ≡ entries.old) }
{
    let place = place_of(entries.as_slice(), &entry.key);
    match place {
        Some(index) => {
            entries.replace(index, entry);
            Ok(())
        }
        None => entries.push(alloc, entry),
    }
}

// Where the key's entry stands.
fn place_of(entries: &[LayerEntry], key: &SettingKey) -> Option<usize>
    ensures place { result ≡ position (is_at key.now) entries.now }
    ensures bound { IfSome result (λ i. i < length entries.now) }
{
    entries.iter().position(|entry| entry.key == *key)
}

impl Clone for Layer {
    ghost is_clone = { λ layer copy. copy ≡ layer };

    fn clone(&self) -> Result<Layer, AllocError> {
        Ok(Layer {
            entries: self.entries.clone()?,
        })
    }
}

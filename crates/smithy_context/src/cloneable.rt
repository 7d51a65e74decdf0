//! A layer that is still written, and can be copied.
ghost use Rattle.std.specs.Prelude.{◌≡◌, [], OnOk, OnErr, option_and_then, option_copied, Some};
ghost use Rattle.std.specs.Prelude.{None};
ghost use Rattle.smithy_context.specs.Setting.{key_of};
ghost use Rattle.smithy_context.specs.Layer.{mentioned, put_entry, entry};

use crate::{FrozenLayer, Layer, Setting, SettingKey};
use smithy_types::OutOfMemory;
use std::alloc::{AllocError, Global};
use std::marker::Model;

/// A layer that is still written. All settings can be copied, so any layer is one; the name is
/// that of the Rust crate.
#[derive(Debug, Drop)]
pub struct CloneableLayer {
    layer: Layer,
}

impl Model for CloneableLayer {
    ghost use Rattle.std.specs.Prelude.{List};
    ghost use Rattle.smithy_context.specs.declared.layer.LayerEntry.{LayerEntry};

    ghost Value = { List LayerEntry };

    ghost view = { λ c. c.layer };
}

impl CloneableLayer {
    /// The layer that mentions no key. It takes no memory.
    pub fn new() -> CloneableLayer
        ensures { result ≡ [] }
    {
        CloneableLayer {
            layer: Layer::new(),
        }
    }

    /// Gives the setting's key this value. Other keys stay as they are.
    pub fn put(&mut self, alloc: Global, setting: Setting) -> Result<(), OutOfMemory>
        ensures ok { OnOk result (self.new ≡
            put_entry self.old (entry (key_of setting) (Some setting))) }
        ensures err { OnErr result (self.new ≡ self.old) }
    {
        self.layer.put(alloc, setting)
    }

    /// Marks the key as unset. Other keys stay as they are.
    pub fn unset(&mut self, alloc: Global, key: SettingKey) -> Result<(), OutOfMemory>
        ensures ok { OnOk result (self.new ≡ put_entry self.old (entry key None)) }
        ensures err { OnErr result (self.new ≡ self.old) }
    {
        self.layer.unset(alloc, key)
    }

    /// The key's value. None where the key is unset or not mentioned.
    pub fn load(&self, key: &SettingKey) -> Option<&Setting>
        ensures { option_copied result ≡ option_and_then (λ v. v) (mentioned self.now key.now) }
    {
        self.layer.load(key)
    }

    /// The same layer, no longer writable. It takes no memory.
    pub fn freeze(self) -> FrozenLayer
        ensures { result ≡ self }
    {
        self.layer.freeze()
    }
}

impl Clone for CloneableLayer {
    ghost is_clone = { λ layer copy. copy ≡ layer };

    fn clone(&self) -> Result<CloneableLayer, AllocError> {
        Ok(CloneableLayer {
            layer: self.layer.clone()?,
        })
    }
}

//! A partition table that threads share.
ghost use Rattle.std.specs.Prelude.{◌≡◌};

use crate::PartitionTable;
use smithy_types::OutOfMemory;
use std::alloc::Global;
use std::hash::Hash;
use std::sync::{Mutex, Wait};

/// A partition table that callers on many threads share. Each call has the table to itself.
#[derive(Drop)]
pub struct StaticPartitionMap<K: Eq + Hash, V> {
    table: Mutex<PartitionTable<K, V>>,
}

impl<K: Eq + Hash, V> StaticPartitionMap<K, V> {
    /// The map without keys. It takes no memory.
    pub fn new() -> StaticPartitionMap<K, V> {
        StaticPartitionMap {
            table: Mutex::new(PartitionTable::new()),
        }
    }

    /// A clone of the key's value, or None where the key isn't there.
    pub fn get(&self, rt: &impl Wait, alloc: Global, key: K) -> Result<Option<V>, OutOfMemory>
    where
        K: Drop,
        V: Clone,
        requires { (v copy : V) → V.is_clone v copy → copy ≡ v }
    {
        self.table.lock(rt).get(alloc, &key)
    }

    /// A clone of the key's value. A new key goes last with what `init` gives, which is called for
    /// a new key alone.
    pub fn get_or_init<F: FnOnce() -> V + Drop>(
        &self,
        rt: &impl Wait,
        alloc: Global,
        key: K,
        init: F,
    ) -> Result<V, OutOfMemory>
    where
        K: Drop,
        V: Clone + Drop,
        requires clones { (v copy : V) → V.is_clone v copy → copy ≡ v }
        requires init { F.pre init }
    {
        self.table.lock(rt).get_or_init(alloc, key, init)
    }

    /// A clone of the key's value. A new key goes last with the default value.
    pub fn get_or_init_default(
        &self,
        rt: &impl Wait,
        alloc: Global,
        key: K,
    ) -> Result<V, OutOfMemory>
    where
        K: Drop,
        V: Clone + Default + Drop,
        requires { (v copy : V) → V.is_clone v copy → copy ≡ v }
    {
        self.table.lock(rt).get_or_init_default(alloc, key)
    }
}

/// The same as `new`.
impl<K: Eq + Hash, V> Default for StaticPartitionMap<K, V> {
    fn default() -> StaticPartitionMap<K, V> {
        StaticPartitionMap::new()
    }
}

//! Values by their retry partitions.
ghost use Rattle.std.specs.Prelude.{◌≡◌, ◌++◌, ◌∷◌, [], None, IfOk, IfSome, OnOk, OnErr};
ghost use Rattle.std.specs.Map.{lookup};

use indexmap::IndexMap;
use smithy_types::OutOfMemory;
use std::alloc::Global;
use std::hash::Hash;
use std::marker::Model;

/// Values by their partition keys, in the order in which the keys came. A key keeps its first
/// value.
#[derive(Drop)]
pub struct PartitionTable<K: Eq + Hash, V> {
    map: Option<IndexMap<K, V>>,
}

/// A table is seen as its pairs of key and value in order.
impl<K: Eq + Hash, V> Model for PartitionTable<K, V> {
    ghost use Rattle.std.specs.Prelude.{List, []};
    ghost use Rattle.std.specs.Option.{option_map_or};

    ghost Value = { List (K × V) };

    ghost view = { λ t. option_map_or (λ m. m.entries) t.map [] };
}

impl<K: Eq + Hash, V> PartitionTable<K, V> {
    /// The table without keys. It takes no memory.
    pub fn new() -> PartitionTable<K, V>
        ensures { result ≡ [] }
    {
        PartitionTable { map: None }
    }

    /// A clone of the key's value, or None where the key isn't there.
    pub fn get(&self, _alloc: Global, key: &K) -> Result<Option<V>, OutOfMemory>
    where
        V: Clone,
        requires { (v copy : V) → V.is_clone v copy → copy ≡ v }
        ensures { IfOk result (λ found. found ≡ lookup (K.eq key.now) self.now) }
    {
        let Some(map) = &self.map else {
            return Ok(None);
        };
        match map.get(key) {
            Some(value) => Ok(Some(value.clone()?)),
            None => Ok(None),
        }
    }

    /// A clone of the key's value. A new key goes last with what `init` gives, which is called for
    /// a new key alone.
    pub fn get_or_init<F: FnOnce() -> V + Drop>(
        &mut self,
        alloc: Global,
        key: K,
        init: F,
    ) -> Result<V, OutOfMemory>
    where
        K: Drop,
        V: Clone + Drop,
        requires clones { (v copy : V) → V.is_clone v copy → copy ≡ v }
        requires init { lookup (K.eq key) self.old ≡ None → F.pre init }
        ensures known { IfSome (lookup (K.eq key) self.old)
            (λ value. IfOk result (λ v. (v ≡ value) × (self.new ≡ self.old))) }
        ensures added { IfOk result (λ v. lookup (K.eq key) self.old ≡ None → F.post init v
            × (self.new ≡ self.old ++ (key, v) ∷ [])) }
        ensures err { OnErr result (self.new ≡ self.old) }
    {
        if let Some(value) = self.get(alloc, &key)? {
            return Ok(value);
        }
        self.add(alloc, key, init())
    }

    // A clone of the key's value. A new key goes last with the default value.
    pub(crate) fn get_or_init_default(&mut self, alloc: Global, key: K) -> Result<V, OutOfMemory>
    where
        K: Drop,
        V: Clone + Default + Drop,
        requires { (v copy : V) → V.is_clone v copy → copy ≡ v }
        ensures known { IfSome (lookup (K.eq key) self.old)
            (λ value. IfOk result (λ v. (v ≡ value) × (self.new ≡ self.old))) }
        ensures added { IfOk result (λ v. lookup (K.eq key) self.old ≡ None → V.is_default v
            × (self.new ≡ self.old ++ (key, v) ∷ [])) }
        ensures err { OnErr result (self.new ≡ self.old) }
    {
        if let Some(known) = self.get(alloc, &key)? {
            return Ok(known);
        }
        self.add(alloc, key, V::default())
    }

    // Adds a new key with this value, and answers a clone of it.
    pub(crate) fn add(&mut self, alloc: Global, key: K, value: V) -> Result<V, OutOfMemory>
    where
        K: Drop,
        V: Clone + Drop,
        requires clones { (v copy : V) → V.is_clone v copy → copy ≡ v }
        requires new { lookup (K.eq key) self.old ≡ None }
        ensures copy { IfOk result (λ v. v ≡ value) }
        ensures ok { OnOk result (self.new ≡ self.old ++ (key, value) ∷ []) }
        ensures err { OnErr result (self.new ≡ self.old) }
    {
        let copy = value.clone()?;
        if let Some(known) = &mut self.map {
            known.insert(key, value)?;
            return Ok(copy);
        }
        let mut map = IndexMap::new(alloc);
        map.insert(key, value)?;
        self.map = Some(map);
        Ok(copy)
    }
}

/// The same as `new`.
impl<K: Eq + Hash, V> Default for PartitionTable<K, V> {
    ghost is_default = { λ t. t ≡ [] };

    fn default() -> PartitionTable<K, V> {
        PartitionTable::new()
    }
}

//! Maps with texts as keys.
ghost use Rattle.std.specs.Prelude.{◌≡◌, ◌&&◌, [], true, map, IfOk, OnOk};
ghost use Rattle.std.specs.BTreeMap.{insert_entry};
ghost use Rattle.std.specs.List.{list_all};
ghost use Rattle.serde_json.specs.Data.{no_members, object};
ghost use Rattle.serde_json.specs.View.{view, members_view};
ghost use Rattle.json_payloads.specs.Maps.{entry_fits, entry_of, gather, is_sorted, key_cmp, put_all};
ghost use Rattle.json_payloads.specs.Reading.{Reads};

use crate::{JsonForm, Object, ReadError, Refusal, Value};
use serde_json::Map;
use smithy_types::OutOfMemory;
use std::alloc::Global;
use std::marker::Model;

/// A map with texts as keys, in the order of their bytes.
#[derive(Debug, Drop)]
pub struct TextMap<T> {
    entries: Map<String, T>,
}

impl<T> Model for TextMap<T> {
    ghost use Rattle.std.specs.Prelude.{List, ℕ, map};
    ghost use Rattle.json_payloads.specs.Maps.{entry_of};

    ghost Value = { List (List ℕ × T) };

    ghost view = { λ m. map entry_of m.entries.entries };
}

impl<T> TextMap<T> {
    /// The map without entries.
    pub fn new(alloc: Global) -> TextMap<T>
        ensures { result ≡ [] }
    {
        TextMap {
            entries: Map::new(alloc),
        }
    }

    /// Sets the value of a key. `OutOfMemory` where there is no memory for it.
    #[tactic(auto, using(crate::proofs::Entries::entries_inserted))]
    pub fn insert(&mut self, alloc: Global, key: &str, value: T) -> Result<(), OutOfMemory>
    where
        T: Drop,
        ensures { OnOk result (self.new ≡ insert_entry key_cmp self.old key.now value) }
    {
        let key = String::from_str(alloc, key)?;
        self.entries.insert(key, value)?;
        Ok(())
    }

    /// The entries.
    pub fn as_map(&self) -> &Map<String, T>
        ensures { map entry_of result.now.entries ≡ self.now }
    {
        &self.entries
    }
}

impl<T: JsonForm + Drop> JsonForm for TextMap<T> {
    ghost use Rattle.json_payloads.specs.Maps.{text_map};

    ghost form = { text_map T.form };

    fn print(&self, alloc: Global) -> Result<Value, OutOfMemory> {
        print_entries(alloc, &self.entries)
    }

    fn read(alloc: Global, value: &Value) -> Result<TextMap<T>, ReadError> {
        match value.as_object() {
            Some(members) => read_entries(alloc, members),
            None => Err(ReadError::Refused(Refusal::WrongType)),
        }
    }
}

// The object of these entries.
#[tactic(auto, using(crate::proofs::Entries::entries_printed))]
fn print_entries<T: JsonForm>(alloc: Global, entries: &Map<String, T>) -> Result<Value, OutOfMemory>
    ensures value { IfOk result (λ v. view v
        ≡ object (put_all T.form.prints (map entry_of entries.now.entries) no_members)) }
    ensures fits { IfOk result (λ _. (is_sorted (map entry_of entries.now.entries)
        && list_all (entry_fits T.form.fits) (map entry_of entries.now.entries)) ≡ true) }
{
    let mut object = Object::new(alloc);
    for (key, value) in entries.iter() {
        object.put(key.as_str(), value)?;
    }
    Ok(object.finish())
}

// The entries of an object.
#[tactic(auto, using(crate::proofs::Entries::entries_read))]
fn read_entries<T: JsonForm + Drop>(
    alloc: Global,
    members: &Map<String, Value>,
) -> Result<TextMap<T>, ReadError>
    ensures { Reads result (gather T.form.reads (members_view members.now.entries) []) }
{
    let mut found = TextMap::new(alloc);
    for (key, value) in members.iter() {
        match T::read(alloc, value) {
            Ok(item) => found.insert(alloc, key.as_str(), item)?,
            Err(error) => return Err(error),
        }
    }
    Ok(found)
}

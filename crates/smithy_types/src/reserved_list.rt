//! Lists that say how many more items they can take without memory.
ghost use Rattle.std.specs.Prelude.{◌≡◌, ◌∷◌, [], ◌++◌, ◌+◌, ◌<◌, ◌≤◌, ◌==◌, length, OnOk, OnErr};

use crate::OutOfMemory;
use std::alloc::Global;
use std::marker::Model;

/// A list that grows at its end, and the room that was made for more items. An empty one is
/// made without an allocator.
#[derive(Drop)]
pub struct ReservedList<T> {
    items: Option<Vec<T>>,
}

impl<T> Model for ReservedList<T> {
    ghost use Rattle.smithy_types.specs.Reserved.{Reserved, reserved_of};

    ghost Value = { Reserved T };

    ghost view = { λ l. reserved_of l.items };
}

impl<T> ReservedList<T> {
    ghost use Rattle.smithy_types.specs.Reserved.{nothing_reserved};

    /// No item, and no room. It takes no memory.
    pub fn new() -> ReservedList<T>
        ensures { result ≡ nothing_reserved }
    {
        ReservedList { items: None }
    }

    /// Makes sure that there is room for so many items more.
    pub fn reserve(&mut self, alloc: Global, count: usize) -> Result<(), OutOfMemory>
    where
        T: Drop,
        ensures items { self.new.items ≡ self.old.items }
        ensures ok { OnOk result (count ≤ self.new.room) }
        ensures err { OnErr result (self.new.room ≡ self.old.room) }
    {
        match &mut self.items {
            Some(items) => {
                items.reserve(count)?;
                Ok(())
            }
            None => {
                let mut items = Vec::new(alloc);
                items.reserve(count)?;
                self.items = Some(items);
                Ok(())
            }
        }
    }

    /// Adds an item at the end. There is room for it, so this takes no memory.
    pub fn push_reserved(&mut self, item: T)
    where
        T: Drop,
        requires { 0 < self.old.room }
        ensures items { self.new.items ≡ self.old.items ++ item ∷ [] }
        ensures room { self.new.room + 1 ≡ self.old.room }
    {
        if let Some(items) = &mut self.items {
            items.push_reserved(item);
        }
    }

    /// The items.
    pub fn as_slice(&self) -> &[T]
        ensures { result.now ≡ self.now.items }
    {
        match &self.items {
            Some(items) => items.as_slice(),
            None => &[],
        }
    }

    /// How many items there are.
    pub fn len(&self) -> usize
        ensures { result ≡ length self.now.items }
    {
        self.as_slice().len()
    }

    /// Whether there is none.
    pub fn is_empty(&self) -> bool
        ensures { result ≡ (length self.now.items == 0) }
    {
        self.as_slice().is_empty()
    }
}

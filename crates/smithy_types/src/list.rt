//! Lists that are made without an allocator.
ghost use Rattle.std.specs.List.{AllZip};
ghost use Rattle.std.specs.Prelude.{◌≡◌, ◌<◌, slice_set, [], ◌∷◌, ◌++◌, length, ◌==◌, IfOk, OnOk};
ghost use Rattle.std.specs.Prelude.{OnErr};

use crate::OutOfMemory;
use std::alloc::{AllocError, Global};
use std::fmt;
use std::marker::Model;

/// A list. An empty one is made without an allocator, and gets one with its first item.
pub struct List<T> {
    items: Option<Vec<T>>,
}

// Written out, so that a drop is one call wherever a list is dropped.
impl<T: Drop> Drop for List<T> {
    fn drop(self) {
        let List { items: _ } = self;
    }
}

impl<T> Model for List<T> {
    ghost use Rattle.smithy_types.specs.ListItems.{items_of};
    ghost use Rattle.std.specs.Prelude.{List};

    ghost Value = { List T };

    ghost view = { λ l. items_of l.items };
}

impl<T> List<T> {
    /// The list without items. It takes no memory.
    pub fn new() -> List<T>
        ensures { result ≡ [] }
    {
        List { items: None }
    }

    /// The items of a vector, which are moved. It takes no memory.
    pub fn from_vec(items: Vec<T>) -> List<T>
        ensures { result ≡ items.items }
    {
        List { items: Some(items) }
    }

    /// The items as a vector, which are moved. It takes no memory.
    pub fn into_vec(self, alloc: Global) -> Vec<T>
        ensures { result.items ≡ self }
    {
        let List { items } = self;
        match items {
            Some(items) => items,
            None => Vec::new(alloc),
        }
    }

    /// Adds an item at the end.
    pub fn push(&mut self, alloc: Global, item: T) -> Result<(), OutOfMemory>
    where
        T: Drop,
        ensures ok { OnOk result (self.new ≡ self.old ++ item ∷ []) }
        ensures err { OnErr result (self.new ≡ self.old) }
    {
        match &mut self.items {
            Some(items) => {
                items.reserve(1)?;
                items.push_reserved(item);
                Ok(())
            }
            None => {
                let mut items = Vec::new(alloc);
                items.reserve(1)?;
                items.push_reserved(item);
                self.items = Some(items);
                Ok(())
            }
        }
    }

    /// Puts an item in another's place.
    pub fn replace(&mut self, index: usize, item: T)
    where
        T: Drop,
        requires { index < length self.old }
        ensures { self.new ≡ slice_set self.old index item }
    {
        if let Some(items) = &mut self.items {
            items[index] = item;
        }
    }

    /// The items.
    pub fn as_slice(&self) -> &[T]
        ensures { result.now ≡ self.now }
    {
        match &self.items {
            Some(items) => items.as_slice(),
            None => &[],
        }
    }

    /// How many items there are.
    pub fn len(&self) -> usize
        ensures { result ≡ length self.now }
    {
        self.as_slice().len()
    }

    /// Whether there is none.
    pub fn is_empty(&self) -> bool
        ensures { result ≡ (length self.now == 0) }
    {
        self.as_slice().is_empty()
    }
}

impl<T: fmt::Debug> fmt::Debug for List<T> {
    fn fmt<W: fmt::Write>(&self, f: &mut fmt::Formatter<W>) -> fmt::Result {
        fmt::Debug::fmt(self.as_slice(), f)
    }
}

impl<T: Clone + Drop> Clone for List<T> {
    ghost is_clone = { λ list copy. AllZip T.is_clone list copy };

    fn clone(&self) -> Result<List<T>, AllocError> {
        match &self.items {
            Some(items) => Ok(List {
                items: Some(items.clone()?),
            }),
            None => Ok(List { items: None }),
        }
    }
}

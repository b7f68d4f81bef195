//! Items in groups, by names with numbers of arguments.
ghost use Rattle.std.specs.Prelude.{◌≡◌, ◌&&◌, ◌==◌, ℕ, [], ◌∷◌, ◌++◌, if◌then◌else◌, OnOk};
ghost use Rattle.merc_base.specs.Groups.{kept, is_key};

use crate::{Name, NoMemory, Sequence};
use std::alloc::Global;
use std::collections::BTreeMap;

/// A name with a number of arguments.
#[derive(Clone, Copy, PartialEq, Eq, PartialOrd, Ord)]
pub struct Key {
    /// The name.
    pub name: Name,
    /// The number of arguments.
    pub arity: usize,
}

/// Items by keys. The items of a key stand in the order in which they were added.
#[derive(Drop)]
pub struct Groups<T> {
    by_key: BTreeMap<Key, Sequence<T>>,
}

impl<T: Drop> Groups<T> {
    /// No items.
    pub fn new(alloc: Global) -> Groups<T>
        ensures { (name arity : ℕ) → kept result name arity ≡ [] }
    {
        Groups {
            by_key: BTreeMap::new(alloc),
        }
    }

    /// Adds an item behind the others of its key.
    ///
    /// # Errors
    ///
    /// `NoMemory` where memory was refused.
    pub fn add(&mut self, alloc: Global, key: Key, item: T) -> Result<(), NoMemory>
        ensures { OnOk result ((name arity : ℕ) → kept self.new name arity ≡ (if is_key name arity key then kept self.old name arity ++ item ∷ [] else kept self.old name arity)) }
    {
        let mut items = match self.by_key.remove(&key) {
            Some(items) => items,
            None => Sequence::new(alloc),
        };
        items.push(item)?;
        self.by_key.insert(key, items)?;
        Ok(())
    }

    /// The items of a key.
    pub fn at(&self, key: Key) -> &[T]
        ensures { result.now ≡ kept self.now key.name key.arity }
    {
        match self.by_key.get(&key) {
            Some(items) => items.as_slice(),
            None => &[],
        }
    }
}

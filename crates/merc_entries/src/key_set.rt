//! Sets of keys.
ghost use Rattle.std.specs.Prelude.{◌≡◌, ◌||◌, false, List, OnOk};
ghost use Rattle.merc_base.specs.declared.groups.Key.{Key as key_record};
ghost use Rattle.merc_entries.specs.Entries.{key_of, are_keys};
ghost use Rattle.merc_entries.specs.KeySets.{keys_at, has_key};

use merc_base::{Key, NoMemory};
use merc_tree::{Shape, TermRef};
use std::alloc::Global;
use std::collections::BTreeSet;

/// The key of a head, none for a variable or a literal.
pub fn key_of(head: &TermRef<'_>) -> Option<Key>
    ensures { keys_at result ≡ key_of head.now }
{
    match head.shape() {
        Shape::Application { name, arity, .. } => Some(Key { name, arity }),
        _ => None,
    }
}

/// A set of keys.
#[derive(Drop)]
pub struct KeySet {
    keys: BTreeSet<Key>,
}

impl KeySet {
    /// The empty set.
    pub fn new(alloc: Global) -> KeySet
        ensures { (found : List key_record) → has_key result found ≡ false }
    {
        KeySet {
            keys: BTreeSet::new(alloc),
        }
    }

    /// Adds a key, or nothing where there is none.
    ///
    /// # Errors
    ///
    /// `NoMemory` where memory was refused.
    pub fn insert(&mut self, key: Option<Key>) -> Result<(), NoMemory>
        ensures { OnOk result ((found : List key_record) → has_key self.new found ≡ (has_key self.old found || are_keys found (keys_at key))) }
    {
        if let Some(key) = key {
            self.keys.insert(key)?;
        }
        Ok(())
    }

    /// Whether the set has this key; where there is none, it has not.
    pub fn contains(&self, key: Option<Key>) -> bool
        ensures { result ≡ has_key self.now (keys_at key) }
    {
        match key {
            Some(key) => self.keys.contains(&key),
            None => false,
        }
    }
}

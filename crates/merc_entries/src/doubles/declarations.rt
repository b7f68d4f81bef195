//! What the items of a module declare, in the order of their places.
ghost use Rattle.std.specs.Prelude.{◌≡◌, ◌++◌, [], map, IfOk, OnOk};
ghost use Rattle.std.specs.List.{flat_map};
ghost use Rattle.merc_entries.specs.Entries.{key_of, types_of, constructors_of, predicates_of, modes_of, declared_by, key, own_entries};
ghost use Rattle.merc_entries.specs.DoubleFaults.{type_keys, at_start};
ghost use Rattle.merc_item_forms.specs.ItemValue.{item_value};
ghost use Rattle.merc_entries.specs.EntryValue.{entry_values};
ghost use Rattle.merc_entries.specs.KeySets.{keys_at};
ghost use Rattle.merc_entries.specs.ModeValue.{mode_value};
ghost use Rattle.merc_entries.specs.FirstPlaces.{declared_value, declared_at};

use super::again::Declared;
use super::modes::{Mode, mode_of};
use crate::entry::Entry;
use crate::key_set::key_of;
use merc_base::{Key, Name, NoMemory, Place};
use merc_item_forms::Item;
use merc_operands::members;
use merc_tree::TermRef;
use std::alloc::Global;

/// The types, with `int` and `string` from the start.
pub(crate) fn types(alloc: Global, entries: &[Entry<'_>]) -> Result<Vec<Declared<Key>>, NoMemory>
    ensures { IfOk result (λ types. map (declared_value (λ key. key)) types.items ≡ type_keys (entry_values entries.now)) }
{
    let mut types = Vec::new(alloc);
    match push_types(entries, &mut types) {
        Ok(()) => Ok(types),
        Err(refused) => {
            // (a call, here and below, since it costs much to prove what is dropped)
            drop(types);
            Err(refused)
        }
    }
}

// Puts the types into a list that has none yet.
fn push_types(entries: &[Entry<'_>], types: &mut Vec<Declared<Key>>) -> Result<(), NoMemory>
    requires { types.old.items ≡ [] }
    ensures { OnOk result (map (declared_value (λ key. key)) types.new.items ≡ type_keys (entry_values entries.now)) }
{
    types.push(at_start(Name::INT))?;
    types.push(at_start(Name::STRING))?;
    for entry in entries {
        push_key(entry.place, type_key(&entry.item), types)?;
    }
    Ok(())
}

/// The constructors.
pub(crate) fn constructors(
    alloc: Global,
    entries: &[Entry<'_>],
) -> Result<Vec<Declared<Key>>, NoMemory>
    ensures { IfOk result (λ constructors. map (declared_value (λ key. key)) constructors.items ≡ declared_by constructors_of (entry_values entries.now)) }
{
    let mut constructors = Vec::new(alloc);
    for entry in entries {
        push_constructors(alloc, entry, &mut constructors)?;
    }
    Ok(constructors)
}

/// The predicates.
pub(crate) fn predicates(
    alloc: Global,
    entries: &[Entry<'_>],
) -> Result<Vec<Declared<Key>>, NoMemory>
    ensures { IfOk result (λ predicates. map (declared_value (λ key. key)) predicates.items ≡ declared_by predicates_of (entry_values entries.now)) }
{
    let mut predicates = Vec::new(alloc);
    for entry in entries {
        push_key(entry.place, predicate_key(&entry.item), &mut predicates)?;
    }
    Ok(predicates)
}

/// The modes of the file's own predicates.
pub(crate) fn modes(alloc: Global, entries: &[Entry<'_>]) -> Result<Vec<Declared<Mode>>, NoMemory>
    ensures { IfOk result (λ modes. map (declared_value mode_value) modes.items ≡ declared_by modes_of (own_entries (entry_values entries.now))) }
{
    let mut modes = Vec::new(alloc);
    match push_modes(alloc, entries, &mut modes) {
        Ok(()) => Ok(modes),
        Err(refused) => {
            drop(modes);
            Err(refused)
        }
    }
}

// Puts the modes of the file's own predicates into a list that has none yet.
fn push_modes(
    alloc: Global,
    entries: &[Entry<'_>],
    modes: &mut Vec<Declared<Mode>>,
) -> Result<(), NoMemory>
    requires { modes.old.items ≡ [] }
    ensures { OnOk result (map (declared_value mode_value) modes.new.items ≡ declared_by modes_of (own_entries (entry_values entries.now))) }
{
    for entry in entries {
        if entry.unit.is_none() {
            if let Some(key) = mode_of(alloc, &entry.item)? {
                let place = entry.place;
                modes.push(Declared { key, place })?;
            }
        }
    }
    Ok(())
}

// A type without arguments that is declared before any item.
fn at_start(name: Name) -> Declared<Key>
    ensures { declared_value (λ key. key) result ≡ at_start (key name 0) }
{
    Declared {
        key: Key { name, arity: 0 },
        place: Place { byte: 0, line: 1 },
    }
}

// Puts a key at a place behind the others, where there is one.
fn push_key(
    place: Place,
    key: Option<Key>,
    declared: &mut Vec<Declared<Key>>,
) -> Result<(), NoMemory>
    ensures { OnOk result (map (declared_value (λ key. key)) declared.new.items ≡ map (declared_value (λ key. key)) declared.old.items ++ declared_at place (keys_at key)) }
{
    if let Some(key) = key {
        declared.push(Declared { key, place })?;
    }
    Ok(())
}

// Puts the constructors of an item's type behind the others.
fn push_constructors(
    alloc: Global,
    entry: &Entry<'_>,
    constructors: &mut Vec<Declared<Key>>,
) -> Result<(), NoMemory>
    ensures { OnOk result (map (declared_value (λ key. key)) constructors.new.items ≡ map (declared_value (λ key. key)) constructors.old.items ++ declared_at entry.now.place (constructors_of (item_value entry.now.item))) }
{
    let root = match &entry.item {
        Item::Type(_, root) => root,
        _ => return Ok(()),
    };
    let terms = members(alloc, root, Name::SEMICOLON)?;
    let pushed = push_heads(entry.place, &terms, constructors);
    drop(terms);
    pushed
}

// Puts the keys of these heads at a place behind the others.
fn push_heads(
    place: Place,
    heads: &[TermRef<'_>],
    declared: &mut Vec<Declared<Key>>,
) -> Result<(), NoMemory>
    ensures { OnOk result (map (declared_value (λ key. key)) declared.new.items ≡ map (declared_value (λ key. key)) declared.old.items ++ declared_at place (flat_map key_of heads.now)) }
{
    for head in heads {
        if let Some(key) = key_of(head) {
            declared.push(Declared { key, place })?;
        }
    }
    Ok(())
}

/// The key of the type that an item declares.
pub fn type_key(item: &Item<'_>) -> Option<Key>
    ensures { keys_at result ≡ types_of (item_value item.now) }
{
    match item {
        Item::Type(head, _) => key_of(head),
        _ => None,
    }
}

// The key of the predicate that an item declares.
fn predicate_key(item: &Item<'_>) -> Option<Key>
    ensures { keys_at result ≡ predicates_of (item_value item.now) }
{
    match item {
        Item::Predicate(head, _) => key_of(head),
        _ => None,
    }
}

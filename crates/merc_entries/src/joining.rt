//! The items of a file joined with those of the units that it imports.
ghost use Rattle.std.specs.Prelude.{◌≡◌, [], ◌∷◌, ◌++◌, IfOk, OnOk, if◌then◌else◌};
ghost use Rattle.merc_item_forms.specs.Forms.{is_in};
ghost use Rattle.merc_entries.specs.Entries.{entries, entries_from, imports, names_of, unit_entries, with_units};
ghost use Rattle.merc_item_forms.specs.Items.{Import, place_of, item_of};
ghost use Rattle.merc_base.specs.Names.{comma_name};
ghost use Rattle.merc_operands.specs.Members.{chain};
ghost use Rattle.merc_entries.specs.EntryValue.{entry_values};
ghost use Rattle.merc_item_forms.specs.ItemValue.{item_value};
ghost use Rattle.merc_entries.specs.Joining.{own_entry, entries_of_unit};
ghost use Rattle.merc_entries.specs.Units.{items_of};

use crate::distinct_names::DistinctNames;
use crate::entry::Entry;
use crate::units::Units;
use merc_base::{Name, NoMemory, Place};
use merc_item_forms::{Item, item_of};
use merc_operands::{members, plain_name};
use merc_tree::{TermRef, Terms};
use std::alloc::Global;

/// The items of a file in order, with the items of each unit behind the first import of it.
///
/// # Errors
///
/// `NoMemory` where memory was refused.
pub fn join<'a>(
    alloc: Global,
    terms: &'a Terms,
    units: &'a Units,
) -> Result<Vec<Entry<'a>>, NoMemory>
    ensures { IfOk result (λ found. entry_values found.items ≡ entries (items_of units.now) terms.now) }
{
    let mut entries = Vec::new(alloc);
    let mut seen = DistinctNames::new(alloc);
    let pushed = push_items(alloc, terms, units, &mut seen, &mut entries);
    // (a call, here and below, since it costs much to prove what is dropped)
    drop(seen);
    match pushed {
        Ok(()) => Ok(entries),
        Err(refused) => {
            drop(entries);
            Err(refused)
        }
    }
}

// Puts the items of a file behind the entries, each with the items of those units that it is the first to import.
fn push_items<'a>(
    alloc: Global,
    terms: &'a Terms,
    units: &'a Units,
    seen: &mut DistinctNames,
    entries: &mut Vec<Entry<'a>>,
) -> Result<(), NoMemory>
    ensures { OnOk result (entry_values entries.new.items ≡ entry_values entries.old.items ++ entries_from (items_of units.now) seen.old terms.now) }
{
    for index in 0..terms.len() {
        if let Some(term) = terms.get(index) {
            push_item(alloc, &term, units, seen, entries)?;
        }
    }
    Ok(())
}

// Puts an item of the file behind the entries, and behind it the items of those units that it is the first to import.
fn push_item<'a>(
    alloc: Global,
    term: &TermRef<'a>,
    units: &'a Units,
    seen: &mut DistinctNames,
    entries: &mut Vec<Entry<'a>>,
) -> Result<(), NoMemory>
    ensures entries { OnOk result (entry_values entries.new.items ≡ entry_values entries.old.items ++ own_entry term.now ∷ unit_entries (items_of units.now) (place_of term.now) seen.old (imports (item_of term.now))) }
    ensures seen { OnOk result (seen.new ≡ with_units seen.old (imports (item_of term.now))) }
{
    let imported = imported_by(alloc, term)?;
    let pushed = push_with_units(term, &imported, units, seen, entries);
    drop(imported);
    pushed
}

// The units that an item of the file imports, in order.
fn imported_by(alloc: Global, term: &TermRef<'_>) -> Result<Vec<Name>, NoMemory>
    ensures { IfOk result (λ units. units.items ≡ imports (item_of term.now)) }
{
    let item = item_of(term);
    let imported = imports(alloc, &item);
    drop(item);
    imported
}

// Puts an item of the file behind the entries, and behind it the items of those of the imported units that are not seen
// yet.
fn push_with_units<'a>(
    term: &TermRef<'a>,
    imported: &[Name],
    units: &'a Units,
    seen: &mut DistinctNames,
    entries: &mut Vec<Entry<'a>>,
) -> Result<(), NoMemory>
    ensures entries { OnOk result (entry_values entries.new.items ≡ entry_values entries.old.items ++ own_entry term.now ∷ unit_entries (items_of units.now) (place_of term.now) seen.old imported.now) }
    ensures seen { OnOk result (seen.new ≡ with_units seen.old imported.now) }
{
    let span = term.span();
    let place = Place {
        byte: span.first,
        line: span.line,
    };
    entries.push(Entry {
        item: item_of(term),
        span,
        place,
        unit: None,
    })?;
    push_units(imported, units, place, seen, entries)
}

// Puts the items of those of these units behind the entries that are not seen yet.
fn push_units<'a>(
    imported: &[Name],
    units: &'a Units,
    place: Place,
    seen: &mut DistinctNames,
    entries: &mut Vec<Entry<'a>>,
) -> Result<(), NoMemory>
    ensures entries { OnOk result (entry_values entries.new.items ≡ entry_values entries.old.items ++ unit_entries (items_of units.now) place seen.old imported.now) }
    ensures seen { OnOk result (seen.new ≡ with_units seen.old imported.now) }
{
    for unit in imported {
        push_new(*unit, units, place, seen, entries)?;
    }
    Ok(())
}

// Puts the items of a unit behind the entries, if it is not seen yet.
fn push_new<'a>(
    unit: Name,
    units: &'a Units,
    place: Place,
    seen: &mut DistinctNames,
    entries: &mut Vec<Entry<'a>>,
) -> Result<(), NoMemory>
    ensures entries { OnOk result (entry_values entries.new.items ≡ entry_values entries.old.items ++ (if is_in unit seen.old then [] else entries_of_unit (items_of units.now) place unit)) }
    ensures seen { OnOk result (seen.new ≡ (if is_in unit seen.old then seen.old else seen.old ++ unit ∷ [])) }
{
    if !seen.insert(unit)? {
        return Ok(());
    }
    push_unit(unit, units, place, entries)
}

// Puts the items of a unit behind the entries.
fn push_unit<'a>(
    unit: Name,
    units: &'a Units,
    place: Place,
    entries: &mut Vec<Entry<'a>>,
) -> Result<(), NoMemory>
    ensures { OnOk result (entry_values entries.new.items ≡ entry_values entries.old.items ++ entries_of_unit (items_of units.now) place unit) }
{
    let terms = match units.items(unit) {
        Some(terms) => terms,
        None => return Ok(()),
    };
    for index in 0..terms.len() {
        if let Some(term) = terms.get(index) {
            entries.push(Entry {
                item: item_of(&term),
                span: term.span(),
                place,
                unit: Some(unit),
            })?;
        }
    }
    Ok(())
}

/// The units that an item imports, in order. What is no name is left out.
///
/// # Errors
///
/// `NoMemory` where memory was refused.
pub fn imports(alloc: Global, item: &Item<'_>) -> Result<Vec<Name>, NoMemory>
    ensures { IfOk result (λ units. units.items ≡ imports (item_value item.now)) }
{
    match item {
        Item::Import(root) => named_units(alloc, root),
        _ => Ok(Vec::new(alloc)),
    }
}

// The names among the members of the chain with this root.
fn named_units(alloc: Global, root: &TermRef<'_>) -> Result<Vec<Name>, NoMemory>
    ensures { IfOk result (λ units. units.items ≡ imports (Import (chain comma_name root.now))) }
{
    let terms = members(alloc, root, Name::COMMA)?;
    let units = names_of(alloc, &terms);
    drop(terms);
    units
}

// The names that stand among these terms.
fn names_of(alloc: Global, terms: &[TermRef<'_>]) -> Result<Vec<Name>, NoMemory>
    ensures { IfOk result (λ names. names.items ≡ names_of terms.now) }
{
    let mut names = Vec::new(alloc);
    for term in terms {
        if let Some(name) = plain_name(term) {
            names.push(name)?;
        }
    }
    Ok(names)
}

//! Where units are imported.
ghost use Rattle.std.specs.Prelude.{◌≡◌, IfOk};
ghost use Rattle.merc_item_forms.specs.Forms.{is_in};
ghost use Rattle.merc_entries.specs.Entries.{imports, names_of};
ghost use Rattle.merc_entries.specs.DoubleFaults.{import_place};
ghost use Rattle.merc_item_forms.specs.ItemValue.{item_value};
ghost use Rattle.merc_entries.specs.EntryValue.{entry_values};

use crate::entry::Entry;
use merc_base::{Name, NoMemory, Place};
use merc_item_forms::Item;
use merc_operands::{members, plain_name};
use merc_tree::TermRef;
use std::alloc::Global;

/// The place at which a unit is first imported.
pub(crate) fn import_place(
    alloc: Global,
    unit: Name,
    entries: &[Entry<'_>],
) -> Result<Option<Place>, NoMemory>
    ensures { IfOk result (λ place. place ≡ import_place unit (entry_values entries.now)) }
{
    for entry in entries {
        if is_imported(alloc, unit, &entry.item)? {
            return Ok(Some(entry.place));
        }
    }
    Ok(None)
}

// Whether an item imports a unit.
fn is_imported(alloc: Global, unit: Name, item: &Item<'_>) -> Result<bool, NoMemory>
    ensures { IfOk result (λ found. found ≡ is_in unit (imports (item_value item.now))) }
{
    match item {
        Item::Import(root) => {
            let units = members(alloc, root, Name::COMMA)?;
            let found = is_named(unit, &units);
            // (a call, since it costs much to prove what is dropped)
            drop(units);
            Ok(found)
        }
        _ => Ok(false),
    }
}

// Whether a unit's name is among these terms.
fn is_named(unit: Name, terms: &[TermRef<'_>]) -> bool
    ensures { result ≡ is_in unit (names_of terms.now) }
{
    for term in terms {
        if let Some(name) = plain_name(term) {
            if unit == name {
                return true;
            }
        }
    }
    false
}

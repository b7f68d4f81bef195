//! What is declared, with its places.
ghost use Rattle.std.specs.Prelude.{◌≡◌, map, IfOk};
ghost use Rattle.std.specs.Ordering.{eq_by_cmp};
ghost use Rattle.merc_entries.specs.FirstPlaces.{declared_value, first_again};

use merc_base::{NoMemory, Place};
use std::alloc::Global;
use std::collections::BTreeSet;

/// Something declared at a place.
#[derive(Drop)]
pub(crate) struct Declared<K> {
    pub(crate) key: K,
    pub(crate) place: Place,
}

/// The place of the first that was declared before, in a list in order.
pub(crate) fn first_again<K: Ord + Drop>(
    alloc: Global,
    declared: Vec<Declared<K>>,
) -> Result<Option<Place>, NoMemory>
    ensures { IfOk result (λ place. place ≡ first_again (eq_by_cmp K.cmp) (map (declared_value (λ key. key)) declared.items)) }
{
    let mut seen = BTreeSet::new(alloc);
    for next in declared {
        let Declared { key, place } = next;
        if !seen.insert(key)? {
            return Ok(Some(place));
        }
    }
    Ok(None)
}

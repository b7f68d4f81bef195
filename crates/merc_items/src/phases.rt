//! The checks of the items of a module, one phase after the other.
ghost use Rattle.std.specs.Prelude.{IfOk, IfErr};
ghost use Rattle.merc_base.specs.FirstFault.{IsFirstOf};
ghost use Rattle.merc_terms.specs.Items.{IsRefusal};
ghost use Rattle.merc_entries.specs.EntryValue.{entry_values, AreInOrder};
ghost use Rattle.merc_item_forms.specs.FormFaults.{Rises};
ghost use Rattle.merc_items.specs.Phases.{HasFault, HasNoFault};

use merc_base::{Fault, Names};
use merc_declared::{check_clauses, check_modes, check_types};
use merc_entries::{Entry, check_doubles};
use merc_item_forms::{check_forms, own_name};
use merc_tree::Terms;
use std::alloc::Global;

/// The first fault of the items of a file, which stand among the entries with those of the units: of their forms, a
/// doubled declaration, an unknown type, of the modes, or of clauses and declarations that do not go together.
pub(crate) fn check_items(
    alloc: Global,
    terms: &Terms,
    entries: &[Entry<'_>],
    names: &Names,
) -> Result<(), Fault>
    requires terms { Rises terms.now }
    requires entries { AreInOrder (entry_values entries.now) }
    ensures fine { IfOk result (λ _. HasNoFault names.now terms.now (entry_values entries.now)) }
    ensures refused { IfErr result (λ fault. IsRefusal (IsFirstOf (HasFault names.now terms.now (entry_values entries.now))) fault) }
{
    let own = own_name(terms);
    check_forms(alloc, terms, names)?;
    check_doubles(alloc, entries)?;
    check_types(alloc, entries, own, names)?;
    check_modes(alloc, entries)?;
    check_clauses(alloc, entries, own)
}

//! Reads a module: its text in all the phases, with the library units that it imports.
ghost use Rattle.std.specs.Prelude.{◌≡◌, ◌≤◌, ◌++◌, ℕ, List, length, IfOk, IfErr};
ghost use Rattle.merc_tree.specs.Term.{Term};
ghost use Rattle.merc_terms.specs.Items.{IsRefusal};
ghost use Rattle.merc_base.specs.FirstFault.{IsFirstOf};
ghost use Rattle.merc_item_forms.specs.FormFaults.{Rises};
ghost use Rattle.merc_entries.specs.Entries.{entries};
ghost use Rattle.merc_entries.specs.EntryValue.{entry_values, AreInOrder};
ghost use Rattle.merc_entries.specs.Units.{items_of};
ghost use Rattle.merc_items.specs.ModuleOf.{module_of};
ghost use Rattle.merc_items.specs.Phases.{HasFault, HasNoFault};
ghost use Rattle.merc_items.specs.ReadModule.{IsModule, IsModuleOf, RefusesItemsOf, RefusesModule};

use crate::assembling::module_of;
use crate::phases::check_items;
use merc_base::{Fault, Names, Text};
use merc_entries::{Entry, Units, join, read_units};
use merc_terms::read_text;
use merc_tree::{Module, Terms};
use std::alloc::Global;

/// The module that a text is, with the items of the library units that it imports. Names that the text and the library
/// spell are added to the table, also where the text is refused. The text has at most 300,000,000 bytes.
///
/// # Errors
///
/// `Refused` says the first fault of the text. The phases come in this order, and the first with a fault decides, in it
/// the least place, and there the smaller rule:
///
/// 1. Tokens: the text has to be UTF-8 and to be tokens.
/// 2. Terms: the tokens have to be terms, each with its full stop, that keep the limits. The first fault decides.
/// 3. The phases of [`module_of_items`].
///
/// `NoMemory` says that memory was refused.
pub fn read_module(alloc: Global, text: &Text, names: &mut Names) -> Result<Module, Fault>
    requires { length text.now ≤ 300000000 }
    ensures found { IfOk result (λ found. (terms : List Term) × IsModule names.old names.new text.now terms found) }
    ensures refused { IfErr result (λ fault. IsRefusal (RefusesModule names.old text.now) fault) }
    ensures grows { (more : List (List ℕ)) × (names.new ≡ names.old ++ more) }
{
    let terms = read_text(alloc, text.bytes(), names)?;
    let found = module_of_items(alloc, &terms, names);
    // (a call, here and below, since it costs much to prove what is dropped)
    drop(terms);
    found
}

/// The module that the items of a file are, which stand in it one behind the other, with the items of the library units
/// that it imports. Names that the library spells are added to the table, also where the items are refused.
///
/// # Errors
///
/// `Refused` says the first fault of the items. The phases come in this order, and the first with a fault decides, in it
/// the least place, and there the smaller rule:
///
/// 1. Forms: each term has to be a declaration or a clause of the profile, and the first one the name of the module. A
///    text without items is refused on line 1.
/// 2. Doubled declarations: no type, constructor, predicate or mode is declared again.
/// 3. Unknown types: each type that a declaration of the file names is declared.
/// 4. Modes: each predicate of the file has 1 to 16 modes, each with its category.
/// 5. Clauses and declarations of the file go together: no predicate lacks clauses, and no clause or mode a
///    declaration.
///
/// `NoMemory` says that memory was refused.
pub fn module_of_items(alloc: Global, terms: &Terms, names: &mut Names) -> Result<Module, Fault>
    requires { Rises terms.now }
    ensures found { IfOk result (λ found. IsModuleOf names.old names.new terms.now found) }
    ensures refused { IfErr result (λ fault. IsRefusal (RefusesItemsOf names.old terms.now) fault) }
    ensures grows { (more : List (List ℕ)) × (names.new ≡ names.old ++ more) }
{
    let units = read_units(alloc, names)?;
    let found = module_with(alloc, terms, &units, names);
    drop(units);
    found
}

// The module that the items of a file are, with those of these units.
fn module_with(alloc: Global, terms: &Terms, units: &Units, names: &Names) -> Result<Module, Fault>
    requires { Rises terms.now }
    ensures found { IfOk result (λ found. HasNoFault names.now terms.now (entries (items_of units.now) terms.now) × (found ≡ module_of names.now terms.now (entries (items_of units.now) terms.now))) }
    ensures refused { IfErr result (λ fault. IsRefusal (IsFirstOf (HasFault names.now terms.now (entries (items_of units.now) terms.now))) fault) }
{
    let entries = join(alloc, terms, units)?;
    let found = module_of_entries(alloc, terms, &entries, names);
    drop(entries);
    found
}

// The module that the items of a file are, by the entries of the file and of the units.
fn module_of_entries(
    alloc: Global,
    terms: &Terms,
    entries: &[Entry<'_>],
    names: &Names,
) -> Result<Module, Fault>
    requires terms { Rises terms.now }
    requires entries { AreInOrder (entry_values entries.now) }
    ensures found { IfOk result (λ found. HasNoFault names.now terms.now (entry_values entries.now) × (found ≡ module_of names.now terms.now (entry_values entries.now))) }
    ensures refused { IfErr result (λ fault. IsRefusal (IsFirstOf (HasFault names.now terms.now (entry_values entries.now))) fault) }
{
    check_items(alloc, terms, entries, names)?;
    Ok(module_of(alloc, names, terms, entries)?)
}

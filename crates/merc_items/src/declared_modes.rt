//! The modes that items declare, by their predicates.
ghost use Rattle.std.specs.Prelude.{◌≡◌, ◌++◌, List, [], ◌∷◌, Some, map, IfOk, OnOk, if◌then◌else◌};
ghost use Rattle.std.specs.List.{flat_map};
ghost use Rattle.merc_tree.specs.Shape.{arguments_of};
ghost use Rattle.merc_operands.specs.Operands.{plain_name};
ghost use Rattle.merc_item_forms.specs.Forms.{argument_mode, category_named};
ghost use Rattle.merc_base.specs.declared.groups.Key.{Key as key_record};
ghost use Rattle.merc_entries.specs.Entries.{has_mode, is_out, key_of, are_keys};
ghost use Rattle.merc_entries.specs.EntryValue.{entry_value, entry_values};
ghost use Rattle.merc_item_forms.specs.ItemValue.{item_value};
ghost use Rattle.merc_entries.specs.KeySets.{keys_at};
ghost use Rattle.merc_items.specs.ModuleOf.{arg_of, args_of, category_or_det, declared_category, modes_in};
ghost use Rattle.merc_items.specs.DeclaredModes.{entry_modes, kept_modes, moded_predicate};
ghost use Rattle.merc_items.specs.Parting.{kept};

use crate::parting::Part;
use merc_base::{Category, Key, Name, NoMemory};
use merc_entries::{Entry, has_mode, key_of};
use merc_item_forms::{Item, argument_mode, category_named};
use merc_operands::{arguments, plain_name};
use merc_tree::{Arg, Args, ModeDecl, ModeDecls, TermRef};
use std::alloc::Global;
use std::collections::BTreeMap;

/// Modes in the order of their declarations, by the keys of their predicates.
#[derive(Drop)]
pub(crate) struct ModeTable {
    by_key: BTreeMap<Key, ModeDecls>,
}

impl ModeTable {
    /// The modes that the entries of a part of the module declare.
    pub(crate) fn of(
        alloc: Global,
        part: Part,
        entries: &[Entry<'_>],
    ) -> Result<ModeTable, NoMemory>
        ensures { IfOk result (λ table. (predicate : List key_record) → kept_modes table predicate ≡ flat_map (kept part (modes_in predicate)) (entry_values entries.now)) }
    {
        let mut table = ModeTable {
            by_key: BTreeMap::new(alloc),
        };
        match table.add_all(alloc, part, entries) {
            Ok(()) => Ok(table),
            Err(refused) => {
                // (a call, here and below, since it costs much to prove what is dropped)
                drop(table);
                Err(refused)
            }
        }
    }

    // Puts the modes that the entries of a part of the module declare behind the others of their predicates.
    fn add_all(&mut self, alloc: Global, part: Part, entries: &[Entry<'_>]) -> Result<(), NoMemory>
        ensures { OnOk result ((predicate : List key_record) → kept_modes self.new predicate ≡ kept_modes self.old predicate ++ flat_map (kept part (modes_in predicate)) (entry_values entries.now)) }
    {
        for entry in entries {
            if part.has(entry) {
                self.add(alloc, moded_predicate(&entry.item), entry)?;
            }
        }
        Ok(())
    }

    // Puts the mode that an entry declares behind the others of its predicate, where there is one.
    fn add(&mut self, alloc: Global, key: Option<Key>, entry: &Entry<'_>) -> Result<(), NoMemory>
        ensures { OnOk result ((predicate : List key_record) → kept_modes self.new predicate ≡ (if are_keys predicate (keys_at key) then kept_modes self.old predicate ++ entry_modes (entry_value entry.now) else kept_modes self.old predicate)) }
    {
        if let Some(key) = key {
            let mut modes = match self.by_key.remove(&key) {
                Some(modes) => modes,
                None => ModeDecls::new(alloc),
            };
            push_mode(alloc, entry, &mut modes)?;
            self.by_key.insert(key, modes)?;
        }
        Ok(())
    }

    /// The modes of the predicate with this head.
    pub(crate) fn modes(&self, alloc: Global, head: &TermRef<'_>) -> Result<ModeDecls, NoMemory>
        ensures { IfOk result (λ modes. modes ≡ kept_modes self.now (key_of head.now)) }
    {
        let key = match key_of(head) {
            Some(key) => key,
            None => return Ok(ModeDecls::new(alloc)),
        };
        match self.by_key.get(&key) {
            Some(modes) => copy_modes(alloc, modes),
            None => Ok(ModeDecls::new(alloc)),
        }
    }
}

fn copy_modes(alloc: Global, modes: &ModeDecls) -> Result<ModeDecls, NoMemory>
    ensures { IfOk result (λ copy. copy ≡ modes.now) }
{
    let mut copy = ModeDecls::new(alloc);
    for mode in modes.as_slice() {
        push_copy(alloc, mode, &mut copy)?;
    }
    Ok(copy)
}

// Puts a copy of a mode behind the others.
fn push_copy(alloc: Global, mode: &ModeDecl, modes: &mut ModeDecls) -> Result<(), NoMemory>
    ensures { OnOk result (modes.new ≡ modes.old ++ mode.now ∷ []) }
{
    let args = mode.args.try_clone(alloc)?;
    modes.push(ModeDecl {
        args,
        category: mode.category,
        span: mode.span,
    })
}

// The predicate for which an item declares a mode, None where it declares none.
fn moded_predicate(item: &Item<'_>) -> Option<Key>
    ensures { keys_at result ≡ moded_predicate (item_value item.now) }
{
    match item {
        Item::Predicate(head, category) => {
            if has_mode(head, category) {
                key_of(head)
            } else {
                None
            }
        }
        Item::Mode(head, _) => key_of(head),
        _ => None,
    }
}

// Puts the mode that an entry declares behind the others.
fn push_mode(alloc: Global, entry: &Entry<'_>, modes: &mut ModeDecls) -> Result<(), NoMemory>
    ensures { OnOk result (modes.new ≡ modes.old ++ entry_modes (entry_value entry.now)) }
{
    match &entry.item {
        Item::Predicate(head, category) => modes.push(ModeDecl {
            args: predicate_args(alloc, head)?,
            category: declared_category(category),
            span: entry.span,
        }),
        Item::Mode(head, category) => modes.push(ModeDecl {
            args: mode_args(alloc, head)?,
            category: declared_category(category),
            span: entry.span,
        }),
        _ => Ok(()),
    }
}

// The arguments of the predicate that this head declares, of those with a mode.
fn predicate_args(alloc: Global, head: &TermRef<'_>) -> Result<Args, NoMemory>
    ensures { IfOk result (λ args. args ≡ args_of (map argument_mode (arguments_of head.now))) }
{
    let terms = arguments(alloc, head)?;
    let args = args_with_types(alloc, &terms);
    drop(terms);
    args
}

// The arguments of the mode that this head declares.
fn mode_args(alloc: Global, head: &TermRef<'_>) -> Result<Args, NoMemory>
    ensures { IfOk result (λ args. args ≡ args_of (map Some (arguments_of head.now))) }
{
    let terms = arguments(alloc, head)?;
    let args = args_alone(alloc, &terms);
    drop(terms);
    args
}

// The arguments of a predicate's declaration, where the modes stand behind the types, of those with a mode.
fn args_with_types(alloc: Global, terms: &[TermRef<'_>]) -> Result<Args, NoMemory>
    ensures { IfOk result (λ args. args ≡ args_of (map argument_mode terms.now)) }
{
    let mut args = Args::new(alloc);
    for argument in terms {
        if let Some(mode) = argument_mode(argument) {
            args.push(arg_of(&mode))?;
        }
    }
    Ok(args)
}

// The arguments of a mode's declaration, which are the modes alone.
fn args_alone(alloc: Global, terms: &[TermRef<'_>]) -> Result<Args, NoMemory>
    ensures { IfOk result (λ args. args ≡ args_of (map Some terms.now)) }
{
    let mut args = Args::new(alloc);
    for argument in terms {
        args.push(arg_of(argument))?;
    }
    Ok(args)
}

fn arg_of(mode: &TermRef<'_>) -> Arg
    ensures { result ≡ arg_of (is_out (plain_name mode.now)) }
{
    match plain_name(mode) {
        Some(name) if name == Name::OUT => Arg::Output,
        _ => Arg::Input,
    }
}

// The category of a declaration, `det` where it names none.
fn declared_category(category: &Option<TermRef<'_>>) -> Category
    ensures { result ≡ declared_category category.now }
{
    match category {
        Some(term) => match plain_name(term) {
            Some(name) => named_category(name),
            None => Category::Det,
        },
        None => Category::Det,
    }
}

fn named_category(name: Name) -> Category
    ensures { result ≡ category_or_det (category_named name) }
{
    match category_named(name) {
        Some(category) => category,
        None => Category::Det,
    }
}

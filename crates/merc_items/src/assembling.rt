//! The module that items are.
ghost use Rattle.std.specs.Prelude.{◌≡◌, List, [], ◌∷◌, ◌++◌, map, IfOk, OnOk};
ghost use Rattle.std.specs.List.{flat_map};
ghost use Rattle.merc_base.specs.Names.{semicolon_name};
ghost use Rattle.merc_entries.specs.Entries.{imports, with_units, units_of};
ghost use Rattle.merc_entries.specs.EntryValue.{entry_values};
ghost use Rattle.merc_operands.specs.Members.{chain};
ghost use Rattle.merc_tree.specs.Term.{Term};
ghost use Rattle.merc_tree.specs.Shape.{arguments_of};
ghost use Rattle.merc_item_forms.specs.Forms.{argument_type};
ghost use Rattle.merc_item_forms.specs.Items.{TypeItem, item_of};
ghost use Rattle.merc_item_forms.specs.FormFaults.{own_name};
ghost use Rattle.merc_items.specs.ModuleOf.{constructor_of, clauses_in, declared_type, head_name, module_of, parameters, pred_decls, type_defs, type_defs_of};
ghost use Rattle.merc_items.specs.Assembling.{clause_of, pred_decl_of, preds_by};
ghost use Rattle.merc_items.specs.Parting.{kept, part_of};

use crate::declared_modes::ModeTable;
use crate::declared_types::{argument_types, declared_types, type_variable};
use crate::parting::Part;
use merc_base::{Name, Names, NoMemory, Span};
use merc_entries::{DistinctNames, Entry, imports};
use merc_item_forms::{Item, item_of, own_name};
use merc_operands::{arguments, members};
use merc_tree::{
    Clause, Clauses, Constructor, Constructors, Module, NameList, PredDecl, PredDecls, Shape, Term,
    TermRef, Terms, TypeDef, TypeDefs, TypeExprs,
};
use std::alloc::Global;

/// The module that the items of a file and of the units that it imports are. Where its name is missing, or that of a
/// type, a constructor or a predicate, any name stands there.
pub(crate) fn module_of(
    alloc: Global,
    names: &Names,
    terms: &Terms,
    entries: &[Entry<'_>],
) -> Result<Module, NoMemory>
    ensures { IfOk result (λ found. found ≡ module_of names.now terms.now (entry_values entries.now)) }
{
    let units = units_of(alloc, terms)?;
    let mut found = Module {
        name: own_name(terms),
        units,
        types: TypeDefs::new(alloc),
        preds: PredDecls::new(alloc),
        own: 0,
        clauses: Clauses::new(alloc),
    };
    match fill(alloc, names, entries, &mut found) {
        Ok(()) => Ok(found),
        Err(refused) => {
            // (a call, here and below, since it costs much to prove what is dropped)
            drop(found);
            Err(refused)
        }
    }
}

// Puts types, predicates and clauses into a module that has none yet.
fn fill(
    alloc: Global,
    names: &Names,
    entries: &[Entry<'_>],
    found: &mut Module,
) -> Result<(), NoMemory>
    requires types { found.old.types ≡ [] }
    requires preds { found.old.preds ≡ [] }
    requires clauses { found.old.clauses ≡ [] }
    ensures { OnOk result ((terms : List Term) → found.old.name ≡ own_name terms → found.old.units ≡ units_of terms → found.new ≡ module_of names.now terms (entry_values entries.now)) }
{
    push_types(alloc, names, Part::File, entries, &mut found.types)?;
    push_types(alloc, names, Part::Units, entries, &mut found.types)?;
    push_predicates(alloc, names, Part::File, entries, &mut found.preds)?;
    found.own = found.preds.as_slice().len();
    push_predicates(alloc, names, Part::Units, entries, &mut found.preds)?;
    push_clauses(alloc, Part::File, entries, &mut found.clauses)?;
    push_clauses(alloc, Part::Units, entries, &mut found.clauses)
}

// What stands where a name is missing.
const ANY_NAME: Name = Name::DIVISION_BY_ZERO;

// The units that the items of a file import, in the order of their first imports.
fn units_of(alloc: Global, terms: &Terms) -> Result<NameList, NoMemory>
    ensures { IfOk result (λ units. units ≡ units_of terms.now) }
{
    let mut units = DistinctNames::new(alloc);
    match insert_imports(alloc, terms, &mut units) {
        Ok(()) => Ok(NameList::from_vec(units.into_vec())),
        Err(refused) => {
            drop(units);
            Err(refused)
        }
    }
}

// Adds the units that the items of a file import.
fn insert_imports(alloc: Global, terms: &Terms, units: &mut DistinctNames) -> Result<(), NoMemory>
    ensures { OnOk result (units.new ≡ with_units units.old (flat_map (λ term. imports (item_of term)) terms.now)) }
{
    for index in 0..terms.len() {
        if let Some(term) = terms.get(index) {
            insert_all(units, &imports(alloc, &item_of(&term))?)?;
        }
    }
    Ok(())
}

fn insert_all(units: &mut DistinctNames, names: &[Name]) -> Result<(), NoMemory>
    ensures { OnOk result (units.new ≡ with_units units.old names.now) }
{
    for name in names {
        units.insert(*name)?;
    }
    Ok(())
}

// Puts the types of a part of the module behind the others.
fn push_types(
    alloc: Global,
    names: &Names,
    part: Part,
    entries: &[Entry<'_>],
    types: &mut TypeDefs,
) -> Result<(), NoMemory>
    ensures { OnOk result (types.new ≡ types.old ++ flat_map (kept part (type_defs names.now)) (entry_values entries.now)) }
{
    for entry in entries {
        if part.has(entry) {
            if let Item::Type(head, root) = &entry.item {
                push_type(alloc, names, entry.unit, head, root, types)?;
            }
        }
    }
    Ok(())
}

// Puts the type with this head and this chain of constructors behind the others.
fn push_type(
    alloc: Global,
    names: &Names,
    unit: Option<Name>,
    head: &TermRef<'_>,
    root: &TermRef<'_>,
    types: &mut TypeDefs,
) -> Result<(), NoMemory>
    ensures { OnOk result (types.new ≡ types.old ++ type_defs_of names.now unit (TypeItem head.now (chain semicolon_name root.now))) }
{
    let params = type_parameters(alloc, names, head)?;
    match constructors(alloc, names, root) {
        Ok(constructors) => types.push(TypeDef {
            name: head_name(head),
            params,
            constructors,
            unit,
        }),
        Err(refused) => {
            drop(params);
            Err(refused)
        }
    }
}

fn head_name(head: &TermRef<'_>) -> Name
    ensures { result ≡ head_name head.now }
{
    match head.shape() {
        Shape::Application { name, .. } => name,
        _ => ANY_NAME,
    }
}

// The type variables among the arguments of a type's head.
fn type_parameters(alloc: Global, names: &Names, head: &TermRef<'_>) -> Result<NameList, NoMemory>
    ensures { IfOk result (λ variables. variables ≡ parameters names.now (arguments_of head.now)) }
{
    let terms = arguments(alloc, head)?;
    let variables = parameters(alloc, names, &terms);
    drop(terms);
    variables
}

// The type variables among terms.
fn parameters(alloc: Global, names: &Names, terms: &[TermRef<'_>]) -> Result<NameList, NoMemory>
    ensures { IfOk result (λ variables. variables ≡ parameters names.now terms.now) }
{
    let mut variables = NameList::new(alloc);
    for term in terms {
        if let Shape::Variable(name) = term.shape() {
            variables.push(type_variable(names, name, term.span()))?;
        }
    }
    Ok(variables)
}

fn constructors(alloc: Global, names: &Names, root: &TermRef<'_>) -> Result<Constructors, NoMemory>
    ensures { IfOk result (λ constructors. constructors ≡ map (constructor_of names.now) (chain semicolon_name root.now)) }
{
    let terms = members(alloc, root, Name::SEMICOLON)?;
    let mut constructors = Constructors::new(alloc);
    let pushed = push_constructors(alloc, names, &terms, &mut constructors);
    drop(terms);
    match pushed {
        Ok(()) => Ok(constructors),
        Err(refused) => {
            drop(constructors);
            Err(refused)
        }
    }
}

fn push_constructors(
    alloc: Global,
    names: &Names,
    terms: &[TermRef<'_>],
    constructors: &mut Constructors,
) -> Result<(), NoMemory>
    ensures { OnOk result (constructors.new ≡ constructors.old ++ map (constructor_of names.now) terms.now) }
{
    for term in terms {
        push_constructor(alloc, names, term, constructors)?;
    }
    Ok(())
}

// Puts the constructor with this head behind the others.
fn push_constructor(
    alloc: Global,
    names: &Names,
    head: &TermRef<'_>,
    constructors: &mut Constructors,
) -> Result<(), NoMemory>
    ensures { OnOk result (constructors.new ≡ constructors.old ++ constructor_of names.now head.now ∷ []) }
{
    let terms = arguments(alloc, head)?;
    let args = declared_types(alloc, names, &terms);
    // (a call, since it costs much to prove what is dropped at each `?`)
    drop(terms);
    constructors.push(Constructor {
        name: head_name(head),
        args: args?,
    })
}

// Puts the predicates of a part of the module behind the others, each with its modes in that part.
fn push_predicates(
    alloc: Global,
    names: &Names,
    part: Part,
    entries: &[Entry<'_>],
    preds: &mut PredDecls,
) -> Result<(), NoMemory>
    ensures { OnOk result (preds.new ≡ preds.old ++ flat_map (pred_decls names.now (part_of part (entry_values entries.now))) (part_of part (entry_values entries.now))) }
{
    let table = ModeTable::of(alloc, part, entries)?;
    let pushed = push_with_modes(alloc, names, &table, part, entries, preds);
    drop(table);
    pushed
}

// Puts the predicates of a part of the module behind the others, each with its modes in the table.
fn push_with_modes(
    alloc: Global,
    names: &Names,
    table: &ModeTable,
    part: Part,
    entries: &[Entry<'_>],
    preds: &mut PredDecls,
) -> Result<(), NoMemory>
    ensures { OnOk result (preds.new ≡ preds.old ++ flat_map (kept part (preds_by names.now table.now)) (entry_values entries.now)) }
{
    for entry in entries {
        if part.has(entry) {
            if let Item::Predicate(head, _) = &entry.item {
                push_predicate(alloc, names, table, entry.unit, head, entry.span, preds)?;
            }
        }
    }
    Ok(())
}

// The types of a predicate's arguments.
fn predicate_types(alloc: Global, names: &Names, head: &TermRef<'_>) -> Result<TypeExprs, NoMemory>
    ensures { IfOk result (λ types. types ≡ map (λ argument. declared_type names.now (argument_type argument)) (arguments_of head.now)) }
{
    let terms = arguments(alloc, head)?;
    let types = argument_types(alloc, names, &terms);
    drop(terms);
    types
}

// Puts the predicate with this head behind the others.
fn push_predicate(
    alloc: Global,
    names: &Names,
    table: &ModeTable,
    unit: Option<Name>,
    head: &TermRef<'_>,
    span: Span,
    preds: &mut PredDecls,
) -> Result<(), NoMemory>
    ensures { OnOk result (preds.new ≡ preds.old ++ pred_decl_of names.now table.now unit span head.now ∷ []) }
{
    let args = predicate_types(alloc, names, head)?;
    match table.modes(alloc, head) {
        Ok(modes) => preds.push(PredDecl {
            name: head_name(head),
            args,
            modes,
            span,
            unit,
        }),
        Err(refused) => {
            drop(args);
            Err(refused)
        }
    }
}

// Puts the clauses of a part of the module behind the others.
fn push_clauses(
    alloc: Global,
    part: Part,
    entries: &[Entry<'_>],
    clauses: &mut Clauses,
) -> Result<(), NoMemory>
    ensures { OnOk result (clauses.new ≡ clauses.old ++ flat_map (kept part clauses_in) (entry_values entries.now)) }
{
    for entry in entries {
        if part.has(entry) {
            if let Item::Clause(head, body) = &entry.item {
                push_clause(alloc, head, body, entry.span, clauses)?;
            }
        }
    }
    Ok(())
}

// Puts the clause with this head and this body behind the others.
fn push_clause(
    alloc: Global,
    head: &TermRef<'_>,
    body: &Option<TermRef<'_>>,
    span: Span,
    clauses: &mut Clauses,
) -> Result<(), NoMemory>
    ensures { OnOk result (clauses.new ≡ clauses.old ++ clause_of span head.now body.now ∷ []) }
{
    let body = body_term(alloc, body)?;
    match head.to_term(alloc) {
        Ok(head) => clauses.push(Clause { head, body, span }),
        Err(refused) => {
            drop(body);
            Err(refused)
        }
    }
}

fn body_term(alloc: Global, body: &Option<TermRef<'_>>) -> Result<Option<Term>, NoMemory>
    ensures { IfOk result (λ copy. copy ≡ body.now) }
{
    match body {
        Some(body) => Ok(Some(body.to_term(alloc)?)),
        None => Ok(None),
    }
}

//! The declared types of a module.
ghost use Rattle.std.specs.Prelude.{◌≡◌, [], ◌∷◌, slice_get, IfOk, OnOk};
ghost use Rattle.std.specs.List.{AllByRecursion};
ghost use Rattle.merc_base.specs.Groups.{kept};
ghost use Rattle.merc_type_table.specs.Numbering.{IsNumbering};
ghost use Rattle.merc_type_matching.specs.Listed.{AreWithin};
ghost use Rattle.merc_type_check.specs.TypeNumbers.{numbers_found, AreAllWithin, AreDeclared, Numbered, NumbersConstructors, NumbersPredicates, Renumbers};

use merc_base::{Groups, Key, Name, NoMemory, Sequence};
use merc_name_resolution::Known;
use merc_tree::{Constructor, PredDecl, TypeDef, TypeExprs};
use merc_type_matching::ListedTypes;
use merc_type_table::{TypeNumber, TypeNumbering};
use std::alloc::Global;

/// The declared types of a module by numbers, and the numbers of the types of each predicate's and each constructor's
/// arguments. It is made once for a module, so that types of clauses are compared by their numbers.
#[derive(Drop)]
pub struct DeclaredTypes {
    table: ListedTypes,
    // By the predicates' numbers.
    predicates: Vec<Sequence<TypeNumber>>,
    constructors: Groups<Sequence<TypeNumber>>,
}

impl DeclaredTypes {
    /// The declared types of a module. With n parts of them this takes time of the order of n log n.
    ///
    /// # Errors
    ///
    /// `NoMemory` where memory was refused.
    pub fn of(alloc: Global, known: &Known<'_>) -> Result<DeclaredTypes, NoMemory>
        ensures { IfOk result (λ declared. AreDeclared known.now declared) }
    {
        let mut numbering = TypeNumbering::new(alloc)?;
        let predicates = number_predicates(alloc, known.module().preds.as_slice(), &mut numbering)?;
        let constructors = number_constructors(
            alloc,
            known.module().types.as_slice(),
            &mut numbering,
        )?;
        let mut table = ListedTypes::new(alloc, numbering.into_table(alloc)?);
        list_predicates(alloc, &predicates, &mut table)?;
        list_constructors(
            alloc,
            known.module().types.as_slice(),
            &constructors,
            &mut table,
        )?;
        Ok(DeclaredTypes {
            table,
            predicates,
            constructors,
        })
    }

    /// The types by numbers.
    pub(crate) fn listed(&self) -> &ListedTypes
        ensures { result.now ≡ self.now.table }
    {
        &self.table
    }

    /// The numbers of the types of a predicate's arguments.
    pub(crate) fn of_predicate(&self, number: usize) -> &[TypeNumber]
        ensures { result.now ≡ numbers_found (slice_get self.now.predicates.items number) }
    {
        match self.predicates.get(number) {
            Some(numbers) => numbers.as_slice(),
            None => &[],
        }
    }

    /// The numbers of the types of a constructor's arguments.
    pub(crate) fn of_constructor(&self, name: Name, arity: usize) -> &[TypeNumber]
        ensures { result.now ≡ numbers_found (slice_get (kept self.now.constructors name arity) 0) }
    {
        match self.constructors.at(Key { name, arity }).first() {
            Some(numbers) => numbers.as_slice(),
            None => &[],
        }
    }
}

// Numbers the types of predicates' arguments.
fn number_predicates(
    alloc: Global,
    preds: &[PredDecl],
    numbering: &mut TypeNumbering,
) -> Result<Vec<Sequence<TypeNumber>>, NoMemory>
    requires { IsNumbering numbering.old }
    ensures { IfOk result (λ predicates. NumbersPredicates numbering.old numbering.new predicates.items preds.now) }
{
    let mut predicates = Vec::new(alloc);
    for declared in preds {
        let numbers = number_types(alloc, &declared.args, numbering)?;
        predicates.push(numbers)?;
    }
    Ok(predicates)
}

// Lists the type variables of the types of predicates' arguments.
fn list_predicates(
    alloc: Global,
    predicates: &[Sequence<TypeNumber>],
    listed: &mut ListedTypes,
) -> Result<(), NoMemory>
    requires { AllByRecursion (AreWithin listed.old) predicates.now }
    ensures { OnOk result (listed.new ≡ listed.old) }
{
    for numbers in predicates {
        listed.list_all(alloc, numbers.as_slice())?;
    }
    Ok(())
}

// Lists the type variables of the types of constructors' arguments.
fn list_constructors(
    alloc: Global,
    types: &[TypeDef],
    constructors: &Groups<Sequence<TypeNumber>>,
    listed: &mut ListedTypes,
) -> Result<(), NoMemory>
    requires { AreAllWithin listed.old constructors.now }
    ensures { OnOk result (listed.new ≡ listed.old) }
{
    for declared in types {
        list_type(alloc, declared, constructors, listed)?;
    }
    Ok(())
}

// Lists the type variables of the types of the arguments of a type's constructors.
fn list_type(
    alloc: Global,
    declared: &TypeDef,
    constructors: &Groups<Sequence<TypeNumber>>,
    listed: &mut ListedTypes,
) -> Result<(), NoMemory>
    requires { AreAllWithin listed.old constructors.now }
    ensures { OnOk result (listed.new ≡ listed.old) }
{
    for constructor in declared.constructors.as_slice() {
        let key = Key {
            name: constructor.name,
            arity: constructor.args.len(),
        };
        if let Some(numbers) = constructors.at(key).first() {
            listed.list_all(alloc, numbers.as_slice())?;
        }
    }
    Ok(())
}

// Numbers the types of constructors' arguments.
fn number_constructors(
    alloc: Global,
    types: &[TypeDef],
    numbering: &mut TypeNumbering,
) -> Result<Groups<Sequence<TypeNumber>>, NoMemory>
    requires { IsNumbering numbering.old }
    ensures { IfOk result (λ constructors. NumbersConstructors numbering.old numbering.new constructors types.now) }
{
    let mut constructors = Groups::new(alloc);
    for declared in types {
        number_type(alloc, declared, numbering, &mut constructors)?;
    }
    Ok(constructors)
}

// Numbers the types of the arguments of a type's constructors.
fn number_type(
    alloc: Global,
    declared: &TypeDef,
    numbering: &mut TypeNumbering,
    constructors: &mut Groups<Sequence<TypeNumber>>,
) -> Result<(), NoMemory>
    requires { IsNumbering numbering.old }
    ensures { OnOk result (Renumbers numbering.old numbering.new constructors.old constructors.new declared.now.constructors) }
{
    for constructor in declared.constructors.as_slice() {
        number_constructor(alloc, constructor, numbering, constructors)?;
    }
    Ok(())
}

// Numbers the types of a constructor's arguments.
fn number_constructor(
    alloc: Global,
    constructor: &Constructor,
    numbering: &mut TypeNumbering,
    constructors: &mut Groups<Sequence<TypeNumber>>,
) -> Result<(), NoMemory>
    requires { IsNumbering numbering.old }
    ensures { OnOk result (Renumbers numbering.old numbering.new constructors.old constructors.new (constructor.now ∷ [])) }
{
    let numbers = number_types(alloc, &constructor.args, numbering)?;
    let key = Key {
        name: constructor.name,
        arity: constructor.args.len(),
    };
    constructors.add(alloc, key, numbers)
}

// Numbers types.
fn number_types(
    alloc: Global,
    declared: &TypeExprs,
    numbering: &mut TypeNumbering,
) -> Result<Sequence<TypeNumber>, NoMemory>
    requires { IsNumbering numbering.old }
    ensures { IfOk result (λ numbers. Numbered numbering.old numbering.new numbers declared.now) }
{
    let mut numbers = Sequence::new(alloc);
    for index in 0..declared.len() {
        match declared.get(index) {
            Some(one) => numbers.push(numbering.number(alloc, &one)?)?,
            None => unreachable!(),
        }
    }
    Ok(numbers)
}

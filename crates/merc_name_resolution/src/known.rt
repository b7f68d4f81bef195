//! Look-ups in a module.
ghost use Rattle.std.specs.Prelude.{◌≡◌, ◌==◌, map, slice_get, IfOk};
ghost use Rattle.std.specs.List.{list_any};
ghost use Rattle.std.specs.Option.{option_copied, option_map};
ghost use Rattle.merc_name_resolution.specs.Indexing.{any_allowed, constructor_seen, first_allowed, predicate_seen};
ghost use Rattle.merc_name_resolution.specs.Known.{allows, callee_in, constructor_in, is_callee, is_constructor, is_error};

use crate::Callee;
use crate::indexing::{constructors_of, predicates_of};
use merc_base::{Groups, Key, Name, NoMemory};
use merc_goal_tree::Predicate;
use merc_tree::{Constructor, Module, PredDecl, TypeDef};
use std::alloc::Global;
use std::marker::Model;

/// What names mean in a module. A look-up takes time of the order of log n, and no memory.
#[derive(Drop)]
pub struct Known<'a> {
    source: &'a Module,
    // Whether `require` is imported, so that `error/1` is known.
    has_require: bool,
    // Predicates with their numbers.
    predicates: Groups<(usize, &'a PredDecl)>,
    // Constructors with their types.
    constructors: Groups<(&'a TypeDef, &'a Constructor)>,
}

impl<'a> Model for Known<'a> {
    ghost use Rattle.merc_tree.specs.declared.declarations.Module.{Module};

    ghost Value = { Module };

    ghost use Rattle.std.specs.Coded.{codes};
    ghost use Rattle.merc_tree.specs.TermCode.{term_code};
    ghost use Rattle.merc_tree.specs.TypeTerms.{type_code};

    ghost coded = { Prim.hlevel (codes, term_code, type_code) };

    ghost use Rattle.merc_name_resolution.specs.Indexing.{Indexes};

    ghost view = { λ k. k.source.now };

    ghost invariant = { λ k. Indexes k.source.now k.has_require k.predicates k.constructors };
}

impl<'a> Known<'a> {
    /// The names of a module.
    ///
    /// # Errors
    ///
    /// `NoMemory` where memory was refused.
    pub fn of(alloc: Global, module: &'a Module) -> Result<Known<'a>, NoMemory>
        ensures { IfOk result (λ known. known ≡ «module».now) }
    {
        let has_require = has_unit(module.units.as_slice(), Name::REQUIRE);
        let predicates = predicates_of(alloc, module.preds.as_slice())?;
        let constructors = constructors_of(alloc, module.types.as_slice())?;
        Ok(Known {
            source: module,
            has_require,
            predicates,
            constructors,
        })
    }

    /// The module.
    pub fn module(&self) -> &'a Module
        ensures { result.now ≡ self.now }
    {
        self.source
    }

    /// What a call of a name with a qualifier and so many arguments is of: `error/1` where `require` is imported, or the
    /// first such predicate. Where the name means neither, that is the number of all predicates.
    pub fn callee(&self, name: Name, qualifier: Option<Name>, arity: usize) -> Callee
        ensures { result ≡ callee_in self.now name qualifier arity }
    {
        if self.is_error(name, &qualifier, arity) {
            return Callee::Error;
        }
        let own = self.source.name;
        let count = self.source.preds.as_slice().len();
        let found = self.predicates.at(Key { name, arity });
        Callee::Predicate(Predicate::new(first_allowed(own, &qualifier, found, count)))
    }

    /// Whether what a call is of is there.
    pub fn is_callee(&self, callee: Callee) -> bool
        ensures { result ≡ is_callee self.now callee }
    {
        match callee {
            Callee::Predicate(predicate) => predicate.number() < self.source.preds.as_slice().len(),
            Callee::Error => true,
        }
    }

    /// The predicate of a number, None past the last.
    pub fn predicate(&self, number: usize) -> Option<&'a PredDecl>
        ensures { option_copied result ≡ slice_get self.now.preds number }
    {
        self.source.preds.as_slice().get(number)
    }

    /// Whether a name with a qualifier and so many arguments is a constructor.
    pub fn is_constructor(&self, name: Name, qualifier: Option<Name>, arity: usize) -> bool
        ensures { result ≡ is_constructor self.now name qualifier arity }
    {
        let own = self.source.name;
        any_allowed(own, &qualifier, self.constructors.at(Key { name, arity }))
    }

    /// The constructor of this name with so many arguments, and its type. None where there is none.
    pub fn constructor(&self, name: Name, arity: usize) -> Option<(&'a TypeDef, &'a Constructor)>
        ensures { option_map (λ found. (found.0.now, found.1.now)) result ≡ constructor_in self.now.types name arity }
    {
        first_of(self.constructors.at(Key { name, arity }))
    }

    // Whether a call is of `error/1`.
    fn is_error(&self, name: Name, qualifier: &Option<Name>, arity: usize) -> bool
        ensures { result ≡ is_error self.now name qualifier.now arity }
    {
        name == Name::ERROR
            && arity == 1
            && self.has_require
            && allows(self.source.name, qualifier, &Some(Name::REQUIRE))
    }
}

// Whether a name with this qualifier may be that of an item of a unit, none for the module's own.
fn allows(own: Name, qualifier: &Option<Name>, unit: &Option<Name>) -> bool
    ensures { result ≡ allows own qualifier.now unit.now }
{
    match (qualifier, unit) {
        (None, _) => true,
        (Some(qualifier), None) => *qualifier == own,
        (Some(qualifier), Some(unit)) => *qualifier == *unit,
    }
}

fn has_unit(units: &[Name], unit: Name) -> bool
    ensures { result ≡ list_any (λ other. other == unit) units.now }
{
    units.iter().any(|other| *other == unit)
}

// The number of the first of these predicates that is allowed, or `none` where there is none.
fn first_allowed(
    own: Name,
    qualifier: &Option<Name>,
    found: &[(usize, &PredDecl)],
    none: usize,
) -> usize
    ensures { result ≡ first_allowed own qualifier.now (map predicate_seen found.now) none }
{
    for (number, declared) in found {
        if allows(own, qualifier, &declared.unit) {
            return *number;
        }
    }
    none
}

// Whether one of these constructors is allowed.
fn any_allowed(own: Name, qualifier: &Option<Name>, found: &[(&TypeDef, &Constructor)]) -> bool
    ensures { result ≡ any_allowed own qualifier.now (map constructor_seen found.now) }
{
    for (declared, _) in found {
        if allows(own, qualifier, &declared.unit) {
            return true;
        }
    }
    false
}

fn first_of<'a>(found: &[(&'a TypeDef, &'a Constructor)]) -> Option<(&'a TypeDef, &'a Constructor)>
    ensures { option_map constructor_seen result ≡ slice_get (map constructor_seen found.now) 0 }
{
    found.first().copied()
}

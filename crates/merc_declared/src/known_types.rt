//! The types that declarations of the file name, which have to be declared.
ghost use Rattle.std.specs.Prelude.{◌≡◌, ◌||◌, ◌&&◌, ◌==◌, ℕ, false, List, [], ◌∷◌, ◌-◌, length, take, IfOk, IfErr, OnOk};
ghost use Rattle.std.specs.List.{list_any};
ghost use Rattle.merc_base.specs.declared.refusal.Rule.TheVariants.{UnknownType};
ghost use Rattle.merc_tree.specs.Shape.{arguments_of};
ghost use Rattle.merc_tree.specs.Postfix.{shapes_of};
ghost use Rattle.merc_item_forms.specs.Forms.{argument_type};
ghost use Rattle.merc_base.specs.declared.groups.Key.{Key as key_record};
ghost use Rattle.merc_entries.specs.Entries.{Entry as entry_record, is_key};
ghost use Rattle.merc_declared.specs.UnknownTypes.{HasUnknownType, has_unknown};
ghost use Rattle.merc_entries.specs.EntryValue.{entry_value, entry_values, AreInOrder, place_at};
ghost use Rattle.merc_item_forms.specs.ItemValue.{item_value};
ghost use Rattle.merc_item_forms.specs.Items.{TypeItem};
ghost use Rattle.merc_entries.specs.KeySets.{keys_at};
ghost use Rattle.merc_base.specs.FirstFault.{AtPlaces, HasNone, AnswersFirst};
ghost use Rattle.merc_base.specs.FirstPlace.{first_place};
ghost use Rattle.merc_declared.specs.declared.known_types.Variables.TheVariants.{Any};
ghost use Rattle.merc_declared.specs.KnownTypes.{has_unit_key, HoldsTypes, AddsTypes, is_known_by, is_unbound_by, is_wrong_shape, HoldsVariables, has_unknown_here};

use merc_base::{Detail, Fault, Key, Name, Names, NoMemory, Place, Refusal, Rule};
use merc_entries::{Entry, KeySet, type_key};
use merc_item_forms::{Item, argument_type};
use merc_operands::members;
use merc_tree::{Shape, TermRef};
use merc_value::is_blank;
use std::alloc::Global;
use std::collections::BTreeSet;

/// Checks that the declarations of the file name known types, and that each variable in a type's declaration is a
/// parameter of its head. The entries stand in the order of their places.
///
/// # Errors
///
/// `Refused` says the first declaration that does not. `NoMemory` says that memory was refused.
pub fn check_types(
    alloc: Global,
    entries: &[Entry<'_>],
    own: Name,
    names: &Names,
) -> Result<(), Fault>
    requires order { AreInOrder (entry_values entries.now) }
    ensures fine { IfOk result (λ _. HasNone (AtPlaces UnknownType (HasUnknownType names.now own (entry_values entries.now)))) }
    ensures refused { IfErr result (λ fault. AnswersFirst (AtPlaces UnknownType (HasUnknownType names.now own (entry_values entries.now))) fault) }
{
    match unknown_place(alloc, entries, own, names)? {
        Some(place) => Err(Fault::Refused(Refusal {
            rule: Rule::UnknownType,
            place,
            detail: Detail::Plain,
        })),
        None => Ok(()),
    }
}

// The place of the first declaration of the file that is at fault.
fn unknown_place(
    alloc: Global,
    entries: &[Entry<'_>],
    own: Name,
    names: &Names,
) -> Result<Option<Place>, NoMemory>
    ensures { IfOk result (λ place. place ≡ first_place place_at (has_unknown_here names.now own (entry_values entries.now)) (entry_values entries.now)) }
{
    let types = KnownTypes::of(alloc, entries, own)?;
    let place = first_unknown(alloc, entries, names, &types);
    // (a call, here and below, since it costs much to prove what is dropped)
    drop(types);
    place
}

// The same by the types that are known.
fn first_unknown(
    alloc: Global,
    entries: &[Entry<'_>],
    names: &Names,
    types: &KnownTypes,
) -> Result<Option<Place>, NoMemory>
    requires { HoldsTypes types.now.own_name (entry_values entries.now) types.now }
    ensures { IfOk result (λ place. place ≡ first_place place_at (has_unknown_here names.now types.now.own_name (entry_values entries.now)) (entry_values entries.now)) }
{
    for entry in entries {
        if types.is_at_fault(alloc, entry, names)? {
            return Ok(Some(entry.place));
        }
    }
    Ok(None)
}

// A type of a unit.
#[derive(Clone, Copy, PartialEq, Eq, PartialOrd, Ord)]
struct UnitKey {
    unit: Name,
    key: Key,
}

// Types of units.
#[derive(Drop)]
struct UnitKeys {
    keys: BTreeSet<UnitKey>,
}

impl UnitKeys {
    fn new(alloc: Global) -> UnitKeys
        ensures { (unit : ℕ) (found : key_record) → has_unit_key result unit (found ∷ []) ≡ false }
    {
        UnitKeys {
            keys: BTreeSet::new(alloc),
        }
    }

    // Adds a key of a unit, or nothing where there is none.
    fn insert(&mut self, unit: Name, key: Option<Key>) -> Result<(), NoMemory>
        ensures { OnOk result ((other : ℕ) (found : key_record) → has_unit_key self.new other (found ∷ []) ≡ (has_unit_key self.old other (found ∷ []) || ((unit == other) && list_any (is_key found) (keys_at key)))) }
    {
        if let Some(key) = key {
            self.keys.insert(UnitKey { unit, key })?;
        }
        Ok(())
    }

    fn contains(&self, unit: Name, key: Key) -> bool
        ensures { result ≡ has_unit_key self.now unit (key ∷ []) }
    {
        self.keys.contains(&UnitKey { unit, key })
    }
}

// The variables that may stand in a type.
#[derive(Drop)]
enum Variables {
    Any,
    Only(BTreeSet<Name>),
}

impl Variables {
    // Whether a variable may not stand there.
    fn is_unbound(&self, names: &Names, name: Name) -> bool
        ensures { result ≡ is_unbound_by names.now self.now name }
    {
        match self {
            Variables::Any => false,
            Variables::Only(parameters) => is_blank(names, name) || !parameters.contains(&name),
        }
    }
}

// The variables among the arguments of a head.
fn parameters_of(alloc: Global, head: &TermRef<'_>) -> Result<BTreeSet<Name>, NoMemory>
    ensures { IfOk result (λ parameters. HoldsVariables (arguments_of head.now) parameters) }
{
    let mut parameters = BTreeSet::new(alloc);
    match add_parameters(head, &mut parameters) {
        Ok(()) => Ok(parameters),
        Err(refused) => {
            drop(parameters);
            Err(refused)
        }
    }
}

// Adds the variables among the arguments of a head to a set without any.
fn add_parameters(head: &TermRef<'_>, parameters: &mut BTreeSet<Name>) -> Result<(), NoMemory>
    requires { HoldsVariables [] parameters.old }
    ensures { OnOk result (HoldsVariables (arguments_of head.now) parameters.new) }
{
    let mut rest = head.arguments();
    while let Some(argument) = rest.take_last() {
        if let Shape::Variable(name) = argument.shape() {
            parameters.insert(name)?;
        }
    }
    Ok(())
}

// The types that the entries of a module declare: those of any entry, the file's own, and those of each unit.
#[derive(Drop)]
struct KnownTypes {
    own_name: Name,
    any: KeySet,
    file: KeySet,
    units: UnitKeys,
}

impl KnownTypes {
    fn of(alloc: Global, entries: &[Entry<'_>], own: Name) -> Result<KnownTypes, NoMemory>
        ensures { IfOk result (λ types. HoldsTypes own (entry_values entries.now) types) }
    {
        let mut types = KnownTypes {
            own_name: own,
            any: KeySet::new(alloc),
            file: KeySet::new(alloc),
            units: UnitKeys::new(alloc),
        };
        match types.add_all(entries) {
            Ok(()) => Ok(types),
            Err(refused) => {
                drop(types);
                Err(refused)
            }
        }
    }

    // Adds the types that all entries declare, where there are none yet.
    fn add_all(&mut self, entries: &[Entry<'_>]) -> Result<(), NoMemory>
        requires { HoldsTypes self.old.own_name [] self.old }
        ensures { OnOk result (HoldsTypes self.old.own_name (entry_values entries.now) self.new) }
    {
        for entry in entries {
            self.add(entry)?;
        }
        Ok(())
    }

    // Adds the type that an entry declares, if it does.
    fn add(&mut self, entry: &Entry<'_>) -> Result<(), NoMemory>
        ensures { OnOk result (AddsTypes self.old self.new (entry_value entry.now)) }
    {
        self.any.insert(type_key(&entry.item))?;
        match entry.unit {
            Some(unit) => self.units.insert(unit, type_key(&entry.item))?,
            None => self.file.insert(type_key(&entry.item))?,
        }
        Ok(())
    }

    // Whether a type with this qualifier is known.
    fn is_known(&self, qualifier: Option<Name>, key: Key) -> bool
        ensures { result ≡ is_known_by self.now qualifier key }
    {
        match qualifier {
            Some(qualifier) => {
                (qualifier == self.own_name && self.file.contains(Some(key)))
                    || self.units.contains(qualifier, key)
            }
            None => {
                (key.arity == 0 && (key.name == Name::INT || key.name == Name::STRING))
                    || self.any.contains(Some(key))
            }
        }
    }

    // Whether a part of a type is an unknown type, or a variable that may not stand there.
    fn is_wrong(&self, part: &Shape, names: &Names, variables: &Variables) -> bool
        ensures { result ≡ is_wrong_shape names.now self.now variables.now part.now }
    {
        match part {
            Shape::Variable(name) => variables.is_unbound(names, *name),
            Shape::Application {
                name,
                qualifier,
                arity,
            } => !self.is_known(
                *qualifier,
                Key {
                    name: *name,
                    arity: *arity,
                },
            ),
            _ => false,
        }
    }

    // Whether one of the first parts of a term, so many, is wrong.
    fn has_wrong_part(
        &self,
        term: &TermRef<'_>,
        count: usize,
        names: &Names,
        variables: &Variables,
    ) -> bool
        ensures { result ≡ list_any (is_wrong_shape names.now self.now variables.now) (take count (shapes_of term.now)) }
    {
        for index in 0..count {
            if let Some(part) = term.part_shape(index) {
                if self.is_wrong(&part, names, variables) {
                    return true;
                }
            }
        }
        false
    }

    // Whether one of the types of a predicate's arguments is unknown.
    fn has_wrong_argument(&self, head: &TermRef<'_>, names: &Names) -> bool
        ensures { result ≡ list_any (λ argument. list_any (is_wrong_shape names.now self.now Any) (shapes_of (argument_type argument))) (arguments_of head.now) }
    {
        let mut rest = head.arguments();
        while let Some(argument) = rest.take_last() {
            let kind = argument_type(&argument);
            if self.has_wrong_part(&kind, kind.part_count(), names, &Variables::Any) {
                return true;
            }
        }
        false
    }

    // Whether a type of some argument of these constructors is wrong.
    fn has_wrong_constructor(
        &self,
        constructors: &[TermRef<'_>],
        names: &Names,
        variables: &Variables,
    ) -> bool
        ensures { result ≡ list_any (λ constructor. list_any (is_wrong_shape names.now self.now variables.now) (take (length (shapes_of constructor) - 1) (shapes_of constructor))) constructors.now }
    {
        for constructor in constructors {
            let count = constructor.part_count().saturating_sub(1);
            if self.has_wrong_part(constructor, count, names, variables) {
                return true;
            }
        }
        false
    }

    // Whether a type of some argument of these constructors is wrong, where the parameters of this head may stand in it.
    fn has_wrong_member(
        &self,
        alloc: Global,
        head: &TermRef<'_>,
        constructors: &[TermRef<'_>],
        names: &Names,
    ) -> Result<bool, NoMemory>
        ensures { IfOk result (λ answer. (own : ℕ) (entries : List entry_record) → HoldsTypes own entries self.now → answer ≡ has_unknown names.now own entries (TypeItem head.now constructors.now)) }
    {
        let variables = Variables::Only(parameters_of(alloc, head)?);
        let answer = self.has_wrong_constructor(constructors, names, &variables);
        drop(variables);
        Ok(answer)
    }

    // Whether an item names an unknown type.
    fn has_unknown(&self, alloc: Global, item: &Item<'_>, names: &Names) -> Result<bool, NoMemory>
        ensures { IfOk result (λ answer. (own : ℕ) (entries : List entry_record) → HoldsTypes own entries self.now → answer ≡ has_unknown names.now own entries (item_value item.now)) }
    {
        match item {
            Item::Type(head, root) => {
                let constructors = members(alloc, root, Name::SEMICOLON)?;
                let answer = self.has_wrong_member(alloc, head, &constructors, names);
                drop(constructors);
                answer
            }
            Item::Predicate(head, _) => Ok(self.has_wrong_argument(head, names)),
            _ => Ok(false),
        }
    }

    // Whether an entry is a declaration of the file that names an unknown type.
    fn is_at_fault(&self, alloc: Global, entry: &Entry<'_>, names: &Names) -> Result<bool, NoMemory>
        ensures { IfOk result (λ answer. (own : ℕ) (entries : List entry_record) → HoldsTypes own entries self.now → answer ≡ has_unknown_here names.now own entries (entry_value entry.now)) }
    {
        if entry.unit.is_none() {
            self.has_unknown(alloc, &entry.item, names)
        } else {
            Ok(false)
        }
    }
}

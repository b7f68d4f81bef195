//! Doubled declarations.
ghost use Rattle.std.specs.Prelude.{◌≡◌, map, IfOk, IfErr};
ghost use Rattle.merc_base.specs.Names.{error_name};
ghost use Rattle.merc_base.specs.FirstFault.{AnswersFirst, AtPlaces, HasNone};
ghost use Rattle.merc_base.specs.declared.refusal.Rule.TheVariants.{DeclaredTwice};
ghost use Rattle.merc_entries.specs.Entries.{is_key, is_same_mode, key};
ghost use Rattle.merc_entries.specs.DoubleFaults.{HasDouble, is_arithmetic};
ghost use Rattle.merc_entries.specs.EntryValue.{entry_values, AreInOrder};
ghost use Rattle.merc_entries.specs.ModeValue.{mode_value};
ghost use Rattle.merc_entries.specs.FirstPlaces.{declared_value, first_again, first_such, constructor_double, predicate_double, first_double};

mod again;
mod declarations;
mod imports;
mod modes;
mod places;

use crate::entry::Entry;
use again::{Declared, first_again};
pub use declarations::type_key;
use declarations::{constructors, modes, predicates, types};
use imports::import_place;
use merc_base::{Detail, Fault, Key, Name, NoMemory, Place, Refusal, Rule};
use modes::Mode;
use places::{both_later, earlier};
use std::alloc::Global;

/// Checks that nothing is declared twice. The entries stand in the order of their places.
///
/// # Errors
///
/// `Refused` says the first doubled declaration, at the later of the two items. `NoMemory` says that memory was refused.
pub fn check_doubles(alloc: Global, entries: &[Entry<'_>]) -> Result<(), Fault>
    requires order { AreInOrder (entry_values entries.now) }
    ensures fine { IfOk result (λ _. HasNone (AtPlaces DeclaredTwice (HasDouble (entry_values entries.now)))) }
    ensures refused { IfErr result (λ fault. AnswersFirst (AtPlaces DeclaredTwice (HasDouble (entry_values entries.now))) fault) }
{
    match first_double(alloc, entries)? {
        None => Ok(()),
        Some(place) => Err(Fault::Refused(Refusal {
            rule: Rule::DeclaredTwice,
            place,
            detail: Detail::Plain,
        })),
    }
}

// The place of the first doubled declaration.
fn first_double(alloc: Global, entries: &[Entry<'_>]) -> Result<Option<Place>, NoMemory>
    ensures { IfOk result (λ place. place ≡ first_double (entry_values entries.now)) }
{
    let types = first_key_again(alloc, types(alloc, entries)?)?;
    let constructors = constructor_double(alloc, entries)?;
    let predicates = predicate_double(alloc, entries)?;
    let modes = first_mode_again(alloc, modes(alloc, entries)?)?;
    // both units have the constructor `no`
    let bool = import_place(alloc, Name::BOOL, entries)?;
    let maybe = import_place(alloc, Name::MAYBE, entries)?;
    let units = both_later(bool, maybe);
    let behind_constructors = earlier(predicates, earlier(modes, units));
    Ok(earlier(types, earlier(constructors, behind_constructors)))
}

// The place of the first constructor that is declared again or is an arithmetic one.
fn constructor_double(alloc: Global, entries: &[Entry<'_>]) -> Result<Option<Place>, NoMemory>
    ensures { IfOk result (λ place. place ≡ constructor_double (entry_values entries.now)) }
{
    let constructors = constructors(alloc, entries)?;
    let arithmetic = first_arithmetic(&constructors);
    let again = first_key_again(alloc, constructors)?;
    Ok(earlier(again, arithmetic))
}

// The place of the first predicate that is declared again, or of `error/1` beside the unit `require`.
fn predicate_double(alloc: Global, entries: &[Entry<'_>]) -> Result<Option<Place>, NoMemory>
    ensures { IfOk result (λ place. place ≡ predicate_double (entry_values entries.now)) }
{
    let require = import_place(alloc, Name::REQUIRE, entries)?;
    let predicates = predicates(alloc, entries)?;
    let error = first_error(&predicates);
    let again = first_key_again(alloc, predicates)?;
    Ok(earlier(again, both_later(require, error)))
}

fn first_key_again(alloc: Global, declared: Vec<Declared<Key>>) -> Result<Option<Place>, NoMemory>
    ensures { IfOk result (λ place. place ≡ first_again is_key (map (declared_value (λ key. key)) declared.items)) }
{
    first_again(alloc, declared)
}

fn first_mode_again(alloc: Global, declared: Vec<Declared<Mode>>) -> Result<Option<Place>, NoMemory>
    ensures { IfOk result (λ place. place ≡ first_again is_same_mode (map (declared_value mode_value) declared.items)) }
{
    first_again(alloc, declared)
}

// The place of the first arithmetic constructor.
fn first_arithmetic(constructors: &[Declared<Key>]) -> Option<Place>
    ensures { result ≡ first_such is_arithmetic (map (declared_value (λ key. key)) constructors.now) }
{
    for constructor in constructors {
        if is_arithmetic(&constructor.key) {
            return Some(constructor.place);
        }
    }
    None
}

// Whether a constructor has the name of an arithmetic function, with as many arguments.
fn is_arithmetic(found: &Key) -> bool
    ensures { result ≡ is_arithmetic found.now }
{
    is_key(found, Name::PLUS, 2)
        || is_key(found, Name::MINUS, 2)
        || is_key(found, Name::STAR, 2)
        || is_key(found, Name::SLASH_SLASH, 2)
        || is_key(found, Name::DIV, 2)
        || is_key(found, Name::MOD, 2)
        || is_key(found, Name::REM, 2)
        || is_key(found, Name::MINUS, 1)
}

fn is_key(found: &Key, name: Name, arity: usize) -> bool
    ensures { result ≡ is_key found.now (key name arity) }
{
    found.name == name && found.arity == arity
}

// The place of the first predicate `error/1`.
fn first_error(predicates: &[Declared<Key>]) -> Option<Place>
    ensures { result ≡ first_such (is_key (key error_name 1)) (map (declared_value (λ key. key)) predicates.now) }
{
    for predicate in predicates {
        if is_error(&predicate.key) {
            return Some(predicate.place);
        }
    }
    None
}

fn is_error(found: &Key) -> bool
    ensures { result ≡ is_key (key error_name 1) found.now }
{
    Name::ERROR == found.name && 1 == found.arity
}

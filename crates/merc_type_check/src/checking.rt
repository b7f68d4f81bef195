//! Whether a goal is typed, and its typings.
ghost use Rattle.std.specs.Prelude.{◌≡◌, IfOk};
ghost use Rattle.std.specs.Option.{IfSome, IfNone};
ghost use Rattle.merc_type_check.specs.Checked.{Tells, head_of};
ghost use Rattle.merc_type_matching.specs.Kept.{AreKept};
ghost use Rattle.merc_type_check.specs.TypeNumbers.{AreDeclared, AreNumbers};
ghost use Rattle.merc_type_check.specs.Typing.{HasTyping, IsTyped};
ghost use Rattle.merc_type_check.specs.Progress.{Knows};
ghost use Rattle.merc_type_check.specs.Typings.{IsTypingOf};
ghost use Rattle.merc_tree.specs.declared.declarations.Module.{Module};

use crate::checker::Checker;
use crate::declared::DeclaredTypes;
use crate::repeats::Repeats;
use crate::typings::Typing;
use merc_base::NoMemory;
use merc_goal_tree::{NodeRef, Predicate};
use merc_name_resolution::Known;
use merc_type_matching::Matchings;
use merc_type_table::TypeNumber;
use std::alloc::Global;
use std::mem::replace;

/// Whether the variables of a goal have types, as `typing` gives them. The matchings are those of the module, to which others
/// are added.
///
/// It takes the time of `typing` or less: of the declared types of a variable that is only an argument, with types that are
/// alike but for type variables, fewer parts count. At its first use none do, and at each later one only the pairs of type
/// variables that stand at one place in both types. In a call none do where the variable already has the declared type of the
/// argument, and no other declared type of the call has type variables.
///
/// # Errors
///
/// `NoMemory` where memory was refused.
pub fn is_typed(
    alloc: Global,
    known: &Known<'_>,
    declared: &DeclaredTypes,
    matchings: &mut Matchings,
    predicate: Option<Predicate>,
    goal: &NodeRef<'_>,
) -> Result<bool, NoMemory>
    requires declared { AreDeclared known.now declared.now }
    requires kept { AreKept declared.now.table matchings.old }
    ensures typed { IfOk result (λ typed. Tells typed known.now (head_of known.now predicate) goal.now) }
    ensures kept { AreKept declared.now.table matchings.new }
{
    let before = replace(matchings, Matchings::new(alloc));
    match checked(alloc, known, declared, predicate, goal, true, before)? {
        Some(checker) => {
            let typed = checker.is_solvable(alloc)?;
            *matchings = checker.into_matchings();
            Ok(typed)
        }
        None => Ok(false),
    }
}

/// The types of the variables of a goal, such that the arguments of the predicate that it is the body of, which are its
/// first variables, have their declared types, and each unification, call, operation and comparison has its own. The
/// type variables of the arguments stand for themselves; those of each call and each constructor stand for types of its
/// own. None where there are no such types.
///
/// Declared types of the predicate's arguments, and those without type variables, are taken as a whole, and two of them are
/// compared by their numbers. A call or a unification with a constructor that stands in the goal before is passed over. With
/// n parts of the goal and of the other declared types that it uses, where of each use the different parts with type
/// variables are counted, with their arguments, this takes time of the order of n log n, however large the types are that
/// solve it.
///
/// # Errors
///
/// `NoMemory` where memory was refused.
pub fn typing<'a>(
    alloc: Global,
    known: &Known<'_>,
    declared: &'a DeclaredTypes,
    predicate: Option<Predicate>,
    goal: &NodeRef<'_>,
) -> Result<Option<Typing<'a>>, NoMemory>
    requires { AreDeclared known.now declared.now }
    ensures some { IfOk result (λ found. IfSome found (λ typing. IsTypingOf typing known.now (head_of known.now predicate) goal.now)) }
    ensures none { IfOk result (λ found. IfNone found (HasTyping known.now (head_of known.now predicate) goal.now → ⊥)) }
{
    let none = Matchings::new(alloc);
    match checked(alloc, known, declared, predicate, goal, false, none)? {
        Some(checker) => checker.into_typing(alloc),
        None => Ok(None),
    }
}

// What makes a goal typed, None where something cannot be. Whether variables may go without a place is given.
fn checked<'a>(
    alloc: Global,
    known: &Known<'_>,
    declared: &'a DeclaredTypes,
    predicate: Option<Predicate>,
    goal: &NodeRef<'_>,
    may_wait: bool,
    matchings: Matchings,
) -> Result<Option<Checker<'a>>, NoMemory>
    requires declared { AreDeclared known.now declared.now }
    requires kept { AreKept declared.now.table matchings }
    ensures some { IfOk result (λ found. IfSome found (λ checker. Knows checker (λ types. IsTyped known.now types (head_of known.now predicate) goal.now))) }
    ensures none { IfOk result (λ found. IfNone found (HasTyping known.now (head_of known.now predicate) goal.now → ⊥)) }
    ensures mode { IfOk result (λ found. IfSome found (λ checker. checker.may_wait ≡ may_wait)) }
    ensures table { IfOk result (λ found. IfSome found (λ checker. declared.now.table ≡ checker.graph.table)) }
{
    let mut checker = Checker::new(alloc, declared.listed(), may_wait, matchings);
    let done = checker.take_head(alloc, head_numbers(declared, predicate))?;
    if !done {
        return Ok(None);
    }
    let mut repeats = Repeats::new(alloc);
    let count = goal.part_count();
    for index in 0..count {
        match goal.part(index) {
            Some((part, _)) => {
                if !repeats.is_repeated(goal, index, part)? {
                    checker.begin(index + 1);
                    let done = checker.take_part(alloc, known, declared, part)?;
                    if !done {
                        return Ok(None);
                    }
                }
            }
            None => unreachable!(),
        }
    }
    Ok(Some(checker))
}

// The numbers of the declared types of a predicate's arguments, none where there is no predicate.
fn head_numbers(declared: &DeclaredTypes, predicate: Option<Predicate>) -> &[TypeNumber]
    ensures { (known : Module) → AreDeclared known declared.now → AreNumbers declared.now.table result.now (head_of known predicate) }
{
    match predicate {
        Some(predicate) => declared.of_predicate(predicate.number()),
        None => &[],
    }
}

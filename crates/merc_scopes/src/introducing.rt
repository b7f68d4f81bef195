//! The variables that each goal brings with it.
ghost use Rattle.std.specs.Prelude.{◌≡◌, ◌+◌, ◌≤◌, ◌<◌, ◌∷◌, [], ◌++◌, List, length, reverse, IfOk, OnOk};
ghost use Rattle.merc_goals.specs.Written.{Written};
ghost use Rattle.merc_goals.specs.Entries.{entries_of, with_form};
ghost use Rattle.merc_scopes.specs.declared.occurrence.Occurrence.{Occurrence as occurrence_record};
ghost use Rattle.merc_value.specs.Text.{is_blank};
ghost use Rattle.merc_scopes.specs.Scopes.{own, without};
ghost use Rattle.merc_scopes.specs.Bindings.{AreBindings};
ghost use Rattle.merc_scopes.specs.FirstPlaces.{Holds};
ghost use Rattle.merc_scopes.specs.Standing.{AllHold, Stands, IsJoined, GoesOn, needs};

use crate::Occurrence;
use crate::first_places::FirstPlaces;
use crate::listing::Listing;
use crate::occurring::{variables_of_arguments, variables_of_sides};
use merc_base::{Name, Names, NoMemory, Sequence};
use merc_goals::{Entry, Form, WrittenGoal};
use std::alloc::Global;

/// For each entry of a goal, the variables that the goal which begins there brings with it, each once and where it first
/// stands; for a quantifier in the order in which it names them.
///
/// With n occurrences of variables this takes time of the order of n (log n)².
///
/// # Errors
///
/// `NoMemory` where memory was refused.
pub fn bindings(
    alloc: Global,
    goal: &WrittenGoal<'_>,
    names: &Names,
) -> Result<Vec<Sequence<Occurrence>>, NoMemory>
    ensures { IfOk result (λ found. AreBindings (is_blank names.now) (entries_of goal.now) found.items) }
{
    let entries = goal.entries();
    let mut stack = Vec::new(alloc);
    let mut lists = Vec::new(alloc);
    for index in (0..entries.len()).rev() {
        let list = read_entry(alloc, names, &mut stack, &entries[index])?;
        lists.push(list)?;
    }
    lists.reverse();
    Ok(lists)
}

// Reads an entry before the goals whose variables are on the stack, those of the first goal on top. Says which variables
// the goal that begins with the entry brings with it.
fn read_entry(
    alloc: Global,
    names: &Names,
    stack: &mut Vec<FirstPlaces>,
    entry: &Entry<'_>,
) -> Result<Sequence<Occurrence>, NoMemory>
    requires { needs entry.now.form ≤ length stack.old.items }
    ensures { IfOk result (λ found. (goals : List Written) → Stands (is_blank names.now) stack.old.items goals → GoesOn (is_blank names.now) stack.new.items (with_form entry.now.form entry.now.at entry.now.span goals) found) }
{
    match &entry.form {
        Form::Equal(left, right) | Form::Compared(_, left, right) => {
            let listing = variables_of_sides(alloc, names, entry.at, left, right)?;
            push_leaf(stack, listing)
        }
        Form::Called(term) => {
            let listing = variables_of_arguments(alloc, names, entry.at, term)?;
            push_leaf(stack, listing)
        }
        Form::Conjunction(count) | Form::Parallel(count) => join_first(alloc, stack, *count),
        Form::Disjunction(count) => {
            join_first(alloc, stack, *count)?;
            Ok(Sequence::new(alloc))
        }
        Form::Conditional => {
            let shared = join_first(alloc, stack, 2)?;
            join_first(alloc, stack, 2)?;
            Ok(shared)
        }
        Form::Negated => Ok(Sequence::new(alloc)),
        Form::Quantified(variables) => quantify(alloc, stack, variables.as_slice()),
        Form::Truth | Form::Failure | Form::WrongForm | Form::OutsideProfile => {
            push_leaf(stack, Listing::new(alloc))
        }
    }
}

// Puts the variables of a goal without sub-goals on the stack. The goal brings all of them with it.
fn push_leaf(
    stack: &mut Vec<FirstPlaces>,
    listing: Listing,
) -> Result<Sequence<Occurrence>, NoMemory>
    ensures { IfOk result (λ list. (list ≡ listing.list.items) × (stack.new.items ≡ stack.old.items ++ listing.places ∷ [])) }
{
    stack.push(listing.places)?;
    Ok(Sequence::from_vec(listing.list))
}

// Puts the variables of so many first goals together. Says which of them occur in at least two of the goals.
fn join_first(
    alloc: Global,
    stack: &mut Vec<FirstPlaces>,
    count: usize,
) -> Result<Sequence<Occurrence>, NoMemory>
    requires { count ≤ length stack.old.items }
    ensures fewer { OnOk result (length stack.new.items + count ≡ length stack.old.items + 1) }
    ensures joined { IfOk result (λ found. (lists : List (List occurrence_record)) → AllHold (reverse stack.old.items) lists → IsJoined count stack.new.items lists found) }
{
    let mut shared = Listing::new(alloc);
    let mut places = FirstPlaces::new(alloc);
    for _ in 0..count {
        places = places.join(take_first(stack), &mut shared)?;
    }
    stack.push(places)?;
    Ok(Sequence::from_vec(shared.list))
}

// Takes the variables of the first goal off the stack.
fn take_first(stack: &mut Vec<FirstPlaces>) -> FirstPlaces
    requires { 0 < length stack.old.items }
    ensures { stack.old.items ≡ stack.new.items ++ result ∷ [] }
{
    match stack.pop() {
        Some(places) => places,
        None => unreachable!(),
    }
}

// Takes a quantifier's variables from those of the first goal. Says where they first occurred.
fn quantify(
    alloc: Global,
    stack: &mut Vec<FirstPlaces>,
    variables: &[Name],
) -> Result<Sequence<Occurrence>, NoMemory>
    requires { 0 < length stack.old.items }
    ensures { IfOk result (λ list. (found : List occurrence_record) (lists : List (List occurrence_record)) → AllHold (reverse stack.old.items) (found ∷ lists) → (list ≡ own variables.now found) × AllHold (reverse stack.new.items) (without variables.now found ∷ lists)) }
{
    let mut places = take_first(stack);
    let own = take_own(alloc, &mut places, variables)?;
    stack.push(places)?;
    Ok(own)
}

// Takes these variables away. Says where they first occurred, each once and in the order of the names.
fn take_own(
    alloc: Global,
    places: &mut FirstPlaces,
    variables: &[Name],
) -> Result<Sequence<Occurrence>, NoMemory>
    ensures { IfOk result (λ list. (found : List occurrence_record) → Holds places.old found → (list ≡ own variables.now found) × Holds places.new (without variables.now found)) }
{
    let mut own = Sequence::new(alloc);
    for name in variables {
        if let Some(at) = places.take(*name) {
            own.push(Occurrence { name: *name, at })?;
        }
    }
    Ok(own)
}

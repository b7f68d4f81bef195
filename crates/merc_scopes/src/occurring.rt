//! The variables of terms, with their numbers.
ghost use Rattle.std.specs.Prelude.{◌≡◌, ◌+◌, ◌-◌, ◌≤◌, ℕ, [], ◌∷◌, ◌++◌, reverse, IfOk, OnOk, if◌then◌else◌};
ghost use Rattle.std.specs.Option.{option_or};
ghost use Rattle.merc_tree.specs.Term.{terms_of};
ghost use Rattle.merc_tree.specs.Shape.{arguments_of};
ghost use Rattle.merc_goals.specs.Written.{parts};
ghost use Rattle.merc_value.specs.Text.{is_blank};
ghost use Rattle.merc_scopes.specs.Scopes.{at_of, occurrence, occurrences, occurrences_of};
ghost use Rattle.merc_scopes.specs.FirstPlaces.{place_in, IsInStep, Lists};
ghost use Rattle.merc_goals.specs.Numbers.{numbered_from, BothFit, Fits};
ghost use Rattle.merc_scopes.specs.Walking.{stacked};

use crate::listing::Listing;
use merc_base::{Name, Names, NoMemory};
use merc_goals::{Numbered, left_of, number_behind, right_of};
use merc_tree::{Shape, TermRef};
use merc_value::is_blank;
use std::alloc::Global;

/// The variables of both sides of the operator whose term has this number.
pub(crate) fn variables_of_sides(
    alloc: Global,
    names: &Names,
    at: usize,
    left: &TermRef<'_>,
    right: &TermRef<'_>,
) -> Result<Listing, NoMemory>
    requires { BothFit at left.now right.now }
    ensures { IfOk result (λ found. Lists found (occurrences (is_blank names.now) (at + 2) left.now ++ occurrences (is_blank names.now) (at + 2 + parts left.now) right.now)) }
{
    let mut stack = Vec::new(alloc);
    stack.push(right_of(at, left, right.copy()))?;
    stack.push(left_of(at, left.copy()))?;
    variables(alloc, names, stack)
}

/// The variables of the arguments of the term that has this number.
pub(crate) fn variables_of_arguments(
    alloc: Global,
    names: &Names,
    at: usize,
    term: &TermRef<'_>,
) -> Result<Listing, NoMemory>
    requires { Fits at term.now }
    ensures { IfOk result (λ found. Lists found (occurrences_of (is_blank names.now) (at + 2) (terms_of (arguments_of term.now)))) }
{
    let mut stack = Vec::new(alloc);
    push_arguments(&mut stack, at, term)?;
    variables(alloc, names, stack)
}

// The variables of these terms, of which the last comes first.
fn variables(
    alloc: Global,
    names: &Names,
    mut stack: Vec<Numbered<'_>>,
) -> Result<Listing, NoMemory>
    ensures { IfOk result (λ found. Lists found (stacked (is_blank names.now) stack.entry.items)) }
{
    let mut found = Listing::new(alloc);
    while let Some(numbered) = stack.pop() {
        match numbered.term.shape() {
            Shape::Variable(name) => add_variable(&mut found, names, name, numbered.at)?,
            _ => push_arguments(&mut stack, numbered.at, &numbered.term)?,
        }
    }
    Ok(found)
}

// Adds a variable, where it is not one of those that are each their own.
fn add_variable(found: &mut Listing, names: &Names, name: Name, at: usize) -> Result<(), NoMemory>
    requires { IsInStep found.old }
    ensures step { OnOk result (IsInStep found.new) }
    ensures places { OnOk result ((other : ℕ) → place_in found.new.places other ≡ option_or (place_in found.old.places other) (at_of other (if is_blank names.now name then [] else occurrence name at ∷ []))) }
{
    if !is_blank(names, name) {
        found.add(name, at)?;
    }
    Ok(())
}

// Puts the arguments of the term that has this number on a stack, the first on top.
fn push_arguments<'a>(
    stack: &mut Vec<Numbered<'a>>,
    at: usize,
    term: &TermRef<'a>,
) -> Result<(), NoMemory>
    requires { Fits at term.now }
    ensures { OnOk result (stack.new.items ≡ stack.old.items ++ reverse (numbered_from (at + 2) (arguments_of term.now))) }
{
    let mut rest = term.arguments();
    let mut past = number_behind(at, term);
    while let Some(last) = rest.take_last() {
        past = number_before(past, &last);
        stack.push(Numbered {
            term: last,
            at: past,
        })?;
    }
    Ok(())
}

// The number of the term behind whose parts this number is.
#[tactic(auto, using(merc_goals::proofs::PartCounts::parts_shapes))]
fn number_before(past: usize, term: &TermRef<'_>) -> usize
    requires { parts term.now ≤ past }
    ensures { result ≡ past - parts term.now }
{
    let count = term.part_count();
    past - count - count
}

//! The variables of terms, in the order of the text.
ghost use Rattle.std.specs.Prelude.{◌≡◌, ◌≤◌, ◌+◌, ◌++◌, reverse, IfOk, OnOk};
ghost use Rattle.merc_tree.specs.Term.{terms_of};
ghost use Rattle.merc_tree.specs.Shape.{arguments_of};
ghost use Rattle.merc_goals.specs.Written.{parts, parts_of};
ghost use Rattle.merc_goals.specs.Numbers.{number_limit, BothFit, Fits};
ghost use Rattle.merc_value.specs.Text.{is_blank};
ghost use Rattle.merc_scopes.specs.Scopes.{occurrences, occurrences_of};
ghost use Rattle.merc_answer_variables.specs.Reading.{own_occurrence, listed};

use merc_base::{Names, NoMemory};
use merc_scopes::Occurrence;
use merc_tree::{Arguments, Shape, TermRef};
use merc_value::is_blank;
use std::alloc::Global;

/// The variables of both sides of a goal whose number is this.
pub(crate) fn side_variables(
    alloc: Global,
    names: &Names,
    at: usize,
    left: &TermRef<'_>,
    right: &TermRef<'_>,
) -> Result<Vec<Occurrence>, NoMemory>
    requires { BothFit at left.now right.now }
    ensures { IfOk result (λ found. found.items ≡ occurrences (is_blank names.now) (at + 2) left.now ++ occurrences (is_blank names.now) (at + 2 + parts left.now) right.now) }
{
    let mut terms = Vec::new(alloc);
    terms.push(right.copy())?;
    terms.push(left.copy())?;
    term_variables(alloc, names, at + 2, terms)
}

/// The variables of the arguments of a term whose number is this.
pub(crate) fn argument_variables(
    alloc: Global,
    names: &Names,
    at: usize,
    term: &TermRef<'_>,
) -> Result<Vec<Occurrence>, NoMemory>
    requires { Fits at term.now }
    ensures { IfOk result (λ found. found.items ≡ occurrences_of (is_blank names.now) (at + 2) (terms_of (arguments_of term.now))) }
{
    let mut terms = Vec::new(alloc);
    push_arguments(&mut terms, term.arguments())?;
    term_variables(alloc, names, at + 2, terms)
}

// The variables of terms, from the last to the first of them. The last has this number.
fn term_variables(
    alloc: Global,
    names: &Names,
    at: usize,
    mut terms: Vec<TermRef<'_>>,
) -> Result<Vec<Occurrence>, NoMemory>
    requires { at + parts_of (terms_of (reverse terms.items)) ≤ number_limit }
    ensures { IfOk result (λ found. found.items ≡ listed (is_blank names.now) at (reverse terms.entry.items)) }
{
    let mut found = Vec::new(alloc);
    let mut at = at;
    while let Some(term) = terms.pop() {
        push_variable(names, &term, at, &mut found)?;
        push_arguments(&mut terms, term.arguments())?;
        at += 2;
    }
    Ok(found)
}

// Puts a term that is a variable behind the others.
fn push_variable(
    names: &Names,
    term: &TermRef<'_>,
    at: usize,
    found: &mut Vec<Occurrence>,
) -> Result<(), NoMemory>
    ensures { OnOk result (found.new.items ≡ found.old.items ++ own_occurrence (is_blank names.now) at term.now) }
{
    if let Shape::Variable(name) = term.shape() {
        if !is_blank(names, name) {
            found.push(Occurrence { name, at })?;
        }
    }
    Ok(())
}

// Puts arguments behind the others, the last of them first.
fn push_arguments<'a>(
    terms: &mut Vec<TermRef<'a>>,
    mut arguments: Arguments<'a>,
) -> Result<(), NoMemory>
    ensures { OnOk result (terms.new.items ≡ terms.old.items ++ reverse arguments.entry) }
{
    while let Some(last) = arguments.take_last() {
        terms.push(last)?;
    }
    Ok(())
}

//! Terms with their numbers, and the sides of an operator.
ghost use Rattle.std.specs.Prelude.{◌≡◌, IfOk};
ghost use Rattle.merc_goals.specs.Written.{listed_variables};
ghost use Rattle.merc_goals.specs.Roles.{role_of};
ghost use Rattle.merc_goals.specs.Links.{sides, condition_sides, is_arrow, is_joined, link_of, chain, cell_of};

use crate::numbers::{Numbered, left_of, right_of};
use crate::roles::{ChainKind, Role, role_of};
use merc_base::{Name, NoMemory};
use merc_operands::{Operands, operands_of, plain_name};
use merc_tree::{NameList, Shape, TermRef};
use std::alloc::Global;

// Both sides of an operator.
#[derive(Drop)]
pub(crate) struct Both<'a> {
    pub(crate) left: Numbered<'a>,
    pub(crate) right: Numbered<'a>,
}

// Both sides of the operator, where the term is such an application.
pub(crate) fn sides<'a>(operator: Name, whole: &Numbered<'a>) -> Option<Both<'a>>
    ensures { result ≡ sides operator whole.now }
{
    match operands_of(&whole.term) {
        Operands::Two(name, left, right) => {
            if name != operator {
                return None;
            }
            let right = right_of(whole.at, &left, right);
            let left = left_of(whole.at, left);
            Some(Both { left, right })
        }
        _ => None,
    }
}

// The condition and the then part of `if C then T`.
pub(crate) fn condition_sides<'a>(whole: &Numbered<'a>) -> Option<Both<'a>>
    ensures { result ≡ condition_sides whole.now }
{
    match operands_of(&whole.term) {
        Operands::One(name, only) => {
            if name != Name::IF {
                return None;
            }
            let only = left_of(whole.at, only);
            sides(Name::THEN, &only)
        }
        _ => None,
    }
}

// Whether a name joins its arguments to a chain. `C -> T ; E` is no disjunction.
fn is_joined(kind: ChainKind, name: Name, left: &TermRef<'_>) -> bool
    ensures { result ≡ is_joined kind (role_of name) left.now }
{
    match (role_of(name), kind) {
        (Role::Conjunction, ChainKind::Conjuncts) => true,
        (Role::Parallel, ChainKind::ParallelConjuncts) => true,
        (Role::Disjunction, ChainKind::Disjuncts) => !is_arrow(left),
        _ => false,
    }
}

// Whether a term is `C -> T`.
pub(crate) fn is_arrow(term: &TermRef<'_>) -> bool
    ensures { result ≡ is_arrow term.now }
{
    match operands_of(term) {
        Operands::Two(name, _, _) => name == Name::ARROW,
        _ => false,
    }
}

// Both sides of a term that goes on a chain.
fn link_of<'a>(kind: ChainKind, whole: &Numbered<'a>) -> Option<Both<'a>>
    ensures { result ≡ link_of kind whole.now }
{
    match operands_of(&whole.term) {
        Operands::Two(name, left, right) => {
            if !is_joined(kind, name, &left) {
                return None;
            }
            let right = right_of(whole.at, &left, right);
            let left = left_of(whole.at, left);
            Some(Both { left, right })
        }
        _ => None,
    }
}

// The members of a chain, from the left.
pub(crate) fn chain<'a>(
    alloc: Global,
    kind: ChainKind,
    root: &Numbered<'a>,
) -> Result<Vec<Numbered<'a>>, NoMemory>
    ensures { IfOk result (λ members. members.items ≡ chain kind root.now.at root.now.term) }
{
    let mut members = Vec::new(alloc);
    let mut stack = Vec::new(alloc);
    let mut numbered = root.copy();
    loop {
        match link_of(kind, &numbered) {
            Some(link) => {
                stack.push(link.right)?;
                numbered = link.left;
            }
            None => {
                members.push(numbered)?;
                match stack.pop() {
                    Some(next) => numbered = next,
                    None => return Ok(members),
                }
            }
        }
    }
}

// The variables of a proper list of variables, None for any other term.
pub(crate) fn listed_variables(
    alloc: Global,
    list: &TermRef<'_>,
) -> Result<Option<NameList>, NoMemory>
    ensures { IfOk result (λ found. found ≡ listed_variables list.now) }
{
    let mut names = NameList::new(alloc);
    let mut rest = list.copy();
    while let Some(cell) = cell_of(&rest) {
        names.push(cell.variable)?;
        rest = cell.rest;
    }
    if plain_name(&rest) == Some(Name::NIL) {
        Ok(Some(names))
    } else {
        Ok(None)
    }
}

// A list cell that begins with a variable.
#[derive(Drop)]
struct Cell<'a> {
    variable: Name,
    rest: TermRef<'a>,
}

fn cell_of<'a>(list: &TermRef<'a>) -> Option<Cell<'a>>
    ensures { result ≡ cell_of list.now }
{
    match operands_of(list) {
        Operands::Two(name, first, rest) => {
            if name != Name::CONS {
                return None;
            }
            match first.shape() {
                Shape::Variable(variable) => Some(Cell { variable, rest }),
                _ => None,
            }
        }
        _ => None,
    }
}

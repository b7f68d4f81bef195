//! Terms that stand side by side: the arguments of a term, and the members of a chain.
ghost use Rattle.std.specs.Prelude.{◌≡◌, IfOk};
ghost use Rattle.merc_tree.specs.Shape.{arguments_of};
ghost use Rattle.merc_operands.specs.Members.{chain, link_of};

use crate::operands::{Operands, operands_of};
use merc_base::{Name, NoMemory};
use merc_tree::TermRef;
use std::alloc::Global;

/// The arguments of a term, from the left.
///
/// # Errors
///
/// `NoMemory` where memory was refused.
pub fn arguments<'a>(alloc: Global, term: &TermRef<'a>) -> Result<Vec<TermRef<'a>>, NoMemory>
    ensures { IfOk result (λ arguments. arguments.items ≡ arguments_of term.now) }
{
    let mut rest = term.arguments();
    let mut arguments = Vec::new(alloc);
    while let Some(last) = rest.take_last() {
        arguments.push(last)?;
    }
    arguments.reverse();
    Ok(arguments)
}

/// The members of a chain of one operator, from the left: a term that is no such application is its only member.
///
/// # Errors
///
/// `NoMemory` where memory was refused.
pub fn members<'a>(
    alloc: Global,
    root: &TermRef<'a>,
    operator: Name,
) -> Result<Vec<TermRef<'a>>, NoMemory>
    ensures { IfOk result (λ members. members.items ≡ chain operator root.now) }
{
    let mut members = Vec::new(alloc);
    let mut stack = Vec::new(alloc);
    let mut term = root.copy();
    loop {
        match link(&term, operator) {
            Some((first, second)) => {
                stack.push(second)?;
                term = first;
            }
            None => {
                members.push(term)?;
                match stack.pop() {
                    Some(next) => term = next,
                    None => return Ok(members),
                }
            }
        }
    }
}

// Both sides of an operator, where a term is such an application.
fn link<'a>(term: &TermRef<'a>, operator: Name) -> Option<(TermRef<'a>, TermRef<'a>)>
    ensures { result ≡ link_of operator term.now }
{
    match operands_of(term) {
        Operands::Two(name, first, second) => {
            if name == operator {
                Some((first, second))
            } else {
                None
            }
        }
        _ => None,
    }
}

//! Terms by their names and the number of their arguments.
ghost use Rattle.std.specs.Prelude.{◌≡◌};
ghost use Rattle.merc_operands.specs.Operands.{plain_name, operands_of, by_count};

use merc_base::Name;
use merc_tree::{Arguments, Shape, TermRef};

/// A term by its name and its arguments, where it has no qualifier and at most two of them.
#[derive(Drop)]
pub enum Operands<'a> {
    /// The name alone.
    Zero(Name),
    /// The name and its only argument.
    One(Name, TermRef<'a>),
    /// The name and its two arguments.
    Two(Name, TermRef<'a>, TermRef<'a>),
    /// Three arguments or more.
    Many(Name),
    /// A name with a qualifier.
    Qualified,
    /// A variable or a literal.
    NotApplied,
}

/// The operands of a term.
pub fn operands_of<'a>(term: &TermRef<'a>) -> Operands<'a>
    ensures { result ≡ operands_of term.now }
{
    match term.shape() {
        Shape::Application {
            name,
            qualifier,
            ..
        } => {
            if qualifier.is_some() {
                Operands::Qualified
            } else {
                by_count(name, term.arguments())
            }
        }
        _ => Operands::NotApplied,
    }
}

// An application of this name without a qualifier.
fn by_count<'a>(name: Name, mut arguments: Arguments<'a>) -> Operands<'a>
    ensures { result ≡ by_count name arguments.entry }
{
    let last = match arguments.take_last() {
        Some(last) => last,
        None => return Operands::Zero(name),
    };
    let before = match arguments.take_last() {
        Some(before) => before,
        None => return Operands::One(name, last),
    };
    if arguments.len() > 0 {
        return Operands::Many(name);
    }
    Operands::Two(name, before, last)
}

/// The name that a term is, where it has no arguments and no qualifier.
pub fn plain_name(term: &TermRef<'_>) -> Option<Name>
    ensures { result ≡ plain_name term.now }
{
    match operands_of(term) {
        Operands::Zero(name) => Some(name),
        _ => None,
    }
}

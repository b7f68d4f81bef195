//! Terms with their numbers among the parts of a text.
ghost use Rattle.std.specs.Prelude.{◌≡◌, ◌≤◌, ◌+◌, IfOk};
ghost use Rattle.merc_tree.specs.Term.{terms_of};
ghost use Rattle.merc_goals.specs.Written.{parts_of};
ghost use Rattle.merc_goals.specs.Numbers.{number_limit, numbered_from};
ghost use Rattle.merc_flat_form.specs.Numbering.{is_variable, numbered_arguments};

use merc_base::NoMemory;
use merc_goals::{Numbered, number_behind};
use merc_operands::arguments;
use merc_tree::{Shape, TermRef};
use std::alloc::Global;

// The arguments of a term.
pub(crate) fn numbered_arguments<'a>(
    alloc: Global,
    whole: &Numbered<'a>,
) -> Result<Vec<Numbered<'a>>, NoMemory>
    ensures { IfOk result (λ found. found.items ≡ numbered_arguments whole.now) }
{
    let terms = arguments(alloc, &whole.term)?;
    number_from(alloc, whole.at + 2, &terms)
}

// Terms one after the other, of which the first has this number.
fn number_from<'a>(
    alloc: Global,
    first: usize,
    terms: &[TermRef<'a>],
) -> Result<Vec<Numbered<'a>>, NoMemory>
    requires { first + parts_of (terms_of terms.now) ≤ number_limit }
    ensures { IfOk result (λ found. found.items ≡ numbered_from first terms.now) }
{
    let mut at = first;
    let mut found = Vec::new(alloc);
    for term in terms {
        found.push(Numbered {
            term: term.copy(),
            at,
        })?;
        at = number_behind(at, term);
    }
    Ok(found)
}

pub(crate) fn is_variable(term: &TermRef<'_>) -> bool
    ensures { result ≡ is_variable term.now }
{
    match term.shape() {
        Shape::Variable(_) => true,
        _ => false,
    }
}

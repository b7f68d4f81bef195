//! Parameters of types.
ghost use Rattle.std.specs.Prelude.{◌≡◌, IfOk};
ghost use Rattle.merc_value.specs.Text.{is_blank};
ghost use Rattle.merc_item_forms.specs.Forms.{repeats};
ghost use Rattle.merc_item_forms.specs.Parameters.{own_variable, own_variables, has_equal_neighbors};

use merc_base::{Name, Names, NoMemory};
use merc_tree::{Shape, TermRef};
use merc_value::is_blank;
use std::alloc::Global;

/// Whether a variable stands among these parameters twice. Each `_` is a variable of its own.
pub(crate) fn repeats(
    alloc: Global,
    names: &Names,
    parameters: &[TermRef<'_>],
) -> Result<bool, NoMemory>
    ensures { IfOk result (λ answer. answer ≡ repeats names.now parameters.now) }
{
    let mut variables = own_variables(alloc, names, parameters)?;
    variables.sort_unstable();
    let repeats = has_equal_neighbors(&variables);
    // (a call, since it costs much to prove what is dropped)
    drop(variables);
    Ok(repeats)
}

// The names of the variables other than `_`, in order.
fn own_variables(
    alloc: Global,
    names: &Names,
    parameters: &[TermRef<'_>],
) -> Result<Vec<Name>, NoMemory>
    ensures { IfOk result (λ variables. variables.items ≡ own_variables names.now parameters.now) }
{
    let mut variables = Vec::new(alloc);
    for parameter in parameters {
        if let Some(name) = own_variable(names, parameter) {
            variables.push(name)?;
        }
    }
    Ok(variables)
}

// The name of a variable other than `_`.
fn own_variable(names: &Names, term: &TermRef<'_>) -> Option<Name>
    ensures { result ≡ own_variable names.now term.now }
{
    match term.shape() {
        Shape::Variable(name) => {
            if is_blank(names, name) {
                None
            } else {
                Some(name)
            }
        }
        _ => None,
    }
}

// Whether two names side by side are equal.
fn has_equal_neighbors(names: &[Name]) -> bool
    ensures { result ≡ has_equal_neighbors names.now }
{
    let mut rest = names;
    while let [first, after @ ..] = rest {
        if after.first() == Some(first) {
            return true;
        }
        rest = after;
    }
    false
}

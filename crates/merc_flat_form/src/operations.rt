//! Arithmetic and comparisons, told by their names.
ghost use Rattle.std.specs.Prelude.{◌≡◌};
ghost use Rattle.merc_flat_form.specs.FlatForm.{comparison_of, operation_of};

use merc_base::Name;
use merc_goal_tree::{Comparison, Operation};

/// The operation that a name with two operands is, None for another name.
pub fn operation_of(name: Name) -> Option<Operation>
    ensures { result ≡ operation_of name }
{
    if name == Name::PLUS {
        Some(Operation::Add)
    } else if name == Name::MINUS {
        Some(Operation::Subtract)
    } else if name == Name::STAR {
        Some(Operation::Multiply)
    } else if name == Name::SLASH_SLASH {
        Some(Operation::Quotient)
    } else if name == Name::DIV {
        Some(Operation::Div)
    } else if name == Name::MOD {
        Some(Operation::Mod)
    } else if name == Name::REM {
        Some(Operation::Rem)
    } else {
        None
    }
}

/// The comparison of integers that a name with two operands is, None for another name.
pub fn comparison_of(name: Name) -> Option<Comparison>
    ensures { result ≡ comparison_of name }
{
    if name == Name::LESS {
        Some(Comparison::Less)
    } else if name == Name::GREATER {
        Some(Comparison::Greater)
    } else if name == Name::AT_MOST {
        Some(Comparison::AtMost)
    } else if name == Name::AT_LEAST {
        Some(Comparison::AtLeast)
    } else {
        None
    }
}

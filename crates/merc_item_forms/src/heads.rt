//! Heads of declarations and clauses.
ghost use Rattle.std.specs.Prelude.{◌≡◌};
ghost use Rattle.merc_item_forms.specs.Forms.{is_application, is_head, is_reserved, is_function_head, is_foreign, is_wide, is_variable, is_outside_type};
ghost use Rattle.merc_item_forms.specs.FormChecks.{is_wrong_head, is_other};

use crate::parts::{PartTest, passes};
use merc_base::Name;
use merc_tree::{Shape, TermRef};

/// Whether a term is no variable and no literal.
pub(crate) fn is_application(term: &TermRef<'_>) -> bool
    ensures { result ≡ is_application term.now }
{
    matches!(term.shape(), Shape::Application { .. })
}

pub(crate) fn is_variable(term: &TermRef<'_>) -> bool
    ensures { result ≡ is_variable term.now }
{
    matches!(term.shape(), Shape::Variable(_))
}

/// Whether a term can be the head of a declaration or a clause: a name that is no connective and no comparison.
pub(crate) fn is_head(term: &TermRef<'_>) -> bool
    ensures { result ≡ is_head term.now }
{
    match term.shape() {
        Shape::Application { name, .. } => !is_reserved(name),
        _ => false,
    }
}

// Connectives, comparisons, quantifiers, and `true`, `fail` and `false`.
fn is_reserved(name: Name) -> bool
    ensures { result ≡ is_reserved name }
{
    name == Name::TRUE
        || name == Name::FAIL
        || name == Name::FALSE
        || name == Name::NOT
        || name == Name::NOT_EQUAL
        || name == Name::LESS
        || name == Name::GREATER
        || name == Name::AT_MOST
        || name == Name::AT_LEAST
        || name == Name::COMMA
        || name == Name::SEMICOLON
        || name == Name::AMPERSAND
        || name == Name::ARROW
        || name == Name::IF
        || name == Name::THEN
        || name == Name::ELSE
        || name == Name::NOT_PROVABLE
        || name == Name::SOME
        || name == Name::ALL
        || name == Name::IMPLIES
        || name == Name::EQUIVALENT
}

/// Whether a term cannot be the head of a predicate or a mode in the module of this name.
pub(crate) fn is_wrong_head(head: &TermRef<'_>, own: Name) -> bool
    ensures { result ≡ is_wrong_head own head.now }
{
    !is_head(head) || is_foreign(head, own)
}

/// Whether a head is a function's: `A = B`.
pub(crate) fn is_function_head(head: &TermRef<'_>) -> bool
    ensures { result ≡ is_function_head head.now }
{
    match head.shape() {
        Shape::Application { name, arity, .. } => arity == 2 && name == Name::EQUAL,
        _ => false,
    }
}

/// Whether a term has the name of a module other than this one before it.
pub fn is_foreign(term: &TermRef<'_>, own: Name) -> bool
    ensures { result ≡ is_foreign own term.now }
{
    match term.shape() {
        Shape::Application { qualifier, .. } => is_other(qualifier, own),
        _ => false,
    }
}

fn is_other(qualifier: Option<Name>, own: Name) -> bool
    ensures { result ≡ is_other own qualifier }
{
    match qualifier {
        Some(qualifier) => qualifier != own,
        None => false,
    }
}

/// Whether a term has too many arguments.
pub(crate) fn is_wide(term: &TermRef<'_>) -> bool
    ensures { result ≡ is_wide term.now }
{
    passes(&term.shape(), PartTest::Wide)
}

/// Whether a term is a type that the profile leaves out.
pub(crate) fn is_outside_type(term: &TermRef<'_>) -> bool
    ensures { result ≡ is_outside_type term.now }
{
    passes(&term.shape(), PartTest::OutsideType)
}

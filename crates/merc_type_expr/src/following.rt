//! Where types lead under bindings.
ghost use Rattle.std.specs.Prelude.{◌≡◌, ◌↔◌, ◌++◌, IsTrue};
ghost use Rattle.merc_tree.specs.TypeShape.{type_shape_of};
ghost use Rattle.merc_type_expr.specs.Solving.{is_variable, variable_of, walked};

use merc_base::Name;
use merc_tree::{TypeExpr, TypeRef, TypeShape};

/// The type that a type leads to: bound variables are followed through the bindings of a substitution and those found
/// since, in order. It takes one pass, since a variable is bound to one that is bound later or never.
pub(crate) fn walked<'a>(
    of: &TypeRef<'a>,
    under: &'a [(Name, TypeExpr)],
    found: &[(Name, TypeRef<'a>)],
) -> TypeRef<'a>
    ensures { result ≡ walked (under.now ++ found.now) of.now }
{
    let inner = walked_under(of, under);
    walked_found(&inner, found)
}

fn walked_under<'a>(of: &TypeRef<'a>, under: &'a [(Name, TypeExpr)]) -> TypeRef<'a>
    ensures { result ≡ walked under.now of.now }
{
    let mut at = of.copy();
    for binding in under {
        if is_variable(&at, binding.0) {
            at = binding.1.as_ref();
        }
    }
    at
}

fn walked_found<'a>(of: &TypeRef<'a>, found: &[(Name, TypeRef<'a>)]) -> TypeRef<'a>
    ensures { result ≡ walked found.now of.now }
{
    let mut at = of.copy();
    for binding in found {
        if is_variable(&at, binding.0) {
            at = binding.1.copy();
        }
    }
    at
}

/// The name of a type variable, None for another type.
pub(crate) fn variable(of: &TypeRef<'_>) -> Option<Name>
    ensures { result ≡ variable_of of.now }
{
    match of.shape() {
        TypeShape::Variable(name) => Some(name),
        TypeShape::Int | TypeShape::Text | TypeShape::Application { .. } => None,
    }
}

/// Whether a type is this variable.
pub(crate) fn is_variable(of: &TypeRef<'_>, name: Name) -> bool
    ensures { result ≡ is_variable of.now name }
{
    match of.shape() {
        TypeShape::Variable(other) => name == other,
        TypeShape::Int | TypeShape::Text | TypeShape::Application { .. } => false,
    }
}

/// Whether two types are alike at their roots.
pub(crate) fn same_shape(one: &TypeRef<'_>, other: &TypeRef<'_>) -> bool
    ensures { IsTrue result ↔ (type_shape_of one.now ≡ type_shape_of other.now) }
{
    one.shape() == other.shape()
}

//! Types as declarations have them.
ghost use Rattle.std.specs.Prelude.{◌≡◌, ◌≤◌, [], ◌∷◌, ◌++◌, length, map, IfOk, OnOk};
ghost use Rattle.merc_tree.specs.Nodes.{arity_of};
ghost use Rattle.merc_item_forms.specs.Forms.{argument_type};
ghost use Rattle.merc_items.specs.ModuleOf.{declared_type, type_variable};
ghost use Rattle.merc_items.specs.DeclaredTypes.{with_part};

use merc_base::{Name, Names, NoMemory, Span};
use merc_item_forms::argument_type;
use merc_tree::{Shape, TermRef, TypeExprs};
use merc_value::is_blank;
use std::alloc::Global;

/// The types that terms declare, in order.
pub(crate) fn declared_types(
    alloc: Global,
    names: &Names,
    terms: &[TermRef<'_>],
) -> Result<TypeExprs, NoMemory>
    ensures { IfOk result (λ types. types ≡ map (declared_type names.now) terms.now) }
{
    let mut types = TypeExprs::new(alloc);
    for term in terms {
        push_type(&mut types, names, term)?;
    }
    Ok(types)
}

/// The types of a predicate's arguments, without their modes.
pub(crate) fn argument_types(
    alloc: Global,
    names: &Names,
    arguments: &[TermRef<'_>],
) -> Result<TypeExprs, NoMemory>
    ensures { IfOk result (λ types. types ≡ map (λ argument. declared_type names.now (argument_type argument)) arguments.now) }
{
    let mut types = TypeExprs::new(alloc);
    for argument in arguments {
        push_type(&mut types, names, &argument_type(argument))?;
    }
    Ok(types)
}

// Puts the type that a term declares behind the others.
fn push_type(types: &mut TypeExprs, names: &Names, term: &TermRef<'_>) -> Result<(), NoMemory>
    ensures { OnOk result (types.new ≡ types.old ++ declared_type names.now term.now ∷ []) }
{
    for index in 0..term.part_count() {
        if let Some((shape, span)) = term.placed_part(index) {
            push_part(types, names, &shape, span)?;
        }
    }
    Ok(())
}

// Puts a part of a type behind the others, of which the last become its arguments.
fn push_part(
    types: &mut TypeExprs,
    names: &Names,
    shape: &Shape,
    span: Span,
) -> Result<(), NoMemory>
    requires { arity_of shape.now ≤ length types.old }
    ensures { OnOk result (types.new ≡ with_part names.now shape.now span types.old) }
{
    match shape {
        Shape::Variable(name) => types.push_variable(type_variable(names, *name, span)),
        Shape::Integer(_) => types.push_int(),
        Shape::Text(_) => types.push_text(),
        Shape::Application { name, arity, .. } => types.apply(*name, *arity),
    }
}

/// The type variable that this name stands for at this place: each `_` is one of its own.
pub(crate) fn type_variable(names: &Names, name: Name, span: Span) -> Name
    ensures { result ≡ type_variable names.now name span }
{
    if is_blank(names, name) {
        names.beyond(span.first)
    } else {
        name
    }
}

//! Tests on all parts of a term.
ghost use Rattle.std.specs.Prelude.{◌≡◌, take};
ghost use Rattle.std.specs.List.{list_any};
ghost use Rattle.merc_tree.specs.Postfix.{shapes_of};
ghost use Rattle.merc_tree.specs.Shape.{arguments_of};
ghost use Rattle.merc_item_forms.specs.Forms.{has_part, is_outside_plain};
ghost use Rattle.merc_item_forms.specs.Parts.{test_of, shape_test, is_literal_shape, is_outside_shape, is_outside_name, is_moded_shape, is_wide_shape};

use merc_base::Name;
use merc_tree::{Shape, TermRef};

/// The most arguments of a predicate, a constructor or a type.
pub(crate) const ARITY_LIMIT: usize = 64;

/// What is asked of a part of a term.
#[derive(Clone, Copy)]
pub(crate) enum PartTest {
    /// Whether it is an integer or a text.
    Literal,
    /// Whether it is a type that the profile leaves out.
    OutsideType,
    /// Whether it is a `T::M`.
    Moded,
    /// Whether it has too many arguments.
    Wide,
}

/// Whether some part of a term, itself among them, passes a test.
pub(crate) fn has_part(term: &TermRef<'_>, test: PartTest) -> bool
    ensures { result ≡ has_part (test_of test) term.now }
{
    any_part(term, term.part_count(), test)
}

/// Whether some part of some argument of a term passes a test.
pub(crate) fn arguments_have_part(term: &TermRef<'_>, test: PartTest) -> bool
    ensures { result ≡ list_any (has_part (test_of test)) (arguments_of term.now) }
{
    any_part(term, term.part_count().saturating_sub(1), test)
}

// Whether one of so many parts passes a test.
fn any_part(term: &TermRef<'_>, count: usize, test: PartTest) -> bool
    ensures { result ≡ list_any (shape_test test) (take count (shapes_of term.now)) }
{
    for index in 0..count {
        if let Some(shape) = term.part_shape(index) {
            if passes(&shape, test) {
                return true;
            }
        }
    }
    false
}

/// Whether a term of this shape passes a test.
pub(crate) fn passes(shape: &Shape, test: PartTest) -> bool
    ensures { result ≡ shape_test test shape.now }
{
    match test {
        PartTest::Literal => is_literal(shape),
        PartTest::OutsideType => is_outside_type(shape),
        PartTest::Moded => is_moded(shape),
        PartTest::Wide => is_wide(shape),
    }
}

fn is_literal(shape: &Shape) -> bool
    ensures { result ≡ is_literal_shape shape.now }
{
    matches!(shape, Shape::Integer(_) | Shape::Text(_))
}

// Whether a term of this shape is a type that the profile leaves out.
fn is_outside_type(shape: &Shape) -> bool
    ensures { result ≡ is_outside_shape shape.now }
{
    match shape {
        Shape::Application {
            name,
            qualifier,
            arity,
        } => qualifier.is_none() && is_outside_name(*name, *arity),
        _ => false,
    }
}

// The types of predicates and functions, and others without arguments.
fn is_outside_name(name: Name, arity: usize) -> bool
    ensures { result ≡ is_outside_name name arity }
{
    (arity == 0 && is_outside_plain(name)) || name == Name::PRED || name == Name::FUNC
}

// Characters, floats, and integers of other sizes.
fn is_outside_plain(name: Name) -> bool
    ensures { result ≡ is_outside_plain name }
{
    name == Name::CHAR
        || name == Name::FLOAT
        || name == Name::UINT
        || name == Name::INT8
        || name == Name::INT16
        || name == Name::INT32
        || name == Name::INT64
        || name == Name::UINT8
        || name == Name::UINT16
        || name == Name::UINT32
        || name == Name::UINT64
}

fn is_moded(shape: &Shape) -> bool
    ensures { result ≡ is_moded_shape shape.now }
{
    match shape {
        Shape::Application {
            name,
            qualifier,
            arity,
        } => qualifier.is_none() && *arity == 2 && *name == Name::COLON_COLON,
        _ => false,
    }
}

fn is_wide(shape: &Shape) -> bool
    ensures { result ≡ is_wide_shape shape.now }
{
    match shape {
        Shape::Application { arity, .. } => *arity > ARITY_LIMIT,
        _ => false,
    }
}

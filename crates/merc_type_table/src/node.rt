//! What a type is made of.
use crate::TypeNumber;
use merc_base::Name;

/// A type over the numbers of types that stand before it in a table.
#[derive(Clone, Copy)]
pub enum TypeNode {
    /// A type variable.
    Variable(Name),
    /// The type `int`.
    Int,
    /// The type `string`.
    Text,
    /// A type's name without arguments.
    Name(Name),
    /// The type `rest`, a type's name over arguments, with one more argument before them.
    With { first: TypeNumber, rest: TypeNumber },
}

// One more argument, and the type that it is added to.
#[derive(Clone, Copy, PartialEq, Eq, PartialOrd, Ord)]
pub(crate) struct Pair {
    pub(crate) first: TypeNumber,
    pub(crate) rest: TypeNumber,
}

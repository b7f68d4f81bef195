//! Numbers of types.
ghost use Rattle.std.specs.Prelude.{◌≡◌};

use std::marker::Model;

/// The number of a type in a table: how many types stand before it.
#[derive(Clone, Copy, PartialEq, Eq, PartialOrd, Ord)]
pub struct TypeNumber(usize);

impl Model for TypeNumber {
    ghost use Rattle.std.specs.Prelude.{ℕ};

    ghost Value = { ℕ };

    ghost view = { λ n. n.0 };

    ghost inverse = { λ n. record { 0 = n } };
}

impl TypeNumber {
    // The numbers of `int` and `string` in every table.
    pub(crate) const INT: TypeNumber = TypeNumber(0);

    pub(crate) const TEXT: TypeNumber = TypeNumber(1);

    pub(crate) fn at(index: usize) -> TypeNumber
        ensures { result ≡ index }
    {
        TypeNumber(index)
    }

    pub(crate) fn index(self) -> usize
        ensures { result ≡ self }
    {
        self.0
    }
}

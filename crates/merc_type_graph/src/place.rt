//! Places of types in a graph.
ghost use Rattle.std.specs.Prelude.{◌≡◌};

use std::marker::Model;

/// The place of a type in a graph: the number of types that were added before it.
#[derive(Clone, Copy)]
pub struct Place(usize);

impl Model for Place {
    ghost use Rattle.std.specs.Prelude.{ℕ};

    ghost Value = { ℕ };

    ghost view = { λ p. p.0 };

    ghost inverse = { λ n. record { 0 = n } };
}

impl Place {
    pub(crate) fn at(index: usize) -> Place
        ensures { result ≡ index }
    {
        Place(index)
    }

    pub(crate) fn index(self) -> usize
        ensures { result ≡ self }
    {
        self.0
    }
}

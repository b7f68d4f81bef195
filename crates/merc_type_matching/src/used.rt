//! Type variables of the declarations that the parts of a goal use.
ghost use Rattle.std.specs.Prelude.{◌≡◌};

use merc_base::Name;

/// A type variable of the declarations that a part of a goal uses. Each part of a goal has an instance of its own of the
/// declarations that it uses: a type variable may stand for another type in each of them.
#[derive(Clone, Copy, PartialEq, Eq, PartialOrd, Ord)]
pub struct UsedVariable {
    // The number of the part of the goal.
    user: usize,
    name: Name,
}

impl UsedVariable {
    /// The type variable of this name in the instance of the part of the goal that has the number `user`.
    pub fn new(user: usize, name: Name) -> UsedVariable
        ensures { result ≡ record { user = user; name = name } }
    {
        UsedVariable { user, name }
    }
}

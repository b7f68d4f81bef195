//! The typings of a goal.
ghost use Rattle.std.specs.Prelude.{◌≡◌};
ghost use Rattle.std.specs.Ordering.{nat_cmp};
ghost use Rattle.std.specs.BTreeMap.{get};

use merc_goal_tree::Var;
use merc_type_graph::{Place, TypeGraph};
use std::collections::BTreeMap;

/// All typings of a goal at once: equations between types at places, and the places of the types of the goal's variables.
/// Each solution of the equations is a typing, and each typing is one of their solutions. A type may be far larger than
/// the equations, since its equal parts have one place.
#[derive(Drop)]
pub struct Typing<'a> {
    pub(crate) graph: TypeGraph<'a>,
    pub(crate) variables: BTreeMap<Var, Place>,
}

impl<'a> Typing<'a> {
    /// The place of a variable's type, None for a variable that may have any type. With n variables it takes time of the
    /// order of log n.
    pub fn place_of(&self, variable: Var) -> Option<Place>
        ensures { result ≡ get nat_cmp self.now.variables variable }
    {
        self.variables.get(&variable).copied()
    }
}

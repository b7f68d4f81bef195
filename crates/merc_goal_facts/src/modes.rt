//! The modes of predicates.
ghost use Rattle.std.specs.Prelude.{◌≡◌};
ghost use Rattle.merc_order.specs.Procedures.{modes_of};

use merc_goal_tree::Predicate;
use merc_tree::{ModeDecl, PredDecl};

/// The modes of a predicate, none where there is no such predicate.
pub fn modes_at(predicates: &[PredDecl], predicate: Predicate) -> &[ModeDecl]
    ensures { result.now ≡ modes_of predicates.now predicate }
{
    match predicates.get(predicate.number()) {
        Some(declared) => declared.modes.as_slice(),
        None => &[],
    }
}

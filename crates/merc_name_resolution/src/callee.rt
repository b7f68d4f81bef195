//! What a call is of.

use merc_goal_tree::Predicate;

/// What a call is of.
#[derive(Clone, Copy)]
pub enum Callee {
    /// A predicate, by its number; the number of all predicates where the name means none.
    Predicate(Predicate),
    /// `error/1` of the unit `require`.
    Error,
}

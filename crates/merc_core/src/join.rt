//! Joins, each with its parent.
ghost use Rattle.std.specs.Prelude.{◌≡◌};
ghost use Rattle.merc_core.specs.Outcomes.{joined_at, outermost_outcome};

use crate::branch::Branch;
use merc_script::{Outcome, join_next};
use std::collections::LinkedList;

/// A join of a fork's children.
#[derive(Drop)]
pub struct Join {
    /// the most steps that the children make together
    pub limit: u64,
    /// what is stored for each child, in order; `None` where it has not ended
    pub outcomes: LinkedList<Option<Outcome>>,
    /// the parent, where it is parked there
    pub parent: LinkedList<Branch>,
}

impl Join {
    /// The outcome of the fork, once those of all children are stored; `None` before.
    pub fn joined(&self) -> Option<Outcome>
        ensures { result ≡ joined_at self.now }
    {
        let mut before = Outcome::Ok(0);
        for stored in self.outcomes.iter() {
            match stored {
                Some(outcome) => before = join_next(self.limit, before, *outcome),
                None => return None,
            }
        }
        Some(before)
    }
}

/// What is stored for the child of the outermost join, the first of these; `None` where there is nothing.
pub fn outermost_outcome(joins: &[Join]) -> Option<Outcome>
    ensures { result ≡ outermost_outcome joins.now }
{
    match joins.first() {
        Some(outermost) => match outermost.outcomes.front() {
            Some(stored) => *stored,
            None => None,
        },
        None => None,
    }
}

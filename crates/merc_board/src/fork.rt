//! What is handed out at a fork.

use merc_goal_tree::Var;

/// A cell of a fork: the variable under which the rights to it are, the child that signals it, and the child that waits
/// for it, 0 for the parent behind the fork. Children are numbered from 1.
#[derive(Clone, Copy)]
pub struct SharedCell {
    pub variable: Var,
    pub producer: usize,
    pub consumer: usize,
}

/// The parent's rights under a variable that move into a child: all those to signal it, or else all those to wait for it.
#[derive(Clone, Copy)]
pub struct Handover {
    pub variable: Var,
    /// The child, numbered from 1.
    pub child: usize,
    pub signal: bool,
}

//! What a call passes.

use merc_goal_tree::Var;

/// An argument that is passed: the slot of the caller's frame that has it, and the slot of the new frame.
#[derive(Clone, Copy)]
pub struct Pass {
    pub from: Var,
    pub to: Var,
}

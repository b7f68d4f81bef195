//! Goals as they are written out in their order.
use merc_goal_facts::BoundSet;
use merc_graded_tree::Nodes;

/// Goals that were written out in their order.
#[derive(Drop)]
pub struct Written {
    /// The goals, in the order in which they run.
    pub nodes: Nodes,
    /// The number of the next fresh variable.
    pub fresh: usize,
    /// No variables: a set to look up variables in, empty again afterwards.
    pub seen: BoundSet,
}

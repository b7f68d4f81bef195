//! The trees of a program's procedures, one after the other.
ghost use Rattle.std.specs.Prelude.{◌≡◌, [], ◌∷◌, MatchOption};

use merc_graded_tree::{NodeRef, Nodes};
use std::marker::Model;

/// Trees that are left of others, to be taken from the first to the last.
#[derive(Drop)]
pub(crate) struct TreesLeft<'a> {
    trees: &'a Nodes,
    taken: usize,
}

impl<'a> Model for TreesLeft<'a> {
    ghost use Rattle.std.specs.Prelude.{◌≤◌, List, length, drop};
    ghost use Rattle.merc_graded_tree.specs.Nodes.{Node};

    ghost Value = { List Node };

    ghost use Rattle.merc_graded_tree.specs.LabelCode.{node_list_code};

    ghost coded = { node_list_code };

    ghost view = { λ t. drop t.taken t.trees.now };

    ghost invariant = { λ t. t.taken ≤ length t.trees.now };
}

impl<'a> TreesLeft<'a> {
    /// All of them.
    pub(crate) fn new(trees: &'a Nodes) -> TreesLeft<'a>
        ensures { result ≡ trees.now }
    {
        TreesLeft { trees, taken: 0 }
    }

    /// Takes the first tree.
    pub(crate) fn take_first(&mut self) -> Option<NodeRef<'a>>
        ensures { MatchOption result ((self.old ≡ []) × (self.new ≡ [])) (λ first. self.old ≡ first ∷ self.new) }
    {
        if self.taken >= self.trees.len() {
            return None;
        }
        let first = self.trees.get(self.taken);
        self.taken += 1;
        first
    }
}

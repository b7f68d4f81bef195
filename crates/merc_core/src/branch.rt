//! Branches, and what becomes of the first of a list.
ghost use Rattle.std.specs.Prelude.{◌≡◌, ◌+◌, ◌-◌, ◌<◌, ◌^◌, [], ◌∷◌, Some};
ghost use Rattle.merc_core.specs.declared.branch.Branch.{Branch as CoreBranch};

use merc_script::{CellId, Outcome};
use std::collections::LinkedList;

/// A branch: where it stands in the root's script, and what it carries.
#[derive(Drop)]
pub struct Branch {
    /// the join whose child it is
    pub join: usize,
    /// the child's number, from 1
    pub child: usize,
    /// the place of its next item, among those of the root's script
    pub at: usize,
    /// the outcome that it ends with in place of what its script says
    pub ended: Option<Outcome>,
    /// the steps that were made so far, those of children among them
    pub steps: u64,
    /// The cells that it had to signal at first. None is taken out: those that it signals are full when it ends, and those
    /// that it passes on to a child are full or poisoned.
    pub signals: LinkedList<CellId>,
}

/// The first branch goes past a tick.
pub fn pass_tick(hand: &mut LinkedList<Branch>)
    requires { (b : CoreBranch) × (hand.old ≡ b ∷ []) × (b.at < 2 ^ 63) × (b.steps < 2 ^ 64 - 1) }
    ensures { (b : CoreBranch) → hand.old ≡ b ∷ [] → hand.new ≡ (record b { at = b.at + 1; steps = b.steps + 1 }) ∷ [] }
{
    if let Some(branch) = hand.front_mut() {
        branch.at += 1;
        branch.steps += 1;
    }
}

/// The first branch goes past an item.
pub fn pass_item(hand: &mut LinkedList<Branch>)
    requires { (b : CoreBranch) × (hand.old ≡ b ∷ []) × (b.at < 2 ^ 63) }
    ensures { (b : CoreBranch) → hand.old ≡ b ∷ [] → hand.new ≡ (record b { at = b.at + 1 }) ∷ [] }
{
    if let Some(branch) = hand.front_mut() {
        branch.at += 1;
    }
}

/// The first branch ends here.
pub fn end_first(list: &mut LinkedList<Branch>, outcome: Outcome)
    ensures { (b : CoreBranch) (bs : _) → list.old ≡ b ∷ bs → list.new ≡ (record b { ended = Some outcome }) ∷ bs }
{
    if let Some(branch) = list.front_mut() {
        branch.ended = Some(outcome);
    }
}

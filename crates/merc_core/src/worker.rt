//! Workers, each with its branches.
ghost use Rattle.std.specs.Prelude.{◌≡◌, ◌+◌, ◌-◌, ◌<◌, ◌≤◌, ◌^◌, ◌++◌, [], ◌∷◌, None, length, take, drop};
ghost use Rattle.merc_script.specs.Joining.{HasFewSteps, most_steps};
ghost use Rattle.merc_core.specs.declared.branch.Branch.{Branch as CoreBranch};
ghost use Rattle.merc_core.specs.Queues.{behind_with};

use crate::branch::Branch;
use crate::lists::{move_all, move_last};
use merc_script::Outcome;
use std::collections::LinkedList;

/// A worker, with its list of branches that are ready to run.
#[derive(Drop)]
pub struct Worker {
    /// the branch that it runs or holds, or none
    pub hand: LinkedList<Branch>,
    /// the join whose parent it holds, if it does
    pub held: Option<usize>,
    /// those that are ready to run, the back last
    pub list: LinkedList<Branch>,
}

impl Worker {
    /// The parent that the worker holds goes on behind its fork, whose join gave this outcome.
    pub fn go_behind(&mut self, outcome: Outcome)
        requires { (b : CoreBranch) × (self.old.hand ≡ b ∷ []) × (b.steps ≤ most_steps) × HasFewSteps outcome }
        ensures hand { (b : CoreBranch) → self.old.hand ≡ b ∷ [] → self.new.hand ≡ behind_with outcome b ∷ [] }
        ensures held { self.new.held ≡ None }
        ensures list { self.new.list ≡ self.old.list }
    {
        self.held = None;
        if let Some(branch) = self.hand.front_mut() {
            match outcome {
                Outcome::Ok(steps) => branch.steps += steps,
                Outcome::Raise(text, steps) => {
                    branch.ended = Some(Outcome::Raise(text, branch.steps + steps));
                }
                _ => branch.ended = Some(outcome),
            }
        }
    }

    /// Takes the children of a fork, of which the first stands at the back. It runs here, and the others go to the back of the
    /// list.
    pub fn take_children(&mut self, mut born: LinkedList<Branch>)
        requires some { 0 < length born }
        requires free { self.old.hand ≡ [] }
        requires room { length self.old.list + length born < 2 ^ 63 }
        ensures hand { self.new.hand ≡ drop (length born - 1) born }
        ensures held { self.new.held ≡ self.old.held }
        ensures list { self.new.list ≡ self.old.list ++ take (length born - 1) born }
    {
        move_last(&mut born, &mut self.hand);
        move_all(&mut born, &mut self.list);
    }
}

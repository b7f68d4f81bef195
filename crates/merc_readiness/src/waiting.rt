//! The goals of a conjunction that are left.
ghost use Rattle.std.specs.Prelude.{◌≡◌, ◌≤◌, ◌+◌, length, OnOk, IfOk};
ghost use Rattle.merc_goal_tree.specs.Nodes.{nodes_of};
ghost use Rattle.merc_goal_tree.specs.Parts.{parts_of, all_parts};
ghost use Rattle.merc_readiness.specs.Sweeps.{Extends, ArePlaced, BindsOne, BindsGone};

use merc_base::NoMemory;
use merc_goal_facts::{BoundSet, Facts};
use merc_goal_tree::NodeRef;
use std::alloc::Global;

// A goal of a conjunction that has not gone.
#[derive(Clone, Copy)]
pub(crate) struct Waiting {
    // the goal's index among those of the conjunction
    pub(crate) index: usize,
    // the index of its first part among the parts of all of them
    pub(crate) at: usize,
}

/// Binds what those of these goals bind that are marked. The others are given, in their order.
///
/// # Errors
///
/// `NoMemory` where memory was refused.
pub(crate) fn bind_gone(
    alloc: Global,
    goals: &[NodeRef<'_>],
    facts: &[Facts],
    marks: &[bool],
    bound: &mut BoundSet,
) -> Result<Vec<Waiting>, NoMemory>
    requires known { length facts.now ≡ length (all_parts (nodes_of goals.now)) }
    requires marked { length marks.now ≡ length (all_parts (nodes_of goals.now)) }
    ensures extends { OnOk result (Extends bound.old bound.new) }
    ensures placed { IfOk result (λ left. ArePlaced goals.now left.items) }
    ensures binds { IfOk result (λ left. BindsGone (nodes_of goals.now) facts.now marks.now bound.old bound.new left.items) }
{
    let mut left = Vec::new(alloc);
    let mut at = 0;
    for (index, goal) in goals.iter().enumerate() {
        if !bind_if_gone(goal, facts, marks, at, bound)? {
            left.push(Waiting { index, at })?;
        }
        at += goal.part_count();
    }
    Ok(left)
}

// Binds what the next goal binds, if it is marked, and tells whether it is. Its parts stand from this index on.
fn bind_if_gone(
    goal: &NodeRef<'_>,
    facts: &[Facts],
    marks: &[bool],
    at: usize,
    bound: &mut BoundSet,
) -> Result<bool, NoMemory>
    requires known { at + length (parts_of goal.now) ≤ length facts.now }
    requires marked { at + length (parts_of goal.now) ≤ length marks.now }
    ensures extends { OnOk result (Extends bound.old bound.new) }
    ensures binds { IfOk result (λ gone. BindsOne goal.now facts.now marks.now at bound.old bound.new gone) }
{
    let own = at + goal.part_count() - 1;
    if !marks[own] {
        return Ok(false);
    }
    bound.bind_all(facts[own].binds.as_slice())?;
    Ok(true)
}

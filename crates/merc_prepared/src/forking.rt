//! Whether a goal can come to an `&` by calls.

use merc_base::NoMemory;
use merc_graded_tree::{BasicGoal, NodeRef, Nodes, Procedure, Root, Running};
use merc_tree::PredDecl;
use std::alloc::Global;

// Trees that a goal can reach by calls.
#[derive(Drop)]
struct Reached {
    // the number of the first tree of each predicate
    firsts: Vec<usize>,
    // of each tree, whether it was reached
    seen: Vec<bool>,
    // the numbers of trees that were reached, and not looked at
    waiting: Vec<usize>,
}

/// Whether a goal can come to an `&` by calls, over a module with these predicates. The trees are those of each predicate in
/// each of its modes, both in order. Each tree that can be reached is looked at once, so it takes time and memory of the order of
/// the trees and the goal. It says only which of two ways to run the goal is the faster: both are right for each goal.
///
/// # Errors
///
/// `NoMemory` where memory was refused.
pub fn may_fork(
    alloc: Global,
    predicates: &[PredDecl],
    trees: &Nodes,
    goal: &NodeRef<'_>,
) -> Result<bool, NoMemory> {
    let mut reached = Reached {
        firsts: firsts_of(alloc, predicates)?,
        seen: none_seen(alloc, trees)?,
        waiting: Vec::new(alloc),
    };
    if reached.look_at(goal)? {
        return Ok(true);
    }
    // each tree waits once at most
    for _ in 0..trees.len() {
        match reached.next_tree(trees) {
            Some(tree) => {
                if reached.look_at(&tree)? {
                    return Ok(true);
                }
            }
            None => return Ok(false),
        }
    }
    Ok(false)
}

// The number of the first tree of each predicate.
fn firsts_of(alloc: Global, predicates: &[PredDecl]) -> Result<Vec<usize>, NoMemory> {
    let mut firsts = Vec::new(alloc);
    let mut first: usize = 0;
    for declared in predicates {
        firsts.push(first)?;
        match first.checked_add(declared.modes.as_slice().len()) {
            Some(next) => first = next,
            None => return Err(NoMemory),
        }
    }
    Ok(firsts)
}

// No tree was reached.
fn none_seen(alloc: Global, trees: &Nodes) -> Result<Vec<bool>, NoMemory> {
    let mut seen = Vec::new(alloc);
    for _ in 0..trees.len() {
        seen.push(false)?;
    }
    Ok(seen)
}

impl Reached {
    // A tree that was reached and not looked at.
    fn next_tree<'a>(&mut self, trees: &'a Nodes) -> Option<NodeRef<'a>> {
        match self.waiting.pop() {
            Some(number) => trees.get(number),
            None => None,
        }
    }

    // Whether an `&` is part of a goal; else the trees that it calls are reached.
    fn look_at(&mut self, goal: &NodeRef<'_>) -> Result<bool, NoMemory> {
        for index in 0..goal.part_count() {
            if let Some(label) = goal.part(index) {
                match &label.root {
                    Root::Conjunction(Running::Parallel(_), _) => return Ok(true),
                    Root::Basic(BasicGoal::Call(procedure, _)) => self.reach(*procedure)?,
                    _ => {}
                }
            }
        }
        Ok(false)
    }

    // The tree of a procedure is reached, where it has one.
    fn reach(&mut self, procedure: Procedure) -> Result<(), NoMemory> {
        let number = match self.firsts.get(procedure.predicate.number()) {
            Some(first) => first.checked_add(procedure.mode),
            None => None,
        };
        if let Some(number) = number {
            self.reach_tree(number)?;
        }
        Ok(())
    }

    // The tree of this number is reached, where it is there.
    fn reach_tree(&mut self, number: usize) -> Result<(), NoMemory> {
        match self.seen.get_mut(number) {
            Some(seen) => {
                if !*seen {
                    *seen = true;
                    self.waiting.push(number)?;
                }
            }
            None => {}
        }
        Ok(())
    }
}

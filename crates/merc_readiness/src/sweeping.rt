//! Whether a conjunction is ready: its goals are asked again and again, as long as one of them goes.
ghost use Rattle.std.specs.Prelude.{◌≡◌, ◌≤◌, ◌+◌, length, OnOk, IfOk};
ghost use Rattle.merc_base.specs.declared.place.Span.{Span};
ghost use Rattle.merc_goal_tree.specs.Nodes.{Conjunction, nodes_of};
ghost use Rattle.merc_goal_tree.specs.Parts.{parts_of, all_parts};
ghost use Rattle.merc_order.specs.Bound.{among};
ghost use Rattle.merc_goal_facts.specs.declared.facts.Facts.{Facts};
ghost use Rattle.merc_readiness.specs.Asking.{AskedParts};
ghost use Rattle.merc_readiness.specs.Sweeps.{Extends, ArePlaced, AsksOne, Sweeps, SweepsAll};

use crate::asking::advance;
use crate::waiting::{Waiting, bind_gone};
use merc_base::NoMemory;
use merc_goal_facts::{BoundSet, Facts};
use merc_goal_tree::NodeRef;
use merc_tree::PredDecl;
use std::alloc::Global;

/// Asks whether a conjunction of these goals is ready that is not marked itself. Those that are ready go, as long as one
/// is.
///
/// # Errors
///
/// `NoMemory` where memory was refused.
#[cycle(asking)]
pub(crate) fn advance_all(
    alloc: Global,
    predicates: &[PredDecl],
    goals: &[NodeRef<'_>],
    facts: &[Facts],
    marks: &mut [bool],
    bound: &mut BoundSet,
) -> Result<bool, NoMemory>
    requires known { length facts.now ≡ length (all_parts (nodes_of goals.now)) }
    requires marked { length marks.old ≡ length (all_parts (nodes_of goals.now)) }
    ensures same { OnOk result (bound.new ≡ bound.old) }
    ensures asked { IfOk result (λ ready. (span : Span) (own : Facts) → AskedParts predicates.now (Conjunction (nodes_of goals.now) span) facts.now own marks.old marks.new (among bound.old) ready) }
{
    let before = bound.mark();
    let left = bind_gone(alloc, goals, facts, marks, bound)?;
    let ready = sweep_all(alloc, predicates, goals, facts, marks, bound, left)?;
    bound.undo(before);
    Ok(ready)
}

// Asks the goals of a conjunction that are left, forwards and backwards in turn, as long as one goes. What they bind is
// bound. Goals of which each needs what the next one binds all go when they are asked backwards.
#[cycle(asking)]
fn sweep_all(
    alloc: Global,
    predicates: &[PredDecl],
    goals: &[NodeRef<'_>],
    facts: &[Facts],
    marks: &mut [bool],
    bound: &mut BoundSet,
    left: Vec<Waiting>,
) -> Result<bool, NoMemory>
    requires known { length facts.now ≡ length (all_parts (nodes_of goals.now)) }
    requires marked { length marks.old ≡ length (all_parts (nodes_of goals.now)) }
    requires placed { ArePlaced goals.now left.items }
    ensures extends { OnOk result (Extends bound.old bound.new) }
    ensures asked { IfOk result (λ ready. SweepsAll predicates.now goals.now facts.now marks.old marks.new bound.old bound.new left.items ready) }
{
    let mut rest = left;
    while !rest.is_empty() {
        let mut kept = sweep_once(alloc, predicates, goals, facts, marks, bound, &rest)?;
        if kept.len() == rest.len() {
            return Ok(false);
        }
        kept.reverse();
        rest = kept;
    }
    Ok(true)
}

// Asks each of the goals of a conjunction once that are left. Those that did not go are given, in their order.
#[cycle(asking)]
fn sweep_once(
    alloc: Global,
    predicates: &[PredDecl],
    goals: &[NodeRef<'_>],
    facts: &[Facts],
    marks: &mut [bool],
    bound: &mut BoundSet,
    left: &[Waiting],
) -> Result<Vec<Waiting>, NoMemory>
    requires known { length facts.now ≡ length (all_parts (nodes_of goals.now)) }
    requires marked { length marks.old ≡ length (all_parts (nodes_of goals.now)) }
    requires placed { ArePlaced goals.now left.now }
    ensures extends { OnOk result (Extends bound.old bound.new) }
    ensures placed { IfOk result (λ kept. ArePlaced goals.now kept.items) }
    ensures fewer { IfOk result (λ kept. length kept.items ≤ length left.now) }
    ensures sweeps { IfOk result (λ kept. Sweeps predicates.now goals.now facts.now marks.old marks.new bound.old bound.new left.now kept.items) }
{
    let mut kept = Vec::new(alloc);
    for waiting in left {
        let goal = &goals[waiting.index];
        if !ask_member(alloc, predicates, goal, facts, marks, waiting.at, bound)? {
            kept.push(*waiting)?;
        }
    }
    Ok(kept)
}

// Asks a goal of a conjunction, and binds what it binds where it is ready. Its parts stand from this index on.
#[cycle(asking)]
fn ask_member(
    alloc: Global,
    predicates: &[PredDecl],
    goal: &NodeRef<'_>,
    facts: &[Facts],
    marks: &mut [bool],
    at: usize,
    bound: &mut BoundSet,
) -> Result<bool, NoMemory>
    requires known { at + length (parts_of goal.now) ≤ length facts.now }
    requires marked { at + length (parts_of goal.now) ≤ length marks.old }
    ensures extends { OnOk result (Extends bound.old bound.new) }
    ensures asks { IfOk result (λ ready. AsksOne predicates.now goal.now facts.now marks.old marks.new at bound.old bound.new ready) }
{
    let end = at + goal.part_count();
    if !advance(
        alloc,
        predicates,
        goal,
        &facts[at..end],
        &mut marks[at..end],
        bound,
    )? {
        return Ok(false);
    }
    bound.bind_all(facts[end - 1].binds.as_slice())?;
    Ok(true)
}

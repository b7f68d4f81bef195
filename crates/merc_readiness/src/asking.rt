//! Whether a goal is ready, asked again and again while more is bound.
ghost use Rattle.std.specs.Prelude.{◌≡◌, length, OnOk, IfOk};
ghost use Rattle.merc_base.specs.declared.place.Span.{Span};
ghost use Rattle.merc_goal_tree.specs.Nodes.{Parallel, Disjunction, nodes_of};
ghost use Rattle.merc_goal_tree.specs.Parts.{parts_of, all_parts};
ghost use Rattle.merc_order.specs.Bound.{among};
ghost use Rattle.merc_goal_facts.specs.declared.facts.Facts.{Facts};
ghost use Rattle.merc_readiness.specs.Asking.{joined_by, Asked, AskedParts};

use crate::chains::{Link, advance_decision};
use crate::joined_goals::members;
use crate::simple::is_simple_ready;
use crate::sweeping::advance_all;
use merc_base::NoMemory;
use merc_goal_facts::{BoundSet, Facts};
use merc_goal_tree::{NodeRef, NodeView};
use merc_tree::PredDecl;
use std::alloc::Global;

/// Asks whether a goal is ready. What is bound is the same behind it.
///
/// # Errors
///
/// `NoMemory` where memory was refused, or goals stand in each other deeper than `BoundSet::enter` lets them.
// It calls itself for the goals that a goal holds. Else parts that are if-then-elses again are gone through by a loop.
#[cycle(asking)]
pub fn advance(
    alloc: Global,
    predicates: &[PredDecl],
    goal: &NodeRef<'_>,
    facts: &[Facts],
    marks: &mut [bool],
    bound: &mut BoundSet,
) -> Result<bool, NoMemory>
    requires known { length facts.now ≡ length (parts_of goal.now) }
    requires marked { length marks.old ≡ length (parts_of goal.now) }
    ensures same { OnOk result (bound.new ≡ bound.old) }
    ensures asked { IfOk result (λ ready. Asked predicates.now goal.now facts.now marks.old marks.new (among bound.old) ready) }
{
    let own = goal.part_count() - 1;
    if marks[own] {
        return Ok(true);
    }
    let ready = advance_within(
        alloc,
        predicates,
        goal,
        &facts[..own],
        &facts[own],
        &mut marks[..own],
        bound,
    )?;
    marks[own] = ready;
    Ok(ready)
}

// Asks whether a goal is ready that is not marked itself: the pass goes into it, and leaves it. What it needs is looked at
// before, so that its parts are not gone over each time that more is bound.
#[cycle(asking)]
fn advance_within(
    alloc: Global,
    predicates: &[PredDecl],
    goal: &NodeRef<'_>,
    facts: &[Facts],
    own: &Facts,
    marks: &mut [bool],
    bound: &mut BoundSet,
) -> Result<bool, NoMemory>
    requires known { length facts.now ≡ length (all_parts (joined_by goal.now)) }
    requires marked { length marks.old ≡ length (all_parts (joined_by goal.now)) }
    ensures same { OnOk result (bound.new ≡ bound.old) }
    ensures asked { IfOk result (λ ready. AskedParts predicates.now goal.now facts.now own.now marks.old marks.new (among bound.old) ready) }
{
    if !bound.are_bound(own.needs.as_slice()) {
        return Ok(false);
    }
    bound.enter()?;
    let asked = advance_parts(alloc, predicates, goal, facts, own, marks, bound);
    bound.leave();
    asked
}

// Asks whether a goal is ready that is not marked itself and that the pass has entered, by its parts.
#[cycle(asking)]
fn advance_parts(
    alloc: Global,
    predicates: &[PredDecl],
    goal: &NodeRef<'_>,
    facts: &[Facts],
    own: &Facts,
    marks: &mut [bool],
    bound: &mut BoundSet,
) -> Result<bool, NoMemory>
    requires known { length facts.now ≡ length (all_parts (joined_by goal.now)) }
    requires marked { length marks.old ≡ length (all_parts (joined_by goal.now)) }
    ensures same { OnOk result (bound.new ≡ bound.old) }
    ensures asked { IfOk result (λ ready. AskedParts predicates.now goal.now facts.now own.now marks.old marks.new (among bound.old) ready) }
{
    match goal.view() {
        NodeView::Simple(simple) => Ok(is_simple_ready(simple, predicates, bound)),
        NodeView::Conjunction(goals) => {
            let goals = members(alloc, goals)?;
            advance_all(alloc, predicates, &goals, facts, marks, bound)
        }
        NodeView::Parallel(goals) => {
            let goals = members(alloc, goals)?;
            advance_beside(alloc, predicates, &goals, facts, marks, bound)
        }
        NodeView::Disjunction(arms) => {
            let arms = members(alloc, arms)?;
            advance_arms(alloc, predicates, &arms, facts, own, marks, bound)
        }
        NodeView::Conditional(condition, then_part, else_part) => {
            let link = Link {
                condition,
                then_part,
                else_part,
            };
            advance_decision(alloc, predicates, &link, facts, own, marks, bound)
        }
        NodeView::Negation(inner) => {
            Ok(
                advance(alloc, predicates, &inner, facts, marks, bound)?
                    && bound.are_bound(own.owed.as_slice()),
            )
        }
        NodeView::Quantified(_, inner) => advance(alloc, predicates, &inner, facts, marks, bound),
    }
}

// Asks whether goals in parallel are ready, from the left up to one that is not.
#[cycle(asking)]
fn advance_beside(
    alloc: Global,
    predicates: &[PredDecl],
    goals: &[NodeRef<'_>],
    facts: &[Facts],
    marks: &mut [bool],
    bound: &mut BoundSet,
) -> Result<bool, NoMemory>
    requires known { length facts.now ≡ length (all_parts (nodes_of goals.now)) }
    requires marked { length marks.old ≡ length (all_parts (nodes_of goals.now)) }
    ensures same { OnOk result (bound.new ≡ bound.old) }
    ensures asked { IfOk result (λ ready. (span : Span) (own : Facts) → AskedParts predicates.now (Parallel (nodes_of goals.now) span) facts.now own marks.old marks.new (among bound.old) ready) }
{
    let before = bound.mark();
    let mut at = 0;
    for goal in goals {
        let end = at + goal.part_count();
        if !advance(
            alloc,
            predicates,
            goal,
            &facts[at..end],
            &mut marks[at..end],
            bound,
        )? {
            bound.undo(before);
            return Ok(false);
        }
        bound.bind_all(facts[end - 1].binds.as_slice())?;
        at = end;
    }
    bound.undo(before);
    Ok(true)
}

// Asks whether the arms of a disjunction are ready, from the left up to one that is not.
#[cycle(asking)]
fn advance_arms(
    alloc: Global,
    predicates: &[PredDecl],
    arms: &[NodeRef<'_>],
    facts: &[Facts],
    own: &Facts,
    marks: &mut [bool],
    bound: &mut BoundSet,
) -> Result<bool, NoMemory>
    requires known { length facts.now ≡ length (all_parts (nodes_of arms.now)) }
    requires marked { length marks.old ≡ length (all_parts (nodes_of arms.now)) }
    ensures same { OnOk result (bound.new ≡ bound.old) }
    ensures asked { IfOk result (λ ready. (span : Span) → AskedParts predicates.now (Disjunction (nodes_of arms.now) span) facts.now own.now marks.old marks.new (among bound.old) ready) }
{
    // What it owes is looked at before its arms are asked: they are not gone over each time that more is bound.
    if !bound.are_bound(own.owed.as_slice()) {
        return Ok(false);
    }
    let mut at = 0;
    for arm in arms {
        let end = at + arm.part_count();
        if !advance(
            alloc,
            predicates,
            arm,
            &facts[at..end],
            &mut marks[at..end],
            bound,
        )? {
            return Ok(false);
        }
        at = end;
    }
    Ok(true)
}

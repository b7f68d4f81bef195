//! Whether an if-then-else is ready, with the if-then-elses that else parts are.
ghost use Rattle.std.specs.Prelude.{◌≡◌, ◌+◌, false, length, OnOk, IfOk, IfSome};
ghost use Rattle.merc_base.specs.declared.place.Span.{Span};
ghost use Rattle.merc_goal_tree.specs.Nodes.{Conditional, span_of};
ghost use Rattle.merc_goal_tree.specs.Parts.{parts_of};
ghost use Rattle.merc_order.specs.Bound.{among};
ghost use Rattle.merc_readiness.specs.Asking.{Asked, AskedParts};
ghost use Rattle.merc_readiness.specs.Chains.{AskedArm, AskedLinks, Closes};

use crate::asking::advance;
use merc_base::NoMemory;
use merc_goal_facts::{BoundSet, Facts};
use merc_goal_tree::{NodeRef, NodeView};
use merc_tree::PredDecl;
use std::alloc::Global;

/// An if-then-else. Its else part may be one again.
#[derive(Drop)]
pub(crate) struct Link<'a> {
    pub(crate) condition: NodeRef<'a>,
    pub(crate) then_part: NodeRef<'a>,
    pub(crate) else_part: NodeRef<'a>,
}

/// Asks whether an if-then-else is ready that is not marked itself.
///
/// # Errors
///
/// `NoMemory` where memory was refused.
#[cycle(asking)]
pub(crate) fn advance_decision(
    alloc: Global,
    predicates: &[PredDecl],
    link: &Link<'_>,
    facts: &[Facts],
    own: &Facts,
    marks: &mut [bool],
    bound: &mut BoundSet,
) -> Result<bool, NoMemory>
    requires known { length facts.now ≡ length (parts_of link.now.condition) + length (parts_of link.now.then_part) + length (parts_of link.now.else_part) }
    requires marked { length marks.old ≡ length (parts_of link.now.condition) + length (parts_of link.now.then_part) + length (parts_of link.now.else_part) }
    ensures same { OnOk result (bound.new ≡ bound.old) }
    ensures asked { IfOk result (λ ready. (span : Span) → AskedParts predicates.now (Conditional link.now.condition link.now.then_part link.now.else_part span) facts.now own.now marks.old marks.new (among bound.old) ready) }
{
    // What it owes is looked at before its parts are asked: a chain that waits for that is not walked each time that more is
    // bound.
    if !bound.are_bound(own.owed.as_slice()) {
        return Ok(false);
    }
    let first = link.condition.part_count() + link.then_part.part_count();
    if !advance_arm(
        alloc,
        predicates,
        link,
        &facts[..first],
        own,
        &mut marks[..first],
        bound,
    )? {
        return Ok(false);
    }
    advance_chain(
        alloc,
        predicates,
        &link.else_part,
        &facts[first..],
        &mut marks[first..],
        bound,
    )
}

// Asks the condition and, where what it binds is bound too, the then part. What the condition owes has to be bound.
#[cycle(asking)]
fn advance_arm(
    alloc: Global,
    predicates: &[PredDecl],
    link: &Link<'_>,
    facts: &[Facts],
    own: &Facts,
    marks: &mut [bool],
    bound: &mut BoundSet,
) -> Result<bool, NoMemory>
    requires known { length facts.now ≡ length (parts_of link.now.condition) + length (parts_of link.now.then_part) }
    requires marked { length marks.old ≡ length (parts_of link.now.condition) + length (parts_of link.now.then_part) }
    ensures same { OnOk result (bound.new ≡ bound.old) }
    ensures asked { IfOk result (λ ready. AskedArm predicates.now link.now.condition link.now.then_part facts.now own.now marks.old marks.new (among bound.old) ready) }
{
    let first = link.condition.part_count();
    if !advance(
        alloc,
        predicates,
        &link.condition,
        &facts[..first],
        &mut marks[..first],
        bound,
    )? {
        return Ok(false);
    }
    if !bound.are_bound(own.owed_by_condition.as_slice()) {
        return Ok(false);
    }
    let before = bound.mark();
    bound.bind_all(facts[first - 1].binds.as_slice())?;
    let ready = advance(
        alloc,
        predicates,
        &link.then_part,
        &facts[first..],
        &mut marks[first..],
        bound,
    )?;
    bound.undo(before);
    Ok(ready)
}

// Asks whether a goal is ready. Where it is an if-then-else whose else part is one again, and so on, it goes from the first
// to the last, and where all these parts are ready back to the first.
#[cycle(asking)]
fn advance_chain(
    alloc: Global,
    predicates: &[PredDecl],
    goal: &NodeRef<'_>,
    facts: &[Facts],
    marks: &mut [bool],
    bound: &mut BoundSet,
) -> Result<bool, NoMemory>
    requires known { length facts.now ≡ length (parts_of goal.now) }
    requires marked { length marks.old ≡ length (parts_of goal.now) }
    ensures same { OnOk result (bound.new ≡ bound.old) }
    ensures asked { IfOk result (λ ready. Asked predicates.now goal.now facts.now marks.old marks.new (among bound.old) ready) }
{
    match advance_links(alloc, predicates, goal, facts, marks, bound)? {
        Some(end) => Ok(close_links(facts, marks, bound, end)),
        None => Ok(false),
    }
}

// Asks the conditions and then parts of a chain, from the first on, and its last else part. None where one is not ready,
// else the index from which on the if-then-elses have their own marks that are still to be asked.
#[cycle(asking)]
fn advance_links(
    alloc: Global,
    predicates: &[PredDecl],
    goal: &NodeRef<'_>,
    facts: &[Facts],
    marks: &mut [bool],
    bound: &mut BoundSet,
) -> Result<Option<usize>, NoMemory>
    requires known { length facts.now ≡ length (parts_of goal.now) }
    requires marked { length marks.old ≡ length (parts_of goal.now) }
    ensures same { OnOk result (bound.new ≡ bound.old) }
    ensures asked { IfOk result (λ end. AskedLinks predicates.now goal.now facts.now marks.old marks.new (among bound.old) end) }
{
    let mut last = goal.copy();
    let mut at = 0;
    let mut end = facts.len();
    while let Some(link) = open_link(&last, marks[end - 1]) {
        let next = at + link.condition.part_count() + link.then_part.part_count();
        end -= 1;
        if !advance_arm(
            alloc,
            predicates,
            &link,
            &facts[at..next],
            &facts[end],
            &mut marks[at..next],
            bound,
        )? {
            return Ok(None);
        }
        at = next;
        last = link.else_part;
    }
    if advance(
        alloc,
        predicates,
        &last,
        &facts[at..end],
        &mut marks[at..end],
        bound,
    )? {
        Ok(Some(end))
    } else {
        Ok(None)
    }
}

// The goal as an if-then-else, unless it is marked or is none.
fn open_link<'a>(goal: &NodeRef<'a>, is_marked: bool) -> Option<Link<'a>>
    ensures { IfSome result (λ link. (is_marked ≡ false) × (goal.now ≡ Conditional link.condition link.then_part link.else_part (span_of goal.now))) }
{
    if is_marked {
        return None;
    }
    match goal.view() {
        NodeView::Conditional(condition, then_part, else_part) => Some(Link {
            condition,
            then_part,
            else_part,
        }),
        _ => None,
    }
}

// Whether the if-then-elses of a chain are ready whose parts are: from the last to the first, as their own marks stand from
// this index on.
fn close_links(facts: &[Facts], marks: &mut [bool], bound: &BoundSet, end: usize) -> bool
    requires { length facts.now ≡ length marks.old }
    ensures { Closes facts.now marks.old marks.new (among bound.now) end result }
{
    let mut own = end;
    while own < marks.len() {
        if !bound.are_bound(facts[own].owed.as_slice()) {
            return false;
        }
        marks[own] = true;
        own += 1;
    }
    true
}

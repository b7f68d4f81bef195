//! The order of if-then-elses, written out.
ghost use Rattle.std.specs.Prelude.{◌≡◌, ◌+◌, ◌≤◌, [], length, reverse, OnOk};
ghost use Rattle.merc_goal_tree.specs.Parts.{parts_of};
ghost use Rattle.merc_goal_order.specs.Linked.{Guards, ClosesOne, Closes, IsConditional};
ghost use Rattle.merc_goal_order.specs.Walking.{Orders};
ghost use Rattle.merc_goal_order.specs.Walks.{AddsOne, AddsTwo};

use crate::walking::{PlacedGoal, Setting, walk};
use merc_base::{Fault, Rule, Span};
use merc_goal_facts::{BoundSet, Facts};
use merc_goal_tree::{NodeRef, NodeView};
use merc_simple_goals::{Written, fault_at, outputs_of};

// An if-then-else whose condition and then part are written.
#[derive(Clone, Copy)]
pub(crate) struct Link<'a> {
    pub(crate) own: &'a Facts,
    // the place from which on its variables occur
    pub(crate) start: usize,
    pub(crate) span: Span,
}

/// Writes an if-then-else out in its order, and those that are its else part.
///
/// # Errors
///
/// As for `walk`.
#[cycle(walking)]
pub(crate) fn walk_chain(
    setting: &Setting<'_>,
    placed: &PlacedGoal<'_>,
    marks: &mut [bool],
    bound: &mut BoundSet,
    written: &mut Written,
) -> Result<(), Fault>
    requires conditional { IsConditional placed.now.goal.now }
    requires known { length placed.now.facts.now ≡ length (parts_of placed.now.goal.now) }
    requires marked { length marks.old ≡ length (parts_of placed.now.goal.now) }
    requires seen { written.old.seen ≡ [] }
    ensures same { OnOk result (bound.new ≡ bound.old) }
    ensures orders { Orders setting.now.predicates.now placed.now.goal.now placed.now.facts.now setting.now.all.now placed.now.start bound.old written.old written.new result }
    ensures adds { OnOk result (AddsOne written.old written.new) }
{
    let mut links = Vec::new(setting.alloc);
    let mut rest = placed.goal.copy();
    let mut known = placed.facts;
    let mut place = placed.start;
    while let NodeView::Conditional(condition, then_part, else_part) = rest.view() {
        let count = condition.part_count() + then_part.part_count();
        let last = known.len() - 1;
        let own = &known[last];
        let guard = Guard {
            condition: &condition,
            then_part: &then_part,
            facts: &known[..count],
            own,
            start: place,
        };
        let next = walk_guard(setting, &guard, &mut marks[..count], bound, written)?;
        links.push(Link {
            own,
            start: place,
            span: rest.span(),
        })?;
        known = &known[count..last];
        place = next;
        rest = else_part;
    }
    let count = known.len();
    let ending = PlacedGoal {
        goal: &rest,
        facts: known,
        start: place,
    };
    walk(setting, &ending, &mut marks[..count], bound, written)?;
    close_links(setting, links, bound, written)
}

// The condition and the then part of an if-then-else, which are still to be written.
#[derive(Clone, Copy)]
struct Guard<'a> {
    condition: &'a NodeRef<'a>,
    then_part: &'a NodeRef<'a>,
    // what is known of the parts of both
    facts: &'a [Facts],
    // what is known of the if-then-else
    own: &'a Facts,
    // the place from which on the variables of both occur
    start: usize,
}

// Writes the condition and the then part of an if-then-else out. The place behind their variables.
#[cycle(walking)]
fn walk_guard(
    setting: &Setting<'_>,
    guard: &Guard<'_>,
    marks: &mut [bool],
    bound: &mut BoundSet,
    written: &mut Written,
) -> Result<usize, Fault>
    requires known { length guard.now.facts.now ≡ length (parts_of guard.now.condition.now) + length (parts_of guard.now.then_part.now) }
    requires marked { length marks.old ≡ length (parts_of guard.now.condition.now) + length (parts_of guard.now.then_part.now) }
    requires seen { written.old.seen ≡ [] }
    ensures same { OnOk result (bound.new ≡ bound.old) }
    ensures guards { Guards setting.now.predicates.now guard.now.condition.now guard.now.then_part.now guard.now.facts.now guard.now.own.now setting.now.all.now guard.now.start bound.old written.old written.new result }
    ensures adds { OnOk result (AddsTwo written.old written.new) }
{
    let facts = guard.facts;
    let count = guard.condition.part_count();
    let condition = PlacedGoal {
        goal: guard.condition,
        facts: &facts[..count],
        start: guard.start,
    };
    walk(setting, &condition, &mut marks[..count], bound, written)?;
    if !bound.are_bound(guard.own.owed_by_condition.as_slice()) {
        return Err(fault_at(Rule::BindsOuter, guard.condition.span()));
    }
    let last = count - 1;
    let found = &facts[last];
    let behind = setting.all.place_behind(guard.start, found.occurrences);
    let before = bound.mark();
    bound.bind_all(found.binds.as_slice())?;
    let then_part = PlacedGoal {
        goal: guard.then_part,
        facts: &facts[count..],
        start: behind,
    };
    walk(setting, &then_part, &mut marks[count..], bound, written)?;
    bound.undo(before);
    let end = facts.len() - 1;
    let later = &facts[end];
    let next = setting.all.place_behind(behind, later.occurrences);
    Ok(next)
}

// Joins the links of a chain, from the last to the first, with what is their else part.
fn close_links(
    setting: &Setting<'_>,
    mut links: Vec<Link<'_>>,
    bound: &BoundSet,
    written: &mut Written,
) -> Result<(), Fault>
    requires enough { length links.items + length links.items + 1 ≤ length written.old.nodes }
    requires seen { written.old.seen ≡ [] }
    ensures closes { Closes setting.now.predicates.now (reverse links.entry.items) setting.now.all.now bound.now written.old written.new result }
    ensures fewer { OnOk result (length written.new.nodes + length links.entry.items + length links.entry.items ≡ length written.old.nodes) }
    ensures cleared { OnOk result (written.new.seen ≡ []) }
{
    while let Some(link) = links.pop() {
        close_link(setting, link, bound, written)?;
    }
    Ok(())
}

// Joins the condition and the then part of a link with its else part.
fn close_link(
    setting: &Setting<'_>,
    link: Link<'_>,
    bound: &BoundSet,
    written: &mut Written,
) -> Result<(), Fault>
    requires enough { 3 ≤ length written.old.nodes }
    requires seen { written.old.seen ≡ [] }
    ensures closes { ClosesOne setting.now.predicates.now link.entry setting.now.all.now bound.now written.old written.new result }
    ensures fewer { OnOk result (length written.new.nodes + 2 ≡ length written.old.nodes) }
    ensures cleared { OnOk result (written.new.seen ≡ []) }
{
    if !bound.are_bound(link.own.owed.as_slice()) {
        return Err(fault_at(Rule::UnboundOutput, link.span));
    }
    let outputs = outputs_of(
        setting.alloc,
        setting.all,
        link.own,
        link.start,
        bound,
        &mut written.seen,
    )?;
    written.nodes.decide(outputs, link.span)?;
    Ok(())
}

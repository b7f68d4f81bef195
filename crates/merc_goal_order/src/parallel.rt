//! The order of goals side by side, written out.
ghost use Rattle.std.specs.Prelude.{◌≡◌, ◌+◌, ◌≤◌, ◌&&◌, ◌||◌, not, [], length, OnOk, IfOk};
ghost use Rattle.std.specs.List.{list_any};
ghost use Rattle.merc_goal_tree.specs.Nodes.{Parallel, nodes_of};
ghost use Rattle.merc_goal_tree.specs.Parts.{parts_of, all_parts};
ghost use Rattle.merc_goal_tree.specs.Variables.{variables};
ghost use Rattle.merc_order.specs.Bound.{among};
ghost use Rattle.merc_goal_order.specs.Beside.{all_beside, FreedBy, Needs, StuckBeside, TellsReady};
ghost use Rattle.merc_readiness.specs.Sweeps.{Extends};
ghost use Rattle.merc_goal_order.specs.Walking.{Orders};
ghost use Rattle.merc_goal_order.specs.Walks.{AddsOne, Adds, OrdersAll};

use crate::conjuncts::walk_if_ready;
use crate::walking::{PlacedGoal, PlacedGoals, Setting, Whole, clear, walk};
use merc_base::{Fault, NoMemory};
use merc_goal_facts::{BoundSet, Facts, Occurrences, occurrences_of};
use merc_goal_tree::{NodeRef, Var};
use merc_graded_tree::Running;
use merc_readiness::advance;
use merc_simple_goals::{Written, conjunct_fault, outputs_of};

/// Writes goals side by side out in their order.
///
/// # Errors
///
/// As for `walk`.
#[cycle(walking)]
pub(crate) fn walk_parallel(
    setting: &Setting<'_>,
    goals: &[NodeRef<'_>],
    whole: &Whole<'_>,
    marks: &mut [bool],
    bound: &mut BoundSet,
    written: &mut Written,
) -> Result<(), Fault>
    requires known { length whole.now.facts.now ≡ length (all_parts (nodes_of goals.now)) + 1 }
    requires marked { length marks.old ≡ length (all_parts (nodes_of goals.now)) + 1 }
    requires seen { written.old.seen ≡ [] }
    ensures same { OnOk result (bound.new ≡ bound.old) }
    ensures orders { Orders setting.now.predicates.now (Parallel (nodes_of goals.now) whole.now.span) whole.now.facts.now setting.now.all.now whole.now.start bound.old written.old written.new result }
    ensures adds { OnOk result (AddsOne written.old written.new) }
{
    let facts = whole.facts;
    let own = facts.len() - 1;
    let before = written.nodes.len();
    let known = bound.mark();
    let inside = PlacedGoals {
        goals: &*goals,
        facts: &facts[..own],
        start: whole.start,
    };
    walk_conjuncts(setting, &inside, &mut marks[..own], bound, written)?;
    bound.undo(known);
    let outputs = outputs_of(
        setting.alloc,
        setting.all,
        &facts[own],
        whole.start,
        bound,
        &mut written.seen,
    )?;
    let count = written.nodes.len() - before;
    written
        .nodes
        .conjoin(Running::Parallel(None), count, outputs, whole.span)?;
    Ok(())
}

// Writes each of these goals out from what those before it bind, up to one that is not ready.
#[cycle(walking)]
fn walk_conjuncts(
    setting: &Setting<'_>,
    placed: &PlacedGoals<'_>,
    marks: &mut [bool],
    bound: &mut BoundSet,
    written: &mut Written,
) -> Result<(), Fault>
    requires known { length placed.now.facts.now ≡ length (all_parts (nodes_of placed.now.goals.now)) }
    requires marked { length marks.old ≡ length (all_parts (nodes_of placed.now.goals.now)) }
    requires seen { written.old.seen ≡ [] }
    ensures extends { OnOk result (Extends bound.old bound.new) }
    ensures orders { OrdersAll all_beside setting.now.predicates.now (nodes_of placed.now.goals.now) placed.now.facts.now setting.now.all.now placed.now.start bound.old written.old written.new result }
    ensures adds { OnOk result (Adds written.old written.new) }
{
    let goals = placed.goals;
    let facts = placed.facts;
    let mut at = 0;
    let mut place = placed.start;
    for (index, goal) in goals.iter().enumerate() {
        let end = at + goal.part_count();
        let own = end - 1;
        clear(&mut marks[at..end]);
        let one = PlacedGoal {
            goal,
            facts: &facts[at..end],
            start: place,
        };
        if !walk_if_ready(setting, &one, &mut marks[at..end], bound, written)? {
            let waiting = Waiting {
                goal,
                others: &goals[index + 1..],
                facts: &facts[at..],
                start: place,
                number: index + 1,
            };
            return walk_stuck(setting, &waiting, &mut marks[at..], bound, written);
        }
        let found = &facts[own];
        place = setting.all.place_behind(place, found.occurrences);
        at = end;
    }
    Ok(())
}

// A goal of a parallel conjunction that is not ready.
#[derive(Clone, Copy)]
struct Waiting<'a> {
    goal: &'a NodeRef<'a>,
    // the goals that stand behind it
    others: &'a [NodeRef<'a>],
    // what is known of its parts, and behind that of those of the others
    facts: &'a [Facts],
    // the place from which on its variables occur
    start: usize,
    number: usize,
}

// Walks a goal that is not ready, for its fault.
#[cycle(walking)]
fn walk_stuck(
    setting: &Setting<'_>,
    waiting: &Waiting<'_>,
    marks: &mut [bool],
    bound: &mut BoundSet,
    written: &mut Written,
) -> Result<(), Fault>
    requires known { length waiting.now.facts.now ≡ length (parts_of waiting.now.goal.now) + length (all_parts (nodes_of waiting.now.others.now)) }
    requires marked { length marks.old ≡ length (parts_of waiting.now.goal.now) + length (all_parts (nodes_of waiting.now.others.now)) }
    requires seen { written.old.seen ≡ [] }
    requires fits { waiting.now.number + length waiting.now.others.now ≤ 18446744073709551615 }
    ensures same { OnOk result (bound.new ≡ bound.old) }
    ensures tells { StuckBeside setting.now.predicates.now waiting.now.goal.now (nodes_of waiting.now.others.now) waiting.now.facts.now setting.now.all.now waiting.now.start waiting.now.number bound.old result }
    ensures adds { OnOk result (Adds written.old written.new) }
{
    let other = needed_by(setting, waiting, marks, bound)?;
    let facts = waiting.facts;
    let own = waiting.goal.part_count();
    let placed = PlacedGoal {
        goal: waiting.goal,
        facts: &facts[..own],
        start: waiting.start,
    };
    let result = walk(setting, &placed, &mut marks[..own], bound, written);
    match result {
        Ok(()) => Ok(()),
        Err(fault) => match fault {
            Fault::NoMemory => Err(Fault::NoMemory),
            Fault::Refused(refusal) => {
                let told = conjunct_fault(waiting.number, waiting.goal.span(), other, refusal)?;
                Err(Fault::Refused(told))
            }
        },
    }
}

// The number of the first of the others behind which the goal is ready.
fn needed_by(
    setting: &Setting<'_>,
    waiting: &Waiting<'_>,
    marks: &mut [bool],
    bound: &mut BoundSet,
) -> Result<Option<usize>, NoMemory>
    requires known { length waiting.now.facts.now ≡ length (parts_of waiting.now.goal.now) + length (all_parts (nodes_of waiting.now.others.now)) }
    requires marked { length marks.old ≡ length (parts_of waiting.now.goal.now) + length (all_parts (nodes_of waiting.now.others.now)) }
    requires fits { waiting.now.number + length waiting.now.others.now ≤ 18446744073709551615 }
    ensures same { OnOk result (bound.new ≡ bound.old) }
    ensures needs { IfOk result (λ other. Needs setting.now.predicates.now waiting.now.goal.now (nodes_of waiting.now.others.now) waiting.now.facts.now waiting.now.number bound.old other) }
{
    let inside = occurrences_of(setting.alloc, &[], waiting.goal)?;
    first_freeing(setting, waiting, marks, bound, &inside)
}

// The number of the first of the others behind which the goal is ready, in which these variables occur.
fn first_freeing(
    setting: &Setting<'_>,
    waiting: &Waiting<'_>,
    marks: &mut [bool],
    bound: &mut BoundSet,
    inside: &Occurrences,
) -> Result<Option<usize>, NoMemory>
    requires known { length waiting.now.facts.now ≡ length (parts_of waiting.now.goal.now) + length (all_parts (nodes_of waiting.now.others.now)) }
    requires marked { length marks.old ≡ length (parts_of waiting.now.goal.now) + length (all_parts (nodes_of waiting.now.others.now)) }
    requires fits { waiting.now.number + length waiting.now.others.now ≤ 18446744073709551615 }
    requires occurs { inside.now ≡ variables waiting.now.goal.now }
    ensures same { OnOk result (bound.new ≡ bound.old) }
    ensures needs { IfOk result (λ other. Needs setting.now.predicates.now waiting.now.goal.now (nodes_of waiting.now.others.now) waiting.now.facts.now waiting.now.number bound.old other) }
{
    let others = waiting.others;
    let facts = waiting.facts;
    let own = waiting.goal.part_count();
    let ready = is_ready(
        setting,
        waiting.goal,
        &facts[..own],
        &mut marks[..own],
        bound,
    )?;
    let mut at = own;
    for (index, later) in others.iter().enumerate() {
        let end = at + later.part_count();
        if can_free(ready, inside, &facts[end - 1], bound)
            && is_freed_by(setting, waiting, later, at, marks, bound)?
        {
            return Ok(Some(waiting.number + 1 + index));
        }
        at = end;
    }
    Ok(None)
}

// Whether a goal may be ready behind another one, by what is known of both: it is ready already, or the other one binds a
// variable that occurs in it and is not bound.
fn can_free(ready: bool, inside: &Occurrences, later: &Facts, bound: &BoundSet) -> bool
    ensures { result ≡ (ready || list_any (λ variable. not (among bound.now variable) && among inside.now variable) later.now.binds) }
{
    ready || binds_one(later.binds.as_slice(), inside, bound)
}

// Whether one of these variables is not bound and occurs inside.
fn binds_one(variables: &[Var], inside: &Occurrences, bound: &BoundSet) -> bool
    ensures { result ≡ list_any (λ variable. not (among bound.now variable) && among inside.now variable) variables.now }
{
    for variable in variables {
        if !bound.is_bound(*variable) && occurs(inside, *variable) {
            return true;
        }
    }
    false
}

// Whether the variable occurs at all. (Each occurrence lies outside the empty stretch from 0 to 0.)
fn occurs(inside: &Occurrences, variable: Var) -> bool
    ensures { result ≡ among inside.now variable }
{
    inside.is_outside(0, 0, variable)
}

// Whether this one of the others is ready, and the goal is ready behind it. What is known of its parts begins at this index.
fn is_freed_by(
    setting: &Setting<'_>,
    waiting: &Waiting<'_>,
    later: &NodeRef<'_>,
    at: usize,
    marks: &mut [bool],
    bound: &mut BoundSet,
) -> Result<bool, NoMemory>
    requires first { length (parts_of waiting.now.goal.now) ≤ at }
    requires known { at + length (parts_of later.now) ≤ length waiting.now.facts.now }
    requires marked { at + length (parts_of later.now) ≤ length marks.old }
    ensures same { OnOk result (bound.new ≡ bound.old) }
    ensures frees { IfOk result (λ freed. FreedBy setting.now.predicates.now waiting.now.goal.now later.now waiting.now.facts.now at bound.old freed) }
{
    let facts = waiting.facts;
    let end = at + later.part_count();
    if !is_ready(setting, later, &facts[at..end], &mut marks[at..end], bound)? {
        return Ok(false);
    }
    let known = bound.mark();
    let found = &facts[end - 1];
    bound.bind_all(found.binds.as_slice())?;
    let own = waiting.goal.part_count();
    let freed = is_ready(
        setting,
        waiting.goal,
        &facts[..own],
        &mut marks[..own],
        bound,
    )?;
    bound.undo(known);
    Ok(freed)
}

/// Whether a goal is ready from what is bound. Its marks may say anything before.
///
/// # Errors
///
/// As for `advance`.
pub(crate) fn is_ready(
    setting: &Setting<'_>,
    goal: &NodeRef<'_>,
    facts: &[Facts],
    marks: &mut [bool],
    bound: &mut BoundSet,
) -> Result<bool, NoMemory>
    requires known { length facts.now ≡ length (parts_of goal.now) }
    requires marked { length marks.old ≡ length (parts_of goal.now) }
    ensures same { OnOk result (bound.new ≡ bound.old) }
    ensures tells { IfOk result (λ ready. TellsReady setting.now.predicates.now goal.now facts.now bound.old ready) }
{
    clear(marks);
    advance(setting.alloc, setting.predicates, goal, facts, marks, bound)
}

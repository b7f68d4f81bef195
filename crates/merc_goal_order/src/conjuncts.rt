//! The order of goals in sequence, written out.
ghost use Rattle.std.specs.Prelude.{◌≡◌, ◌+◌, ◌≤◌, [], length, OnOk};
ghost use Rattle.merc_goal_tree.specs.Nodes.{Conjunction, nodes_of};
ghost use Rattle.merc_goal_tree.specs.Parts.{parts_of, all_parts};
ghost use Rattle.merc_goal_order.specs.Agenda.{IsSound, StandAt};
ghost use Rattle.merc_goal_order.specs.Conjuncts.{MayGo, FirstTells, AsksOn, NextOn};
ghost use Rattle.merc_readiness.specs.Sweeps.{Extends};
ghost use Rattle.merc_goal_order.specs.Walking.{Orders};
ghost use Rattle.merc_goal_order.specs.Walks.{AddsOne, Adds, OrdersAll, all_settled};
ghost use Rattle.merc_goal_order.specs.Watching.{KeepsWatchAt, KeepsWatches};

use crate::agenda::{Agenda, Start};
use crate::walking::{PlacedGoal, PlacedGoals, Setting, Whole, clear, walk};
use crate::watching::Watches;
use merc_base::Fault;
use merc_goal_facts::{BoundSet, Facts};
use merc_goal_tree::NodeRef;
use merc_graded_tree::Running;
use merc_readiness::advance;
use merc_simple_goals::{Written, outputs_of};

/// Writes a conjunction of these goals out in its order: of those that are left the leftmost that is ready goes next.
///
/// # Errors
///
/// As for `walk`.
#[cycle(walking)]
pub(crate) fn walk_conjunction(
    setting: &Setting<'_>,
    goals: &[NodeRef<'_>],
    whole: &Whole<'_>,
    marks: &mut [bool],
    bound: &mut BoundSet,
    written: &mut Written,
) -> Result<(), Fault>
    requires known { length whole.now.facts.now ≡ length (all_parts (nodes_of goals.now)) + 1 }
    requires marked { length marks.old ≡ length (all_parts (nodes_of goals.now)) + 1 }
    requires seen { written.old.seen ≡ [] }
    ensures same { OnOk result (bound.new ≡ bound.old) }
    ensures orders { Orders setting.now.predicates.now (Conjunction (nodes_of goals.now) whole.now.span) whole.now.facts.now setting.now.all.now whole.now.start bound.old written.old written.new result }
    ensures adds { OnOk result (AddsOne written.old written.new) }
{
    let facts = whole.facts;
    let own = facts.len() - 1;
    let before = written.nodes.len();
    let known = bound.mark();
    let inside = PlacedGoals {
        goals: &*goals,
        facts: &facts[..own],
        start: whole.start,
    };
    walk_rounds(setting, &inside, &mut marks[..own], bound, written)?;
    bound.undo(known);
    let outputs = outputs_of(
        setting.alloc,
        setting.all,
        &facts[own],
        whole.start,
        bound,
        &mut written.seen,
    )?;
    let count = written.nodes.len() - before;
    written
        .nodes
        .conjoin(Running::Sequential, count, outputs, whole.span)?;
    Ok(())
}

// Writes the goals out. In each round the goals that are to be asked are asked from the left, up to one that is ready, which
// goes. Once one goal is left, or none is ready, the first that is left is walked: it is written out, or its fault is told.
#[cycle(walking)]
fn walk_rounds(
    setting: &Setting<'_>,
    placed: &PlacedGoals<'_>,
    marks: &mut [bool],
    bound: &mut BoundSet,
    written: &mut Written,
) -> Result<(), Fault>
    requires known { length placed.now.facts.now ≡ length (all_parts (nodes_of placed.now.goals.now)) }
    requires marked { length marks.old ≡ length (all_parts (nodes_of placed.now.goals.now)) }
    requires seen { written.old.seen ≡ [] }
    ensures extends { OnOk result (Extends bound.old bound.new) }
    ensures orders { OrdersAll all_settled setting.now.predicates.now (nodes_of placed.now.goals.now) placed.now.facts.now setting.now.all.now placed.now.start bound.old written.old written.new result }
    ensures adds { OnOk result (Adds written.old written.new) }
{
    clear(marks);
    let mut agenda = Agenda::of(
        setting.alloc,
        setting.all,
        placed.goals,
        placed.facts,
        placed.start,
    )?;
    let mut watches = Watches::new(setting.alloc);
    for _round in 1..placed.goals.len() {
        if !walk_next(
            setting,
            placed,
            &mut agenda,
            &mut watches,
            marks,
            bound,
            written,
        )? {
            break;
        }
    }
    walk_first_left(setting, placed, marks, bound, written)
}

// Asks the goals that are to be asked, from the left up to one that is ready, which goes. False where none is ready.
#[cycle(walking)]
fn walk_next(
    setting: &Setting<'_>,
    placed: &PlacedGoals<'_>,
    agenda: &mut Agenda,
    watches: &mut Watches,
    marks: &mut [bool],
    bound: &mut BoundSet,
    written: &mut Written,
) -> Result<bool, Fault>
    requires known { length placed.now.facts.now ≡ length (all_parts (nodes_of placed.now.goals.now)) }
    requires marked { length marks.old ≡ length (all_parts (nodes_of placed.now.goals.now)) }
    requires seen { written.old.seen ≡ [] }
    requires sound { IsSound agenda.old }
    requires stands { StandAt placed.now.goals.now agenda.old.starts.items }
    ensures extends { OnOk result (Extends bound.old bound.new) }
    ensures sound { OnOk result (IsSound agenda.new) }
    ensures starts { OnOk result (agenda.new.starts ≡ agenda.old.starts) }
    ensures watches { OnOk result (KeepsWatches setting.now.predicates.now placed.now.goals.now placed.now.facts.now watches.old.variables.items watches.new.variables.items) }
    ensures next { NextOn setting.now.predicates.now placed.now.goals.now placed.now.facts.now setting.now.all.now agenda.old agenda.new watches.old.variables.items marks.old marks.new bound.old bound.new written.old written.new result }
    ensures adds { OnOk result (Adds written.old written.new) }
{
    let goals = placed.goals;
    while let Some(index) = agenda.take() {
        let here = agenda.start(index);
        let member = Member {
            goal: &goals[index],
            facts: placed.facts,
            index,
            here,
        };
        let known = bound.mark();
        if walk_member(setting, &member, watches, marks, bound, written)? {
            agenda.await_all(setting.all, index, bound.since(known))?;
            return Ok(true);
        }
    }
    Ok(false)
}

// A goal of a conjunction.
#[derive(Clone, Copy)]
struct Member<'a> {
    goal: &'a NodeRef<'a>,
    // what is known of the parts of all goals of the conjunction
    facts: &'a [Facts],
    index: usize,
    // where it begins
    here: Start,
}

// Asks a goal, unless it went or surely is not ready, and writes it out if it is ready. Whether it goes now.
#[cycle(walking)]
fn walk_member(
    setting: &Setting<'_>,
    member: &Member<'_>,
    watches: &mut Watches,
    marks: &mut [bool],
    bound: &mut BoundSet,
    written: &mut Written,
) -> Result<bool, Fault>
    requires known { member.now.here.at + length (parts_of member.now.goal.now) ≤ length member.now.facts.now }
    requires marked { member.now.here.at + length (parts_of member.now.goal.now) ≤ length marks.old }
    requires seen { written.old.seen ≡ [] }
    ensures extends { OnOk result (Extends bound.old bound.new) }
    ensures watches { OnOk result (KeepsWatchAt setting.now.predicates.now member.now.goal.now member.now.facts.now member.now.here.at member.now.index watches.old.variables.items watches.new.variables.items) }
    ensures asks { AsksOn setting.now.predicates.now member.now.goal.now member.now.facts.now setting.now.all.now member.now.here member.now.index watches.old.variables.items marks.old marks.new bound.old bound.new written.old written.new result }
    ensures adds { OnOk result (Adds written.old written.new) }
{
    let here = member.here;
    let end = here.at + member.goal.part_count();
    let own = end - 1;
    if marks[own] {
        return Ok(false);
    }
    if watches.is_shut(member.index, bound) {
        return Ok(false);
    }
    let placed = PlacedGoal {
        goal: member.goal,
        facts: &member.facts[here.at..end],
        start: here.place,
    };
    if walk_if_ready(setting, &placed, &mut marks[here.at..end], bound, written)? {
        return Ok(true);
    }
    watches.watch(setting, &placed, member.index, bound)?;
    Ok(false)
}

// Writes a goal out if it is ready, and binds what it binds.
#[cycle(walking)]
pub(crate) fn walk_if_ready(
    setting: &Setting<'_>,
    placed: &PlacedGoal<'_>,
    marks: &mut [bool],
    bound: &mut BoundSet,
    written: &mut Written,
) -> Result<bool, Fault>
    requires known { length placed.now.facts.now ≡ length (parts_of placed.now.goal.now) }
    requires marked { length marks.old ≡ length (parts_of placed.now.goal.now) }
    requires seen { written.old.seen ≡ [] }
    ensures extends { OnOk result (Extends bound.old bound.new) }
    ensures goes { MayGo setting.now.predicates.now placed.now.goal.now placed.now.facts.now setting.now.all.now placed.now.start marks.old marks.new bound.old bound.new written.old written.new result }
    ensures adds { OnOk result (Adds written.old written.new) }
{
    let facts = placed.facts;
    if !advance(
        setting.alloc,
        setting.predicates,
        placed.goal,
        facts,
        marks,
        bound,
    )? {
        return Ok(false);
    }
    walk(setting, placed, marks, bound, written)?;
    let own = placed.goal.part_count() - 1;
    marks[own] = true;
    let found = &facts[own];
    bound.bind_all(found.binds.as_slice())?;
    Ok(true)
}

// Walks the first goal that is left: it is written out, or its fault is told.
#[cycle(walking)]
fn walk_first_left(
    setting: &Setting<'_>,
    placed: &PlacedGoals<'_>,
    marks: &mut [bool],
    bound: &mut BoundSet,
    written: &mut Written,
) -> Result<(), Fault>
    requires known { length placed.now.facts.now ≡ length (all_parts (nodes_of placed.now.goals.now)) }
    requires marked { length marks.old ≡ length (all_parts (nodes_of placed.now.goals.now)) }
    requires seen { written.old.seen ≡ [] }
    ensures same { OnOk result (bound.new ≡ bound.old) }
    ensures tells { FirstTells setting.now.predicates.now (nodes_of placed.now.goals.now) placed.now.facts.now setting.now.all.now placed.now.start marks.old bound.old written.old written.new result }
    ensures adds { OnOk result (Adds written.old written.new) }
{
    let facts = placed.facts;
    let mut at = 0;
    let mut place = placed.start;
    for goal in placed.goals {
        let end = at + goal.part_count();
        let own = end - 1;
        if !marks[own] {
            let one = PlacedGoal {
                goal,
                facts: &facts[at..end],
                start: place,
            };
            return walk(setting, &one, &mut marks[at..end], bound, written);
        }
        let found = &facts[own];
        place = setting.all.place_behind(place, found.occurrences);
        at = end;
    }
    Ok(())
}

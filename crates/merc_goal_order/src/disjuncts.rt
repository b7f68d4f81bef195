//! The order of disjunctions, written out.
ghost use Rattle.std.specs.Prelude.{◌≡◌, ◌+◌, [], length, OnOk};
ghost use Rattle.merc_goal_tree.specs.Nodes.{Disjunction, nodes_of};
ghost use Rattle.merc_goal_tree.specs.Parts.{all_parts};
ghost use Rattle.merc_order.specs.Moves.{each_from};
ghost use Rattle.merc_goal_order.specs.Walking.{Orders};
ghost use Rattle.merc_goal_order.specs.Walks.{AddsOne, Adds, OrdersAll};

use crate::walking::{PlacedGoal, PlacedGoals, Setting, Whole, walk};
use merc_base::{Fault, Rule};
use merc_goal_facts::BoundSet;
use merc_goal_tree::NodeRef;
use merc_simple_goals::{Written, fault_at, outputs_of};

/// Writes a disjunction of these goals out in its order.
///
/// # Errors
///
/// As for `walk`.
#[cycle(walking)]
pub(crate) fn walk_disjunction(
    setting: &Setting<'_>,
    arms: &[NodeRef<'_>],
    whole: &Whole<'_>,
    marks: &mut [bool],
    bound: &mut BoundSet,
    written: &mut Written,
) -> Result<(), Fault>
    requires known { length whole.now.facts.now ≡ length (all_parts (nodes_of arms.now)) + 1 }
    requires marked { length marks.old ≡ length (all_parts (nodes_of arms.now)) + 1 }
    requires seen { written.old.seen ≡ [] }
    ensures same { OnOk result (bound.new ≡ bound.old) }
    ensures orders { Orders setting.now.predicates.now (Disjunction (nodes_of arms.now) whole.now.span) whole.now.facts.now setting.now.all.now whole.now.start bound.old written.old written.new result }
    ensures adds { OnOk result (AddsOne written.old written.new) }
{
    let facts = whole.facts;
    let own = facts.len() - 1;
    let before = written.nodes.len();
    let inside = PlacedGoals {
        goals: &*arms,
        facts: &facts[..own],
        start: whole.start,
    };
    walk_arms(setting, &inside, &mut marks[..own], bound, written)?;
    let found = &facts[own];
    if !bound.are_bound(found.owed.as_slice()) {
        return Err(fault_at(Rule::UnboundOutput, whole.span));
    }
    let outputs = outputs_of(
        setting.alloc,
        setting.all,
        found,
        whole.start,
        bound,
        &mut written.seen,
    )?;
    let count = written.nodes.len() - before;
    written.nodes.disjoin(count, outputs, whole.span)?;
    Ok(())
}

// Writes each of these goals out from what is bound.
#[cycle(walking)]
fn walk_arms(
    setting: &Setting<'_>,
    placed: &PlacedGoals<'_>,
    marks: &mut [bool],
    bound: &mut BoundSet,
    written: &mut Written,
) -> Result<(), Fault>
    requires known { length placed.now.facts.now ≡ length (all_parts (nodes_of placed.now.goals.now)) }
    requires marked { length marks.old ≡ length (all_parts (nodes_of placed.now.goals.now)) }
    requires seen { written.old.seen ≡ [] }
    ensures same { OnOk result (bound.new ≡ bound.old) }
    ensures orders { OrdersAll each_from setting.now.predicates.now (nodes_of placed.now.goals.now) placed.now.facts.now setting.now.all.now placed.now.start bound.old written.old written.new result }
    ensures adds { OnOk result (Adds written.old written.new) }
{
    let facts = placed.facts;
    let mut at = 0;
    let mut place = placed.start;
    for arm in placed.goals {
        let end = at + arm.part_count();
        let own = end - 1;
        let one = PlacedGoal {
            goal: arm,
            facts: &facts[at..end],
            start: place,
        };
        walk(setting, &one, &mut marks[at..end], bound, written)?;
        let found = &facts[own];
        place = setting.all.place_behind(place, found.occurrences);
        at = end;
    }
    Ok(())
}

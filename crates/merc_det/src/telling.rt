//! What goals tell of variables where one of them has no solution.
ghost use Rattle.std.specs.Prelude.{◌≡◌, ◌≤◌, [], ◌∷◌, ◌++◌, length, if◌then◌else◌, OnOk};
ghost use Rattle.merc_graded_tree.specs.Nodes.{goal_of, nodes_of};
ghost use Rattle.merc_graded_tree.specs.Roots.{root_of};
ghost use Rattle.merc_det.specs.Closing.{known_behind_root};
ghost use Rattle.merc_det.specs.Seen.{back_to};
ghost use Rattle.merc_det.specs.Tasks.{inner_tells, last_has_none, tell_tasks};
ghost use Rattle.merc_det.specs.declared.planning.Task.{Task};
ghost use Rattle.merc_det.specs.declared.planning.Task.TheVariants.{Tell};

use crate::basics::learn_from;
use crate::folding::category_at;
use crate::planning::{Task, leave};
use crate::seen::SeenSymbols;
use merc_base::{Most, NoMemory};
use merc_graded_tree::{NodeRef, NodeView, Nodes, Parts};

/// Forgets what became known behind the first so many symbols, if the last goal has no solution.
pub(crate) fn withhold(count: usize, seen: &mut SeenSymbols, graded: &Nodes)
    requires { 1 ≤ length graded.now }
    ensures { seen.new ≡ (if last_has_none graded.now then back_to count seen.old else seen.old) }
{
    if last_has_none(graded) {
        seen.forget(count);
    }
}

/// Leaves it to be done that what the goal tells is known, if the last goal has no solution.
///
/// # Errors
///
/// `NoMemory` where memory was refused.
pub(crate) fn recall<'a>(
    goal: NodeRef<'a>,
    graded: &Nodes,
    tasks: &mut Vec<Task<'a>>,
) -> Result<(), NoMemory>
    requires { 1 ≤ length graded.now }
    ensures { OnOk result (tasks.new.items ≡ tasks.old.items ++ (if last_has_none graded.now then Tell goal.entry ∷ [] else [])) }
{
    if last_has_none(graded) {
        leave(Task::Tell(goal), tasks)
    } else {
        Ok(())
    }
}

/// What the goal tells is known, once the tasks that are left are done.
///
/// # Errors
///
/// `NoMemory` where memory was refused.
pub(crate) fn tell<'a>(
    goal: NodeRef<'a>,
    seen: &mut SeenSymbols,
    tasks: &mut Vec<Task<'a>>,
) -> Result<(), NoMemory>
    ensures known { OnOk result (seen.new ≡ known_behind_root (root_of (goal_of goal.entry)) seen.old) }
    ensures tasks { OnOk result (tasks.new.items ≡ tasks.old.items ++ inner_tells (goal_of goal.entry)) }
{
    match goal.view() {
        NodeView::Basic(basic) => learn_from(basic, seen),
        NodeView::Conjunction(_, goals) => tell_in_turn(goals, tasks),
        NodeView::Quantified(_, inner) => leave(Task::Tell(inner), tasks),
        NodeView::Disjunction(_)
        | NodeView::Switch(_, _, _)
        | NodeView::Conditional(_, _, _)
        | NodeView::Negation(_) => Ok(()),
    }
}

fn tell_in_turn<'a>(goals: Parts<'a>, tasks: &mut Vec<Task<'a>>) -> Result<(), NoMemory>
    ensures { OnOk result (tasks.new.items ≡ tasks.old.items ++ tell_tasks (nodes_of goals.entry)) }
{
    let mut left = goals;
    while let Some(last) = left.take_last() {
        leave(Task::Tell(last), tasks)?;
    }
    Ok(())
}

// Whether the last goal has no solution.
fn last_has_none(graded: &Nodes) -> bool
    requires { 1 ≤ length graded.now }
    ensures { result ≡ last_has_none graded.now }
{
    let category = category_at(graded, graded.len() - 1);
    match category.most() {
        Most::Zero => true,
        Most::One | Most::Many => false,
    }
}

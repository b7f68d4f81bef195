//! Switches are found in a goal.
ghost use Rattle.std.specs.Prelude.{◌≡◌, ℕ, [], ◌∷◌, ◌++◌, length, IfOk, OnOk};
ghost use Rattle.merc_tree.specs.Types.{TypeExpr};
ghost use Rattle.merc_order.specs.Bound.{among};
ghost use Rattle.merc_order.specs.Procedures.{bound_at};
ghost use Rattle.merc_grading.specs.Fitting.{Fits};
ghost use Rattle.merc_grading.specs.Switches.{find};
ghost use Rattle.merc_switch.specs.Tasks.{HaveEnough, Performs};

use crate::copying::put_copy;
use crate::judging::judge;
use crate::planning::plan_goal;
use crate::tasks::{Task, Tasks};
use merc_base::NoMemory;
use merc_graded_tree::{NodeRef, Nodes};
use merc_name_resolution::Known;
use merc_switch_choice::{VarSet, bound_inputs};
use merc_tree::Arg;
use std::alloc::Global;

/// Puts the goal behind the others, with each of its disjunctions that can be one as a switch. Bound before the goal are
/// the arguments that a mode with these inputs has bound. The rule stands in docs/LANGUAGE.md, in the section on switches.
/// It holds where the symbols in the goal fit the types of their variables.
///
/// # Errors
///
/// `NoMemory` where memory was refused.
pub fn find_switches(
    alloc: Global,
    known: &Known<'_>,
    inputs: &[Arg],
    goal: &NodeRef<'_>,
    found: &mut Nodes,
) -> Result<(), NoMemory>
    ensures { IfOk result (λ done. (types : ℕ → TypeExpr) → Fits known.now.types types goal.now → found.new ≡ found.old ++ find known.now.types types (bound_at inputs.now) goal.now ∷ []) }
{
    let mut bound = bound_inputs(alloc, inputs)?;
    let mut tasks = Tasks::new(alloc);
    let done = find_from(alloc, known, goal, &mut tasks, &mut bound, found);
    // (calls, since it costs much to prove what is dropped here)
    drop(tasks);
    drop(bound);
    done
}

// Puts the goal with its switches behind the others, from what is bound before it. There are no tasks before.
fn find_from<'a>(
    alloc: Global,
    known: &Known<'_>,
    goal: &NodeRef<'a>,
    tasks: &mut Tasks<'a>,
    bound: &mut VarSet,
    found: &mut Nodes,
) -> Result<(), NoMemory>
    requires { tasks.old ≡ [] }
    ensures { IfOk result (λ done. (types : ℕ → TypeExpr) → Fits known.now.types types goal.now → found.new ≡ found.old ++ find known.now.types types (among bound.old) goal.now ∷ []) }
{
    tasks.push(Task::Find(goal.copy()))?;
    while let Some(task) = tasks.pop() {
        perform(alloc, known, task, tasks, bound, found)?;
    }
    Ok(())
}

// Does one task, or plans it as others.
fn perform<'a>(
    alloc: Global,
    known: &Known<'_>,
    task: Task<'a>,
    tasks: &mut Tasks<'a>,
    bound: &mut VarSet,
    found: &mut Nodes,
) -> Result<(), NoMemory>
    requires { HaveEnough (length found.old) (task ∷ tasks.old) }
    ensures { OnOk result (Performs known.now.types (task.entry ∷ tasks.old) found.old bound.old tasks.new found.new bound.new) }
{
    match task {
        Task::Find(goal) => plan_goal(alloc, &goal, bound.len(), tasks),
        Task::Keep(goal) => put_copy(alloc, &goal, found),
        Task::Bind(goal) => bound.add_all(goal.outputs().as_slice()),
        Task::Unbind(mark) => {
            bound.truncate(mark);
            Ok(())
        }
        Task::Judge(group) => judge(alloc, known, bound, group, tasks),
        Task::Close(label) => found.put(label),
    }
}

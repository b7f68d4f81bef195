//! Ordered goals with their categories.
ghost use Rattle.std.specs.Prelude.{◌≡◌, ◌<◌, ℕ, [], ◌∷◌, ◌++◌, length, OnOk};
ghost use Rattle.merc_tree.specs.Types.{TypeExpr};
ghost use Rattle.merc_order.specs.Procedures.{modes_of};
ghost use Rattle.merc_grading.specs.Fitting.{Fits};
ghost use Rattle.merc_grading.specs.Grading.{graded};
ghost use Rattle.merc_det.specs.Tasks.{all_turns, AreEnough, Keeps};

use crate::closing::close;
use crate::planning::{Task, leave, plan, plan_beside};
use crate::seen::SeenSymbols;
use crate::telling::{recall, tell, withhold};
use merc_base::NoMemory;
use merc_graded_tree::{NodeRef, Nodes};
use merc_name_resolution::Known;
use std::alloc::Global;

/// Puts the goal with the category of each of its parts behind the others. The goal has its switches, and the variables
/// of its splits and switches are of the types to which their symbols belong; of any other goal nothing is said but that
/// it ends.
///
/// The category of a part comes from the categories of the goals that it joins and, for a split, from the symbol that is
/// known of its variable: docs/LANGUAGE.md, “Determinism categories”. This takes time of the order of n log n, with n the
/// number of the goal's parts and of the variables in them, and the greatest number of a variable; of parallel conjunctions
/// that have no solution, the conjuncts are gone through once more.
///
/// # Errors
///
/// `NoMemory` where memory was refused.
pub fn grade(
    alloc: Global,
    known: &Known<'_>,
    goal: &NodeRef<'_>,
    nodes: &mut Nodes,
) -> Result<(), NoMemory>
    ensures { OnOk result ((types : ℕ → TypeExpr) → Fits known.now.types types goal.now → nodes.new ≡ nodes.old ++ graded known.now.types (modes_of known.now.preds) types [] goal.now ∷ []) }
{
    let mut seen = SeenSymbols::new(alloc);
    let mut tasks = Vec::new(alloc);
    let done = grade_from(alloc, known, goal, &mut tasks, &mut seen, nodes);
    // (calls, since it costs much to prove what is dropped here)
    drop(tasks);
    drop(seen);
    done
}

// Grades the goal as `grade` does, from what is known before it. The list of tasks is empty, and lent so that what is left in
// it is dropped by a call.
fn grade_from<'a>(
    alloc: Global,
    known: &Known<'_>,
    goal: &NodeRef<'a>,
    tasks: &mut Vec<Task<'a>>,
    seen: &mut SeenSymbols,
    nodes: &mut Nodes,
) -> Result<(), NoMemory>
    requires { tasks.old.items ≡ [] }
    ensures { OnOk result ((types : ℕ → TypeExpr) → Fits known.now.types types goal.now → nodes.new ≡ nodes.old ++ graded known.now.types (modes_of known.now.preds) types seen.old goal.now ∷ []) }
{
    leave(Task::Grade(goal.copy()), tasks)?;
    while let Some(task) = tasks.pop() {
        perform(alloc, known, task, tasks, seen, nodes)?;
    }
    Ok(())
}

// Does one task. It may leave others to be done.
fn perform<'a>(
    alloc: Global,
    known: &Known<'_>,
    task: Task<'a>,
    tasks: &mut Vec<Task<'a>>,
    seen: &mut SeenSymbols,
    nodes: &mut Nodes,
) -> Result<(), NoMemory>
    requires { AreEnough (tasks.old.items ++ task ∷ []) (length nodes.old) }
    ensures same { OnOk result ((types : ℕ → TypeExpr) → Keeps known.now.types (modes_of known.now.preds) types (tasks.old.items ++ task.entry ∷ []) (record { goals = nodes.old; known = seen.old }) tasks.new.items (record { goals = nodes.new; known = seen.new })) }
    ensures enough { OnOk result (AreEnough tasks.new.items (length nodes.new)) }
    ensures fewer { OnOk result (all_turns tasks.new.items < all_turns (tasks.old.items ++ task.entry ∷ [])) }
{
    match task {
        Task::Grade(goal) => plan(goal, seen.len(), tasks),
        Task::Beside(goal) => plan_beside(goal, seen.len(), tasks),
        Task::Withhold(length) => {
            withhold(length, seen, nodes);
            Ok(())
        }
        Task::Recall(goal) => recall(goal, nodes, tasks),
        Task::Tell(goal) => tell(goal, seen, tasks),
        Task::Learn(variable, symbol) => seen.learn(variable, symbol),
        Task::Forget(length) => {
            seen.forget(length);
            Ok(())
        }
        Task::Close(goal) => close(alloc, known, &goal, seen, nodes),
    }
}

//! The split trees of goals.
ghost use Rattle.std.specs.Prelude.{◌≡◌, [], ◌∷◌, ◌++◌, length, map, IfOk, OnOk};
ghost use Rattle.std.specs.Prelude.{Some};
ghost use Rattle.merc_graded_tree.specs.Nodes.{node, Basic};
ghost use Rattle.merc_base.specs.declared.category.Category.{Category};
ghost use Rattle.merc_rights.specs.Rights.{signal_at, wait_at};
ghost use Rattle.merc_par_split.specs.Sites.{sites as planned_sites};
ghost use Rattle.merc_par_split.specs.Split.{split};
ghost use Rattle.merc_par_split.specs.Tasks.{after_all, AllLie, HaveEnough, LiesTask, Performs};
ghost use Rattle.merc_par_split.specs.declared.tasks.Task.{Task};

use crate::placing::{enter, place, without_rights};
use crate::tasks::{Task, Tasks};
use merc_base::{Category, NoMemory, Sequence, Span};
use merc_graded_tree::{BasicGoal, Label, NodeRef, Nodes, Root};
use merc_rights::{Occurrences, Right, Signals, SiteInfo};
use std::alloc::Global;

/// Puts the split tree of a goal behind the others, and its sites behind the others. The parallel conjunctions of the goal
/// have the sites from the number of those before on, in the order of the text.
///
/// Where waits and signals stand: docs/LANGUAGE.md, “Parallel conjunction”. With n the number of the goal's parts and of the
/// variables in them, and for each variable that conjuncts hand on the number of goals through which its waits and signals go,
/// this takes time of the order of their sum times log n.
///
/// # Errors
///
/// `NoMemory` where memory was refused.
pub fn split(
    alloc: Global,
    goal: &NodeRef<'_>,
    nodes: &mut Nodes,
    sites: &mut Vec<SiteInfo>,
) -> Result<(), NoMemory>
    ensures tree { OnOk result (nodes.new ≡ nodes.old ++ split (length sites.old.items) goal.now ∷ []) }
    ensures sites { OnOk result (sites.new.items ≡ sites.old.items ++ planned_sites goal.now) }
{
    let occurrences = Occurrences::of(alloc, goal)?;
    let mut tasks = first_tasks(alloc, goal)?;
    perform_all(alloc, &occurrences, &mut tasks, nodes, sites)
}

// What is to be done for a goal that is in no conjunct.
fn first_tasks<'a>(alloc: Global, goal: &NodeRef<'a>) -> Result<Tasks<'a>, NoMemory>
    ensures { IfOk result (λ tasks. tasks ≡ Task.Place (record { goal = goal.now; first = 0; waits = []; signals = [] }) ∷ []) }
{
    let mut tasks = Tasks::new(alloc);
    tasks.push(without_rights(alloc, goal.copy(), 0))?;
    Ok(tasks)
}

// Does all tasks.
fn perform_all<'a>(
    alloc: Global,
    occurrences: &Occurrences<'_>,
    tasks: &mut Tasks<'a>,
    nodes: &mut Nodes,
    sites: &mut Vec<SiteInfo>,
) -> Result<(), NoMemory>
    requires lie { AllLie occurrences.now tasks.old }
    requires enough { HaveEnough (length nodes.old) tasks.old }
    ensures { OnOk result (after_all tasks.old (record { goals = nodes.old; sites = sites.old.items }) ≡ record { goals = nodes.new; sites = sites.new.items }) }
{
    while let Some(task) = tasks.pop() {
        perform(alloc, occurrences, task, tasks, nodes, sites)?;
    }
    Ok(())
}

// Does one task. It may leave others to be done.
fn perform<'a>(
    alloc: Global,
    occurrences: &Occurrences<'_>,
    task: Task<'a>,
    tasks: &mut Tasks<'a>,
    nodes: &mut Nodes,
    sites: &mut Vec<SiteInfo>,
) -> Result<(), NoMemory>
    requires lies { LiesTask occurrences.now task }
    requires enough { HaveEnough (length nodes.old) (task ∷ tasks.old) }
    ensures { OnOk result (Performs occurrences.now task.entry tasks.old (record { goals = nodes.old; sites = sites.old.items }) tasks.new (record { goals = nodes.new; sites = sites.new.items })) }
{
    match task {
        Task::Place(placing) => place(alloc, placing, tasks),
        Task::Enter(placing) => enter(alloc, occurrences, placing, tasks, sites),
        Task::Waits(rights, span) => put_waits(alloc, rights.as_slice(), span, nodes),
        Task::Signals(signals, span) => put_signals(alloc, signals, span, nodes),
        Task::Close(label) => nodes.put(label),
    }
}

// Puts waits behind the others.
fn put_waits(alloc: Global, rights: &[Right], span: Span, nodes: &mut Nodes) -> Result<(), NoMemory>
    ensures { OnOk result (nodes.new ≡ nodes.old ++ map (wait_at span) rights.now) }
{
    for right in rights {
        let goal = BasicGoal::Wait(right.variable, right.conjunct);
        put_basic(alloc, goal, span, nodes)?;
    }
    Ok(())
}

// Puts signals behind the others.
fn put_signals(
    alloc: Global,
    signals: Signals,
    span: Span,
    nodes: &mut Nodes,
) -> Result<(), NoMemory>
    ensures { OnOk result (nodes.new ≡ nodes.old ++ map (signal_at span) signals) }
{
    let rights = signals.listed(alloc)?;
    for right in rights.as_slice() {
        let goal = BasicGoal::Signal(right.variable, right.conjunct);
        put_basic(alloc, goal, span, nodes)?;
    }
    Ok(())
}

// Puts a goal that is det, without outputs.
fn put_basic(alloc: Global, goal: BasicGoal, span: Span, nodes: &mut Nodes) -> Result<(), NoMemory>
    ensures { OnOk result (nodes.new ≡ nodes.old ++ node (Basic goal) [] (Some Category.Det) span ∷ []) }
{
    nodes.put(Label {
        root: Root::Basic(goal),
        outputs: Sequence::new(alloc),
        category: Some(Category::Det),
        span,
    })
}

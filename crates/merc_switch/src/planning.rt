//! How a goal is taken apart into tasks.
ghost use Rattle.std.specs.Prelude.{◌≡◌, ◌∷◌, ◌++◌, length, IfOk, OnOk};
ghost use Rattle.merc_grading.specs.Switches.{split_variables};
ghost use Rattle.merc_switch.specs.Plans.{plan, in_turn, disjoined, decided};

use crate::copying::label_with;
use crate::selection::Selection;
use crate::tasks::{Group, Task, Tasks};
use crate::whole::Whole;
use merc_base::NoMemory;
use merc_graded_tree::{Label, NodeRef, NodeView, Parts, Root};
use merc_switch_choice::{Disjunct, Disjuncts, VarSet};
use std::alloc::Global;

/// Plans the search in a goal, where so many variables are bound.
///
/// # Errors
///
/// `NoMemory` where memory was refused, here and in the calls below.
pub(crate) fn plan_goal<'a>(
    alloc: Global,
    goal: &NodeRef<'a>,
    mark: usize,
    tasks: &mut Tasks<'a>,
) -> Result<(), NoMemory>
    ensures { OnOk result (tasks.new ≡ plan mark goal.now ++ tasks.old) }
{
    match goal.view() {
        NodeView::Basic(_) => tasks.push(Task::Keep(goal.copy())),
        NodeView::Switch(_, _, _) => tasks.push(Task::Keep(goal.copy())),
        NodeView::Conjunction(running, goals) => {
            let root = Root::Conjunction(running, goals.len());
            let label = label_with(alloc, goal, root)?;
            tasks.push(Task::Close(label))?;
            plan_conjuncts(goals, mark, tasks)
        }
        NodeView::Disjunction(goals) => plan_disjunction(alloc, goal, goals, tasks),
        NodeView::Conditional(condition, then_part, else_part) => {
            let label = label_with(alloc, goal, Root::Conditional)?;
            plan_decision(label, condition, then_part, else_part, mark, tasks)
        }
        NodeView::Negation(inner) => {
            let label = label_with(alloc, goal, Root::Negation)?;
            plan_one(label, inner, tasks)
        }
        NodeView::Quantified(own, inner) => {
            let own = own.try_clone(alloc)?;
            let label = label_with(alloc, goal, Root::Quantified(own))?;
            plan_one(label, inner, tasks)
        }
    }
}

// Goals one after the other.
fn plan_conjuncts<'a>(goals: Parts<'a>, mark: usize, tasks: &mut Tasks<'a>) -> Result<(), NoMemory>
    ensures { OnOk result (tasks.new ≡ in_turn mark goals.entry ++ tasks.old) }
{
    let mut goals = goals;
    tasks.push(Task::Unbind(mark))?;
    while let Some(last) = goals.take_last() {
        tasks.push(Task::Bind(last.copy()))?;
        tasks.push(Task::Find(last))?;
    }
    Ok(())
}

// A goal that joins three, and has this label.
fn plan_decision<'a>(
    label: Label,
    condition: NodeRef<'a>,
    then_part: NodeRef<'a>,
    else_part: NodeRef<'a>,
    mark: usize,
    tasks: &mut Tasks<'a>,
) -> Result<(), NoMemory>
    ensures { OnOk result (tasks.new ≡ decided mark label condition.entry then_part.entry else_part.entry ++ tasks.old) }
{
    tasks.push(Task::Close(label))?;
    tasks.push(Task::Find(else_part))?;
    tasks.push(Task::Unbind(mark))?;
    tasks.push(Task::Find(then_part))?;
    tasks.push(Task::Bind(condition.copy()))?;
    tasks.push(Task::Find(condition))
}

// A goal that joins one, and has this label.
fn plan_one<'a>(label: Label, goal: NodeRef<'a>, tasks: &mut Tasks<'a>) -> Result<(), NoMemory>
    ensures { OnOk result (tasks.new ≡ Task.Find goal.entry ∷ Task.Close label ∷ tasks.old) }
{
    tasks.push(Task::Close(label))?;
    tasks.push(Task::Find(goal))
}

// A disjunction of these goals.
fn plan_disjunction<'a>(
    alloc: Global,
    whole: &NodeRef<'a>,
    goals: Parts<'a>,
    tasks: &mut Tasks<'a>,
) -> Result<(), NoMemory>
    ensures { OnOk result (tasks.new ≡ disjoined whole.now goals.entry ∷ tasks.old) }
{
    let disjuncts = disjuncts_of(alloc, goals)?;
    let left = split_count(&disjuncts)?;
    let outputs = whole.outputs().try_clone(alloc)?;
    // (the disjuncts last, since it costs much to prove what is dropped of them)
    let selected = selection_of(alloc, whole, disjuncts)?;
    tasks.push(Task::Judge(Group {
        selected,
        used: VarSet::new(alloc),
        left,
        outputs,
        category: whole.category(),
    }))
}

// These disjuncts of a disjunction.
fn selection_of<'a>(
    alloc: Global,
    whole: &NodeRef<'a>,
    disjuncts: Vec<Disjunct<'a>>,
) -> Result<Selection<'a>, NoMemory>
    ensures { IfOk result (λ selected. selected ≡ record { whole = whole.now; disjuncts = disjuncts.entry.items }) }
{
    let disjuncts = Disjuncts::of(alloc, disjuncts)?;
    match Whole::of(alloc, whole.copy()) {
        Ok(whole) => Ok(Selection::of(whole, disjuncts, None)),
        Err(refused) => {
            // (a call, since it costs much to prove what is dropped here)
            drop(disjuncts);
            Err(refused)
        }
    }
}

// The disjuncts that goals are, in their order.
fn disjuncts_of<'a>(alloc: Global, goals: Parts<'a>) -> Result<Vec<Disjunct<'a>>, NoMemory>
    ensures { IfOk result (λ disjuncts. disjuncts.items ≡ goals.entry) }
{
    let mut goals = goals;
    let mut disjuncts = Vec::new(alloc);
    while let Some(last) = goals.take_last() {
        disjuncts.push(Disjunct::of(alloc, last)?)?;
    }
    disjuncts.reverse();
    Ok(disjuncts)
}

// How many splits there are at the beginnings of disjuncts. `NoMemory` where they pass the greatest `usize`; those of no
// goal that lies in memory do.
fn split_count(disjuncts: &[Disjunct<'_>]) -> Result<usize, NoMemory>
    ensures { IfOk result (λ count. count ≡ length (split_variables disjuncts.now)) }
{
    let mut count: usize = 0;
    for disjunct in disjuncts {
        match count.checked_add(disjunct.split_count()) {
            Some(more) => count = more,
            None => return Err(NoMemory),
        }
    }
    Ok(count)
}
